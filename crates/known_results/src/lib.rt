// Worked results of the rules, as one list that the definitions are held to.
#![tactic(auto)]

ghost use Rattle.std.specs.Prelude.{◌≡◌};
ghost use Rattle.known_results.specs.Known.{KnownResults};

// How many results the list has.
const RESULTS: u8 = 12;

// All the results hold; answers how many there are.
pub fn known_results() -> u8
    ensures all { KnownResults }
    ensures number { result ≡ 12 }
{
    RESULTS
}
