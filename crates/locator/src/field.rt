// Division in the field.
ghost use Rattle.field256.specs.Field.{times};
ghost use Rattle.std.specs.Prelude.{◌≡◌, ◌≢◌, MatchOption};

use field256::{inverse, product};

// The quotient of two elements. None where the second is zero.
pub fn quotient(a: u8, b: u8) -> Option<u8>
    ensures { MatchOption result (b ≡ 0) (λ q. (b ≢ 0) × (times q b ≡ a)) }
{
    inverse(b).map(|i| product(a, i))
}
