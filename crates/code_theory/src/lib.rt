// The theory of the outer code: how far apart its codewords are, and what that says of correcting.
#![tactic(auto)]

ghost use Rattle.std.specs.Prelude.{◌≡◌, ℕ, ◌≤◌};
ghost use Rattle.code_theory.specs.Laws.{DifferIn, NoneNear, OneNear, Reached};
ghost use Rattle.code_theory.specs.Codeword.{distance};

// How many check bytes a codeword has.
const CHECK_BYTES: u8 = 16;

// Two different codewords of one length, at most 255, differ in this many places at least, and some two in no more.
pub fn minimum_distance() -> u8
    ensures number { result ≡ 17 }
    ensures apart { DifferIn result }
    ensures reached { Reached result }
{
    CHECK_BYTES + 1
}

// The largest bound to correct with: at most one codeword lies within a bound up to it,
// and a word that differs from a codeword in more places, but not in too many, has none within the bound.
pub fn largest_bound() -> u8
    ensures number { result ≡ 8 }
    ensures one { (bound : ℕ) → bound ≤ result → OneNear bound }
    ensures none { (bound : ℕ) → bound ≤ result → NoneNear bound }
{
    CHECK_BYTES / 2
}

// In how many places two words differ, up to the end of the shorter one.
pub fn differing(a: &[u8], b: &[u8]) -> usize
    ensures { result ≡ distance a.now b.now }
{
    // Not by `filter` and `count`, which go byte by byte: 3,500 instructions for 204 bytes, and 1,200 by a sum.
    a.iter().zip(b).map(|(x, y)| usize::from(x != y)).sum()
}
