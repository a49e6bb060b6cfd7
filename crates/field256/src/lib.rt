// The field of 256 elements that the outer code computes in: sums, products, inverses, powers of x and logarithms.
#![tactic(auto)]

mod tables;

ghost use Rattle.std.specs.Prelude.{◌≡◌, ◌<◌, MatchOption};
ghost use Rattle.field256.specs.Field.{plus, power, times};
ghost use Rattle.field256.specs.Rules.{FieldLaws};

use tables::{exp_entry, log_entry};

// How many powers of x there are before they repeat.
const ORDER: usize = 255;

// The element x, and its seventh power, the highest with a bit of its own.
const X: u8 = 0x02;

const X_TO_SEVEN: u8 = 0x80;

// The sum of two elements, which is also their difference.
#[tactic(auto, unfolding(crate::specs::Field::plus))]
pub fn sum(a: u8, b: u8) -> u8
    ensures { result ≡ plus a b }
{
    a ^ b
}

// The product of two elements, by their logarithms: where one is zero, the sum is past the powers.
// Not by `log`, since with its tests for zero a word with eight errors takes a sixth longer to correct.
pub fn product(a: u8, b: u8) -> u8
    ensures { result ≡ times a b }
{
    exp_entry(log_entry(a) as usize + log_entry(b) as usize)
}

// The n-th power of x.
#[tactic(auto, using(crate::proofs::Powers::two_power_mod))]
pub fn exp(n: usize) -> u8
    ensures { result ≡ power 2 n }
{
    exp_entry(n % ORDER)
}

// The logarithm of an element: which power of x it is. Zero has none.
pub fn log(a: u8) -> Option<u8>
    ensures { MatchOption result (a ≡ 0) (λ n. (n < 255) × (power 2 n ≡ a)) }
{
    (a != 0).then(|| log_entry(a) as u8)
}

// The inverse of an element. Zero has none.
#[tactic(auto, using(crate::proofs::Powers::two_power_inverse))]
pub fn inverse(a: u8) -> Option<u8>
    ensures { MatchOption result (a ≡ 0) (λ b. (b < 256) × (times a b ≡ 1)) }
{
    log(a).map(|n| exp_entry(ORDER - n as usize))
}

// What x^8 is in the field: x times x^7, which is x^4 + x^3 + x^2 + 1.
pub fn reduction() -> u8
    ensures { (result ≡ times 0x02 0x80) × (result ≡ 0x1D) }
{
    product(X, X_TO_SEVEN)
}

// How many elements the field has; and that it is one.
pub fn elements() -> usize
    ensures number { result ≡ 256 }
    ensures laws { FieldLaws }
{
    ORDER + 1
}
