// A list of bytes as a number, and back.
ghost use Rattle.std.specs.Prelude.{◌≡◌, ◌≤◌, length};
ghost use Rattle.parity.specs.Remainder.{bytes_of};
ghost use Rattle.std.specs.Int.Digits.{number_from_digits as numbered};

// The sixteen bytes of a number, highest first.
#[tactic(auto, unfolding(crate::specs::Remainder::bytes_of))]
pub fn bytes_of(n: u128) -> [u8; 16]
    ensures { result ≡ bytes_of 16 n }
{
    n.to_be_bytes()
}

// The number whose bytes, highest first, these are.
pub fn number(bytes: &[u8]) -> u128
    requires { length bytes.now ≤ 16 }
    ensures { result ≡ numbered 256 bytes.now }
{
    bytes.iter().fold(0, |n, byte| n << 8 | u128::from(*byte))
}
