// Unsigned integers that stand in a field of bits.
ghost use Rattle.std.specs.Prelude.{◌≡◌, ℕ, ◌^◌, ◌<◌, ◌≤◌};
ghost use Rattle.std.proofs.Common.{rules};

pub(crate) trait Number: Copy + Drop {
    ghost value: { Self → ℕ };

    // how many bits the type has
    ghost size: { ℕ };

    // The number in the low bits of 64.
    fn to_bits(self) -> u64
        ensures value { result ≡ value self }
        ensures bound { result < 2 ^ size };

    // The number that those bits make.
    fn from_bits(bits: u64) -> Self
        requires { bits < 2 ^ size }
        ensures { value result ≡ bits };

    // the 64 bits hold each number of the type
    ghost narrow: { size ≤ 64 };
}

impl Number for u8 {
    ghost value = { λ n. n };

    ghost size = { 8 };

    ghost narrow = { Prim.search rules };

    fn to_bits(self) -> u64 {
        u64::from(self)
    }

    fn from_bits(bits: u64) -> u8 {
        bits as u8
    }
}

impl Number for u16 {
    ghost value = { λ n. n };

    ghost size = { 16 };

    ghost narrow = { Prim.search rules };

    fn to_bits(self) -> u64 {
        u64::from(self)
    }

    fn from_bits(bits: u64) -> u16 {
        bits as u16
    }
}

impl Number for u64 {
    ghost value = { λ n. n };

    ghost size = { 64 };

    ghost narrow = { Prim.search rules };

    fn to_bits(self) -> u64 {
        self
    }

    fn from_bits(bits: u64) -> u64 {
        bits
    }
}
