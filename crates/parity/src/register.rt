// The register that a word goes through, eight bytes at a time and then the rest byte by byte.
ghost use Rattle.std.specs.Prelude.{◌≡◌, ℕ, List, [], ◌∷◌, ◌++◌};
ghost use Rattle.code_theory.specs.Codeword.{Bytes};
ghost use Rattle.parity.specs.Remainder.{Remainder, bytes_of, shifted};

use crate::rows::row;

// How many bytes go into the register at once.
const BLOCK: usize = 8;

// The register after one more byte.
fn fed(register: u128, byte: u8) -> u128
    ensures { (w : List ℕ) → Bytes w → Remainder (shifted 16 w) register → Remainder (shifted 16 (w ++ (byte ∷ []))) result }
{
    let out = (register >> 120) as u8 ^ byte;
    (register << 8) ^ row(0, out)
}

// The remainder of eight bytes times x^16, by a row for each.
fn rows(block: u64) -> u128
    ensures { Remainder (shifted 16 (bytes_of 8 block)) result }
{
    let mut all = 0;
    for (place, byte) in block.to_le_bytes().iter().enumerate() {
        all ^= row(place, *byte);
    }
    all
}

// The register after eight more bytes.
fn fed_block(register: u128, block: &[u8; 8]) -> u128
    ensures { (w : List ℕ) → Bytes w → Remainder (shifted 16 w) register → Remainder (shifted 16 (w ++ block.now)) result }
{
    let out = (register >> 64) as u64 ^ u64::from_be_bytes(*block);
    (register << 64) ^ rows(out)
}

// The remainder of a message times x^16.
pub fn divided(message: &[u8]) -> u128
    ensures { Remainder (shifted 16 message.now) result }
{
    let (blocks, rest) = message.as_chunks::<BLOCK>();
    let register = blocks
        .iter()
        .fold(0, |register, block| fed_block(register, block));
    rest.iter()
        .fold(register, |register, byte| fed(register, *byte))
}
