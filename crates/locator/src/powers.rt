// The values of a polynomial at the powers of 02h, sixteen at a time.
ghost use Rattle.std.specs.Prelude.{◌≡◌, ℕ, ◌+◌, ◌*◌, ◌<◌, ◌≤◌, length, slice_index};
ghost use Rattle.code_theory.specs.Sequences.{polynomial};
ghost use Rattle.field256.specs.Field.{power, times};

use crate::polynomial::SIZE;
use field256::{exp, product};
use parity::values_at_roots;

// How many powers have their values made at once, and in all.
const BLOCK: usize = 16;

pub const POWERS: usize = 256;

// Puts 2^16 x in the place of x: each coefficient times the power of 2^16 that its place asks for.
fn move_on(p: &mut [u8; SIZE])
    ensures size { length p.new ≡ 9 }
    ensures at { (j : ℕ) → j < 9 → slice_index p.new j ≡ times (slice_index p.old j) (power 2 (16 * j)) }
{
    for (j, coefficient) in p.iter_mut().enumerate() {
        *coefficient = product(*coefficient, exp(BLOCK * j));
    }
}

// Writes a block of values from a place on.
fn put(values: &mut [u8; POWERS], from: usize, block: &[u8; BLOCK])
    requires { from + 16 ≤ 256 }
    ensures size { length values.new ≡ 256 }
    ensures block { (j : ℕ) → j < 16 → slice_index values.new (from + j) ≡ slice_index block.now j }
    ensures before { (i : ℕ) → i < from → slice_index values.new i ≡ slice_index values.old i }
    ensures behind { (i : ℕ) → from + 16 ≤ i → slice_index values.new i ≡ slice_index values.old i }
{
    values[from..from + BLOCK].copy_from_slice(block);
}

// The values at the first powers of 02h, as many as are asked for and at most 256. The rest of the last block are values too,
// and zeros follow.
pub fn values_at_powers(p: &[u8; SIZE], asked: usize) -> [u8; POWERS]
    ensures size { length result ≡ 256 }
    ensures at { (i : ℕ) → i < asked → i < 256 → slice_index result i ≡ polynomial 9 p.now (power 2 i) }
    ensures spare { (i : ℕ) → asked + 16 ≤ i → slice_index result i ≡ 0 }
{
    let mut values = [0; POWERS];
    let mut moved = *p;
    // by offset, since nothing is known of the values in what chunks_exact_mut lent out once the loop is over
    for block in 0..asked.min(POWERS).div_ceil(BLOCK) {
        put(&mut values, BLOCK * block, &values_at_roots(&moved));
        move_on(&mut moved);
    }
    values
}
