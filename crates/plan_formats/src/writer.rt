// Writing numbers into a string of bits, one after the other.
ghost use Rattle.std.specs.Prelude.{◌≡◌, ℕ, ◌+◌, ◌-◌, ◌*◌, ◌/◌, ◌%◌, ◌^◌, ◌<◌, ◌≤◌, [], ◌∷◌, length, map, slice_index};
ghost use mir.Val.{bool_byte};

use crate::number::Number;

// Bytes, and the place of the next bit to write. The bits before it stay as they are.
#[derive(Drop)]
pub(crate) struct BitWriter<'a> {
    bytes: &'a mut [u8],
    place: usize,
    ghost short: { length bytes.now ≤ 128 },
}

// The byte with its bit `at`, from 0 and the highest first, made 0 or 1.
fn with_bit(byte: u8, at: usize, one: bool) -> u8
    requires { at < 8 }
    ensures here { result / 2 ^ (7 - at) % 2 ≡ bool_byte one }
    ensures before { (i : ℕ) → i < at → result / 2 ^ (7 - i) % 2 ≡ byte / 2 ^ (7 - i) % 2 }
{
    let mask = 0x80u8 >> at;
    if one { byte | mask } else { byte & !mask }
}

impl<'a> BitWriter<'a> {
    ghost use Rattle.plan_formats.specs.Body.{numbers};
    ghost use Rattle.plan_formats.specs.Cursors.{Wrote};

    // A writer whose next bit is the first.
    pub(crate) fn new(bytes: &'a mut [u8]) -> BitWriter<'a>
        requires { length bytes.old ≤ 128 }
        ensures same_reference { result.bytes.ghost_name ≡ bytes.entry.ghost_name }
        ensures bytes { result.bytes.now ≡ bytes.old }
        ensures place { result.place ≡ 0 }
    {
        BitWriter { bytes, place: 0 }
    }

    // Makes the next bit 0 or 1.
    fn write_bit(&mut self, one: bool)
        requires { self.old.place + 1 ≤ length self.old.bytes.now * 8 }
        ensures { Wrote self.old ((1, bool_byte one) ∷ []) self.new }
    {
        let at = self.place / 8;
        self.bytes[at] = with_bit(self.bytes[at], self.place % 8, one);
        self.place += 1;
    }

    // Writes a number into the next `width` bits.
    #[tactic(auto, unfolding(crate::specs::Bits::width))]
    pub(crate) fn write(&mut self, width: usize, value: u64)
        requires room { self.old.place + width ≤ length self.old.bytes.now * 8 }
        requires fits { (width ≤ 64) × (value < 2 ^ width) }
        ensures { Wrote self.old ((width, value) ∷ []) self.new }
    {
        for at in (0..width).rev() {
            self.write_bit((value >> at) & 1 == 1);
        }
    }

    // Writes numbers, each into `width` bits.
    pub(crate) fn write_numbers<T: Number>(&mut self, width: usize, values: &[T])
        requires room { self.old.place + width * length values.now ≤ length self.old.bytes.now * 8 }
        requires narrow { width ≤ T.size }
        requires fits { width < T.size → (k : ℕ) → k < length values.now → slice_index (map T.value values.now) k < 2 ^ width }
        ensures { Wrote self.old (numbers width (map T.value values.now)) self.new }
    {
        for value in values {
            self.write(width, value.to_bits());
        }
    }
}
