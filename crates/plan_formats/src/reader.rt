// Reading numbers from a string of bits, one after the other.
ghost use Rattle.std.specs.Prelude.{◌≡◌, ◌+◌, ◌*◌, ◌^◌, ◌<◌, ◌≤◌, [], ◌∷◌, length, map};

use crate::number::Number;

// Bytes, and the place of the next bit to read, from 0: each byte's highest bit comes first.
#[derive(Drop)]
pub(crate) struct BitReader<'a> {
    bytes: &'a [u8],
    place: usize,
    ghost short: { length bytes.now ≤ 128 },
}

impl<'a> BitReader<'a> {
    ghost use Rattle.plan_formats.specs.Body.{numbers};
    ghost use Rattle.plan_formats.specs.Cursors.{Took};

    // A reader whose next bit is at a place.
    pub(crate) fn new(bytes: &'a [u8], place: usize) -> BitReader<'a>
        requires { length bytes.now ≤ 128 }
        ensures bytes { result.bytes.now ≡ bytes.now }
        ensures place { result.place ≡ place }
    {
        BitReader { bytes, place }
    }

    // The next bit.
    fn bit(&mut self) -> u8
        requires { self.old.place + 1 ≤ length self.old.bytes.now * 8 }
        ensures { Took self.old ((1, result) ∷ []) self.new }
    {
        let bit = (self.bytes[self.place / 8] >> (7 - self.place % 8)) & 1;
        self.place += 1;
        bit
    }

    // The number in the next `width` bits.
    #[tactic(auto, unfolding(crate::specs::Bits::width))]
    pub(crate) fn read(&mut self, width: usize) -> u64
        requires room { self.old.place + width ≤ length self.old.bytes.now * 8 }
        requires fits { width ≤ 64 }
        ensures took { Took self.old ((width, result) ∷ []) self.new }
        ensures bound { result < 2 ^ width }
    {
        let mut value = 0;
        for _ in 0..width {
            value = (value << 1) | u64::from(self.bit());
        }
        value
    }

    // Fills a slice with the next numbers, each of `width` bits.
    pub(crate) fn read_numbers<T: Number>(&mut self, width: usize, values: &mut [T])
        requires room { self.old.place + width * length values.old ≤ length self.old.bytes.now * 8 }
        requires fits { width ≤ T.size }
        ensures { Took self.old (numbers width (map T.value values.new)) self.new }
    {
        for value in values.iter_mut() {
            *value = T::from_bits(self.read(width));
        }
    }
}
