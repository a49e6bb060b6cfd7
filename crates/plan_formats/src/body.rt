// The numbers that the plan file and the TMCC data have in common, in the bits that each format gives them.
ghost use Rattle.std.specs.Prelude.{◌≡◌, ℕ, ◌+◌, ◌*◌, ◌≤◌, length, map, slice_index};
ghost use Rattle.slot_plan.specs.Layout.{Shaped, words, counts};
ghost use Rattle.plan_formats.specs.Body.{lines, body, body_width, Narrow, Small};
ghost use Rattle.plan_formats.specs.Cursors.{Took, Wrote};

use crate::reader::BitReader;
use crate::writer::BitWriter;
use slot_plan::{Fields, LineNumbers};

// How many bits each number of a plan takes in a format, and how many stream numbers the format has.
// That they are narrow is a clause and no ghost field, since the specs give a plan file's widths for any number of slots.
#[derive(Clone, Copy)]
pub struct Widths {
    pub(crate) word: usize,
    pub(crate) count: usize,
    pub(crate) stream: usize,
    pub(crate) streams: usize,
    pub(crate) control: usize,
    pub(crate) expanded: usize,
}

// How many bits a TS_ID has in every format.
const TS_ID: usize = 16;

impl Widths {
    // The numbers of the four lines.
    #[tactic(auto, using(crate::proofs::Reading::took_line_room), unfolding(crate::specs::Bits::width))]
    fn read_lines(&self, bits: &mut BitReader<'_>) -> [LineNumbers; 4]
        requires room { bits.old.place + 4 * (self.now.word + self.now.count) ≤ length bits.old.bytes.now * 8 }
        requires narrow { Narrow self.now }
        ensures len { length result ≡ 4 }
        ensures took { Took bits.old (lines self.now.word self.now.count (map (λ l. l.word) result) (map (λ l. l.count) result)) bits.new }
    {
        let mut lines = [LineNumbers { word: 0, count: 0 }; 4];
        for line in lines.iter_mut() {
            *line = LineNumbers {
                word: bits.read(self.word) as u8,
                count: bits.read(self.count) as u8,
            };
        }
        lines
    }

    // A plan's numbers; the slots beyond those that the format names have stream 0.
    #[tactic(auto, using(crate::proofs::Joins::width_values, crate::proofs::Joins::length_taken), unfolding(crate::specs::Bits::width, crate::specs::Body::lines))]
    pub(crate) fn read(&self, bits: &mut BitReader<'_>, slots: u8) -> Fields
        requires room { bits.old.place + body_width self.now ≤ length bits.old.bytes.now * 8 }
        requires narrow { Narrow self.now }
        ensures shaped { Shaped result }
        ensures slots { result.slots ≡ slots }
        ensures beyond { (k : ℕ) → self.now.streams ≤ k → slice_index result.streams k ≡ 0 }
        ensures took { Took bits.old (body self.now result) bits.new }
    {
        let lines = self.read_lines(bits);
        let mut streams = [0; 48];
        bits.read_numbers(self.stream, &mut streams[..self.streams]);
        let mut ts_ids = [0; 8];
        bits.read_numbers(TS_ID, &mut ts_ids);
        Fields {
            slots,
            lines,
            streams,
            ts_ids,
            control: bits.read(self.control) as u8,
            expanded: bits.read(self.expanded),
        }
    }

    // Writes the numbers of the four lines.
    #[tactic(auto, using(crate::proofs::Writing::wrote_line_room), unfolding(crate::specs::Bits::width))]
    fn write_lines(&self, bits: &mut BitWriter<'_>, fields: &Fields)
        requires room { bits.old.place + 4 * (self.now.word + self.now.count) ≤ length bits.old.bytes.now * 8 }
        requires narrow { Narrow self.now }
        requires shaped { Shaped fields.now }
        requires small { Small self.now fields.now }
        ensures { Wrote bits.old (lines self.now.word self.now.count (words fields.now) (counts fields.now)) bits.new }
    {
        for line in &fields.lines {
            bits.write(self.word, u64::from(line.word));
            bits.write(self.count, u64::from(line.count));
        }
    }

    // Writes a plan's numbers.
    #[tactic(auto, using(crate::proofs::Joins::width_values), unfolding(crate::specs::Bits::width, crate::specs::Body::lines))]
    pub(crate) fn write(&self, bits: &mut BitWriter<'_>, fields: &Fields)
        requires room { bits.old.place + body_width self.now ≤ length bits.old.bytes.now * 8 }
        requires narrow { Narrow self.now }
        requires shaped { Shaped fields.now }
        requires small { Small self.now fields.now }
        ensures { Wrote bits.old (body self.now fields.now) bits.new }
    {
        self.write_lines(bits, fields);
        bits.write_numbers(self.stream, &fields.streams[..self.streams]);
        bits.write_numbers(TS_ID, &fields.ts_ids);
        bits.write(self.control, u64::from(fields.control));
        bits.write(self.expanded, fields.expanded);
    }
}
