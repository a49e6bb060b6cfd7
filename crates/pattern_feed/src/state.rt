// What a pattern feed keeps.
ghost use Rattle.std.specs.Prelude.{◌≡◌, ℕ, ◌≤◌, length, slice_index};
ghost use Rattle.pattern_feed.specs.Numbers.{next_of, counts_of};

use feed::STREAMS;
use std::ops::Range;

// How far each of eight streams has come.
#[derive(Drop)]
pub struct PatternFeed {
    // the numbers of each stream's packets that are left, up to how many it has in all
    pub(crate) left: [Range<u16>; STREAMS],
    ghost streams: { length left ≡ 8 },
    ghost within: { (r : ℕ) → slice_index (next_of left) r ≤ slice_index (counts_of left) r },
    ghost short: { (r : ℕ) → slice_index (counts_of left) r ≤ 65535 },
}
