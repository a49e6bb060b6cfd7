// The pattern feed as a feed.
ghost use Rattle.std.specs.Prelude.{◌≡◌, ℕ};
ghost use Rattle.pattern_feed.specs.Patterns.{whole};
ghost use Rattle.pattern_feed.specs.Pending.{pending};

use crate::packet;
use crate::state::PatternFeed;
use feed::{Feed, PACKET_BYTES, STREAMS};

impl PatternFeed {
    // The feed of as many packets in each stream as its count says.
    pub fn new(counts: [u16; STREAMS]) -> PatternFeed
        ensures { (r : ℕ) → pending result r ≡ whole counts r }
    {
        PatternFeed {
            left: counts.map(|count| 0..count),
        }
    }
}

impl Feed for PatternFeed {
    ghost lists = { pending };

    fn waiting(&self, stream: u8) -> u16 {
        self.left
            .get(stream as usize)
            .map_or(0, |numbers| numbers.end - numbers.start)
    }

    fn take(&mut self, stream: u8, to: &mut [u8; PACKET_BYTES]) -> bool {
        if self.waiting(stream) == 0 {
            return false;
        }
        let Some(number) = self.left[stream as usize].next() else {
            unreachable()
        };
        packet::write_packet(stream, number, to);
        true
    }
}
