// The rules of the slots: which are active, and their stream numbers.
ghost use Rattle.std.specs.Prelude.{◌≡◌, ℕ, ◌-◌, ◌<◌, ◌≤◌, true, false, ◌≢◌, Decides, MatchOption};
ghost use Rattle.slot_plan.specs.Layout.{counts, word_among, place_among, mode_word, active, stream, ts_id};
ghost use Rattle.slot_plan.specs.Modes.{word_of};
ghost use Rattle.slot_plan.specs.Rules.{DummyRule, TsIdRule, StreamRule};
ghost use Rattle.slot_plan.specs.Searches.{LeastFailing};

use crate::fields::{Fields, MOST_SLOTS};
use crate::mode::Mode;

// The highest stream number.
const LAST_STREAM: u8 = 7;

// Slots go by `u8` numbers, whose range stands in each `requires`: they come from ranges such as `1..slot`, and a type of their own
// would be made at each turn of those and taken apart at each index.
impl Fields {
    // The mode of the line that has a slot, and the slot's place in that line, from 0.
    pub(crate) fn locate(&self, slot: u8) -> Option<(Mode, u8)>
        ensures { MatchOption result ((m : Mode) → word_of m ≢ mode_word self.now slot) (λ found. (word_of found.0 ≡ mode_word self.now slot) × (found.1 ≡ place_among (counts self.now) (slot - 1))) }
    {
        let mut place = slot.saturating_sub(1);
        for line in self.lines.iter() {
            if place < line.count {
                return Some((line.mode()?, place));
            }
            place -= line.count;
        }
        None
    }

    // Whether a slot is active.
    pub(crate) fn is_active(&self, slot: u8) -> bool
        ensures { result ≡ active self.now slot }
    {
        self.locate(slot)
            .is_some_and(|(mode, place)| mode.is_active_at(place))
    }

    // The stream number of a slot from 1 to 48.
    pub(crate) fn stream(&self, slot: u8) -> u8
        requires { (1 ≤ slot) × (slot ≤ 48) }
        ensures { result ≡ stream self.now slot }
    {
        self.streams[slot as usize - 1]
    }

    // The TS_ID of a stream, and 0 for a number that no stream has, as the rules read it.
    fn ts_id_or_zero(&self, stream: u8) -> u16
        ensures { result ≡ ts_id self.now stream }
    {
        self.ts_ids.get(usize::from(stream)).copied().unwrap_or(0)
    }

    // Whether a slot, if it is a dummy slot, has the stream number of the last active slot before it.
    fn dummy_is_right(&self, slot: u8) -> bool
        requires { (1 ≤ slot) × (slot ≤ 48) }
        ensures { Decides result (DummyRule self.now slot) }
    {
        if self.is_active(slot) {
            return true;
        }
        (1..slot)
            .rfind(|earlier| self.is_active(*earlier))
            .is_none_or(|last| self.stream(last) == self.stream(slot))
    }

    // Whether a slot, if it is active, has another TS_ID than each active slot of another stream before it.
    fn ts_id_is_right(&self, slot: u8) -> bool
        requires { (1 ≤ slot) × (slot ≤ 48) }
        ensures { Decides result (TsIdRule self.now slot) }
    {
        let own = self.stream(slot);
        // A clash is asked for first, since it is two look-ups and an active slot a walk along the lines: a plan file of 48 slots
        // is read in 15,700 instructions, and in 37,300 with the two in the other order.
        !self.is_active(slot)
            || (1..slot).all(|earlier| !self.clashes(self.stream(earlier), own)
                || !self.is_active(earlier))
    }

    // Whether two stream numbers differ and have one TS_ID.
    fn clashes(&self, a: u8, b: u8) -> bool
        ensures { Decides result ((a ≢ b) × (ts_id self.now a ≡ ts_id self.now b)) }
    {
        a != b && self.ts_id_or_zero(a) == self.ts_id_or_zero(b)
    }

    // Whether the stream number of a slot from 1 to 48 is right.
    fn stream_is_right(&self, slot: u8) -> bool
        requires { (1 ≤ slot) × (slot ≤ 48) }
        ensures { Decides result (StreamRule self.now slot) }
    {
        if slot > self.slots {
            return self.stream(slot) == 0;
        }
        self.stream(slot) <= LAST_STREAM && self.dummy_is_right(slot) && self.ts_id_is_right(slot)
    }

    // The first slot whose stream number is wrong.
    pub(crate) fn wrong_stream(&self) -> Option<u8>
        ensures { LeastFailing (StreamRule self.now) 48 result }
    {
        (1..=MOST_SLOTS).find(|slot| !self.stream_is_right(*slot))
    }
}
