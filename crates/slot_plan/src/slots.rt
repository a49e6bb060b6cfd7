// What a plan tells of its lines, its slots and its streams.
ghost use Rattle.std.specs.Prelude.{◌≡◌, ℕ, ◌<◌, ◌≤◌, true, ◌≢◌, ◌⊎◌, Decides, MatchOption};
ghost use Rattle.slot_plan.specs.Layout.{word, count, ts_id};
ghost use Rattle.slot_plan.specs.Modes.{word_of};
ghost use Rattle.slot_plan.specs.Rules.{unused};
ghost use Rattle.slot_plan.specs.Views.{active_below, active_up_to, Used, Tells};

use crate::fields::LINES;
use crate::mode::Mode;
use crate::plan::Plan;

// A used line of a plan: a mode, and how many slots have it.
#[derive(Clone, Copy, PartialEq, Eq, Debug)]
pub struct Line {
    pub mode: Mode,
    pub slots: u8,
}

// Whether a slot carries a packet.
#[derive(Clone, Copy, PartialEq, Eq, Debug)]
pub enum Role {
    Active,
    Dummy,
}

// What a slot of every frame is for.
#[derive(Clone, Copy, PartialEq, Eq, Debug)]
pub struct Slot {
    pub mode: Mode,
    pub role: Role,
    pub stream: u8,
}

impl Line {
    // How many slots of the line are active.
    pub fn active_slots(self) -> u16
        ensures { result ≡ active_below (word_of self.mode) self.slots }
    {
        let unit = self.mode.unit();
        let active = self.mode.active();
        u16::from(self.slots / unit) * u16::from(active)
            + u16::from((self.slots % unit).min(active))
    }
}

impl Plan {
    // How many slots a frame has.
    pub fn slots(&self) -> u8
        ensures value { result ≡ self.now.fields.slots }
        ensures bound { (1 ≤ result) × (result ≤ 48) }
    {
        self.fields.slots
    }

    // A used line, by its number from 1 to 4.
    pub fn line(&self, line: u8) -> Option<Line>
        ensures { MatchOption result ((line < 1) ⊎ ((4 < line) ⊎ (word self.now.fields line ≡ unused))) (λ l. (1 ≤ line) × (line ≤ 4) × (word_of l.mode ≡ word self.now.fields line) × (l.slots ≡ count self.now.fields line)) }
    {
        if !(1..=LINES).contains(&line) {
            return None;
        }
        let used = self.fields.line(line);
        Some(Line {
            mode: used.mode()?,
            slots: used.count,
        })
    }

    // A slot of the frame, by its number from 1.
    pub fn slot(&self, slot: u8) -> Option<Slot>
        ensures { MatchOption result ((slot < 1) ⊎ (self.now.fields.slots < slot)) (λ s. (1 ≤ slot) × (slot ≤ self.now.fields.slots) × Tells self.now.fields slot s) }
    {
        if !(1..=self.slots()).contains(&slot) {
            return None;
        }
        let (mode, _) = self.fields.locate(slot)?;
        let role = if self.fields.is_active(slot) {
            Role::Active
        } else {
            Role::Dummy
        };
        Some(Slot {
            mode,
            role,
            stream: self.fields.stream(slot),
        })
    }

    // How many slots of a frame are active.
    pub fn active_slots(&self) -> u8
        ensures { result ≡ active_up_to self.now.fields self.now.fields.slots }
    {
        // A half-open range, since an inclusive one asks at each slot whether it is done: 1,350 instructions for 48 slots, and 1,600
        // by `1..=self.slots()`.
        (1..self.slots() + 1)
            .map(|slot| u8::from(self.fields.is_active(slot)))
            .sum()
    }

    // Whether an active slot has this stream.
    pub fn uses(&self, stream: u8) -> bool
        ensures { Decides result (Used self.now.fields stream) }
    {
        (1..=self.slots()).any(|slot| self.fields.is_active(slot)
            && self.fields.stream(slot) == stream)
    }

    // The TS_ID of a stream, by its number from 0 to 7.
    pub fn ts_id(&self, stream: u8) -> Option<u16>
        ensures { MatchOption result (7 < stream) (λ id. (stream ≤ 7) × (id ≡ ts_id self.now.fields stream)) }
    {
        self.fields.ts_ids.get(usize::from(stream)).copied()
    }
}
