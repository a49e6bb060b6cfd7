// The checks that numbers pass to become a plan, in their order.
ghost use Rattle.std.specs.Prelude.{◌≡◌, ◌^◌, ◌<◌, ◌≤◌, Decides, MatchResult};
ghost use Rattle.slot_plan.specs.Faults.{First, rank};
ghost use Rattle.slot_plan.specs.Rules.{Passes, Valid};

use crate::fault::PlanFault;
use crate::fields::{Fields, MOST_SLOTS};
use crate::plan::Plan;

// The first numbers that five control bits and 62 expanded bits cannot hold.
const CONTROL_END: u8 = 32;

const EXPANDED_END: u64 = 0x4000_0000_0000_0000;

impl Fields {
    // The checks in their order, up to the first that fails.
    fn check(&self) -> Result<(), PlanFault>
        ensures { MatchResult result (λ _. Valid self.now) (λ e. First (Passes self.now) rank e) }
    {
        if !(1..=MOST_SLOTS).contains(&self.slots) {
            return Err(PlanFault::SlotCount);
        }
        if let Some(line) = self.wrong_mode() {
            return Err(PlanFault::ModeWord(line));
        }
        if let Some(line) = self.wrong_count() {
            return Err(PlanFault::LineCount(line));
        }
        if !self.sum_is_right() {
            return Err(PlanFault::CountSum);
        }
        if let Some(slot) = self.wrong_stream() {
            return Err(PlanFault::SlotStream(slot));
        }
        if self.control >= CONTROL_END || self.expanded >= EXPANDED_END {
            return Err(PlanFault::SpareBits);
        }
        Ok(())
    }
}

impl Plan {
    // The plan that these fields make, or the first check that they fail.
    pub fn new(fields: Fields) -> Result<Plan, PlanFault>
        ensures { MatchResult result (λ p. p.fields ≡ fields) (λ e. First (Passes fields) rank e) }
    {
        fields.check()?;
        Ok(Plan { fields })
    }

    // The numbers that the plan is made of.
    pub fn fields(&self) -> &Fields
        ensures { result.now ≡ self.now.fields }
    {
        &self.fields
    }
}
