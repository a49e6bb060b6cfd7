// Making, loading and installing.
ghost use Rattle.modulator.specs.Runs.{Begins, InstallContinues};
ghost use Rattle.modulator.specs.States.{Made, Load, Install};

use crate::fault::ModulatorFault;
use crate::state::{Bare, Loaded, Unloaded};
use plan_formats::{KeptPlan, Order};
use slot_plan::{MOST_SLOTS, Plan};

impl Bare {
    // A bare modulator for frames of so many slots.
    pub fn new(slots: u8) -> Result<Bare, ModulatorFault>
        ensures { Made slots result }
    {
        if !(1..=MOST_SLOTS).contains(&slots) {
            return Err(ModulatorFault::Slots);
        }
        Ok(Bare { slots })
    }

    // Loads a plan, with order of change 0, or hands the bare modulator back.
    pub fn load(self, plan: &Plan) -> Result<Loaded, Unloaded>
        ensures load { Load self plan.now.fields result }
        ensures run { Begins result }
    {
        if plan.slots() != self.slots {
            return Err(Unloaded {
                bare: self,
                fault: ModulatorFault::Frame,
            });
        }
        Ok(Loaded {
            order: Order::first(),
            kept: KeptPlan::new(plan),
        })
    }
}

impl Loaded {
    // Puts a plan in the place of the one before, and steps the order of change on.
    pub fn install(&mut self, plan: &Plan) -> Result<(), ModulatorFault>
        ensures install { Install self.old plan.now.fields result self.new }
        ensures run { InstallContinues self.old self.new }
    {
        if plan.slots() != self.slots() {
            return Err(ModulatorFault::Frame);
        }
        self.order = self.order.next();
        self.kept = KeptPlan::new(plan);
        Ok(())
    }
}
