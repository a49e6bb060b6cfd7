// What a modulator tells of itself.
// A method for each of the two states, since a bare one keeps the number of slots and a loaded one has it in its plan.
ghost use Rattle.std.specs.Prelude.{◌≡◌, ◌≤◌};

use crate::state::{Bare, Loaded};
use plan_formats::Order;

impl Bare {
    // How many slots its frames have.
    pub fn slots(&self) -> u8
        ensures value { result ≡ self.now.slots }
        ensures bound { (1 ≤ result) × (result ≤ 48) }
    {
        self.slots
    }
}

impl Loaded {
    // How many slots its frames have.
    pub fn slots(&self) -> u8
        ensures value { result ≡ self.now.kept.slots }
        ensures bound { (1 ≤ result) × (result ≤ 48) }
    {
        self.kept.plan().slots()
    }

    // Its order of change.
    pub fn order(&self) -> Order
        ensures { result ≡ self.now.order }
    {
        self.order
    }
}
