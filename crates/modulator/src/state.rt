// The two states of a modulator, which move into one another. Only a loaded one can fill.
ghost use Rattle.std.specs.Prelude.{◌≤◌};

use crate::fault::ModulatorFault;
use plan_formats::{KeptPlan, Order};

// A modulator without a plan: it knows how many slots its frames have.
#[derive(Drop)]
pub struct Bare {
    pub(crate) slots: u8,
    ghost frame: { (1 ≤ slots) × (slots ≤ 48) },
}

// A modulator with a plan and an order of change.
#[derive(Drop)]
pub struct Loaded {
    pub(crate) order: Order,
    pub(crate) kept: KeptPlan,
}

// A bare modulator that a plan did not load, and why.
#[derive(Drop)]
pub struct Unloaded {
    pub bare: Bare,
    pub fault: ModulatorFault,
}

// How many packets a super-frame placed, and in how many of its active slots none was placed.
#[derive(Clone, Copy, PartialEq, Eq, Debug)]
pub struct Tally {
    pub placed: u32,
    pub nulls: u32,
}
