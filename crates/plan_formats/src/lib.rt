// How a slot plan is written: as a station's plan file, as the TMCC data, and packed for keeping.
#![tactic(auto)]

mod body;
mod fault;
mod file;
mod kept;
mod number;
mod order;
mod reader;
mod tmcc;
mod writer;

pub use fault::FileFault;
pub use file::{read_plan, write_plan, write_plan_into};
pub use kept::KeptPlan;
pub use order::Order;
pub use tmcc::Tmcc;
