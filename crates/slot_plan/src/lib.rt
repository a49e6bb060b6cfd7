// The slot plan of a satellite channel: its fields, the rules that bind them, and what each slot carries.
#![tactic(auto)]

mod checks;
mod fault;
mod fields;
mod lines;
mod mode;
mod plan;
mod slots;
mod streams;

pub use fault::PlanFault;
pub use fields::{Fields, LINES, LineNumbers, MOST_SLOTS};
pub use mode::{Mode, UnknownMode};
pub use plan::Plan;
pub use slots::{Line, Role, Slot};
