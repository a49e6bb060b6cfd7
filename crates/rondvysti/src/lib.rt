// The calls of the rack's control program, on bytes and numbers; `rondvysti_c` exports them to C.
#![tactic(auto)]

mod plan;
mod tmcc;

pub use plan::rondvysti_plan_check;
pub use tmcc::rondvysti_tmcc_correct;
