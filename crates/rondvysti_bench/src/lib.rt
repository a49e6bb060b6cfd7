// Calls that are measured beside other code: the outer code on slot words, and whole super-frames; `rondvysti_bench_c` exports them to C.
#![tactic(auto)]

mod filling;
mod frames;
mod refusal;
mod words;

pub use filling::rondvysti_bench_fill;
pub use frames::{rondvysti_bench_read, rondvysti_bench_write};
pub use words::{rondvysti_bench_correct, rondvysti_bench_encode};
