// Requests to the outer code, one to a line of text, and what they are answered.
#![tactic(auto)]

mod answer;
mod line;
mod request;
#[cfg(test)]
mod tests;

pub use answer::Answer;
pub use line::answer_line;
pub use request::{Kind, Request, Task, parse};
