// What the words of modulate's command line ask for.
#![tactic(auto)]

mod asking;
mod counts;
mod job;
mod misuse;
mod pairs;
mod words;

pub use job::{Change, Job, Packets};
pub use misuse::Misuse;
pub use words::Words;
