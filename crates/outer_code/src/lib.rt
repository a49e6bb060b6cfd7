// The outer code: kinds of word, the coder and the corrector, which serve every kind.
#![tactic(auto)]

mod corrector;
mod encoder;
mod fault;
mod kind;

pub use corrector::correct;
pub use encoder::{encode, encode_data};
pub use fault::{CodeFault, answer_number};
pub use kind::{SlotWord, TmccWord, WordKind};
