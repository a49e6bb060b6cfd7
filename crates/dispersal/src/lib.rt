// The energy dispersal sequence, and adding it to bytes.
#![tactic(auto)]

mod sequence;
mod steps;

pub use sequence::Sequence;
