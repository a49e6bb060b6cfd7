// What a run of the modulator is made of. A file and a plan stand in it by their paths, or by what the files hold.
#![tactic(auto)]

mod change;
mod source;

pub use change::Change;
pub use source::Source;
