// A run of the modulator: super-frames, installs of plans in between, and what is told of them.
#![tactic(auto)]

mod event;
mod inputs;
mod outlet;
mod performance;
mod run;
mod transmitter;

pub use event::Event;
pub use inputs::{Install, Source, Stated, stated};
pub use outlet::Outlet;
pub use performance::perform;
pub use run::transmit;
