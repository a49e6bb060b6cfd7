// The modulator: bare until it is loaded with a plan, and then it fills super-frames.
#![tactic(auto)]

mod fault;
mod filling;
mod loading;
mod packets;
mod state;
mod taking;
mod telling;

pub use fault::ModulatorFault;
pub use packets::null_packet;
pub use state::{Bare, Loaded, Tally, Unloaded};
