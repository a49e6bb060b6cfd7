// A feed that reads its packets out of a station's packet file, in place.
#![tactic(auto)]

mod fault;
mod feeds;
mod records;
mod state;

pub use fault::PacketFileFault;
pub use state::StoredFeed;
