// A feed of test packets that are computed from their stream and their number.
#![tactic(auto)]

mod feeds;
mod packet;
mod state;

pub use state::PatternFeed;
