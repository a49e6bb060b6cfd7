// Digests of bytes, by which stored cases name long outcomes.
#![tactic(auto)]

mod crc;
mod fnv;

pub use crc::crc32;
pub use fnv::fnv1a;
