// The listing of a plan file, for whoever wants to read one.
#![tactic(auto)]

mod lines;
mod listing;

pub use listing::list_file;
