// The interleaver of a slot's block and its inverse, for every kind of element that names a rest element.
#![tactic(auto)]

mod blocks;
mod calls;
mod cell;
mod element;
#[cfg(test)]
mod tests;
mod trust;

pub use blocks::WrongLength;
pub use calls::{deinterleave, interleave};
pub use cell::Cell;
pub use element::Element;
pub use trust::TrustMark;
