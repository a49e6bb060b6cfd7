// From the syndromes of a word to its errors: a locator, the places where it is zero, and the values there.
#![tactic(auto)]

mod errors;
mod field;
mod polynomial;
mod powers;
mod roots;
mod sequence;
mod values;

pub use errors::Errors;
pub use polynomial::{Locator, Polynomial};
pub use roots::Places;
pub use values::bytes_at;
