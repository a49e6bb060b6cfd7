// Bytes as hexadecimal digits, two to a byte and the high one first: writing them, and reading them.
#![tactic(auto)]

mod read;
mod shown;
#[cfg(test)]
mod tests;

pub use read::HexText;
pub use shown::Hex;
