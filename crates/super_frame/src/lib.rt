// The bytes of a super-frame, written and taken apart.
#![tactic(auto)]

mod finishing;
mod frames;
mod heads;
mod interleaving;
mod parts;
mod put;
mod reading;
mod taking;
mod words;
mod writing;

pub use finishing::finish;
pub use heads::{frame_heads, write_heads};
pub use interleaving::interleave_slots;
pub use put::put_word;
pub use reading::read;
pub use taking::{take_marks, words_size};
pub use writing::write;
