// The layout of a super-frame: its lengths, its bytes by place, and its frame marks.
#![tactic(auto)]

mod lengths;
mod marks;

pub use lengths::{FRAMES, HEAD, PART, frame_size, super_frame_size};
pub use marks::{W1, W2, W3, is_exact, is_held, own_word, remains};
