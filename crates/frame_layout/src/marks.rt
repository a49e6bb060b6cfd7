// Frame marks in a received stream.
ghost use Rattle.std.specs.Prelude.{◌≡◌, ◌+◌, ◌<◌, ◌≤◌, length, take, drop, Decides, MatchOption};
ghost use Rattle.frame_layout.specs.Layout.{frame_size, super_size, own};
ghost use Rattle.frame_layout.specs.Marks.{stands, marked, whole_up_to, Remains, Exact, Held};

use crate::lengths::{FRAMES, frame_size, super_frame_size};

// The sync words: W1 begins a frame, and W2 or W3 ends its head.
pub const W1: u16 = 0x1B95;

pub const W2: u16 = 0xA340;

pub const W3: u16 = 0x5CBF;

// How far the second sync word stands from the first.
const SECOND: usize = 10;

// How many frame marks a super-frame has, and how many of them are whole at least in a head that is held.
const MARKS: usize = FRAMES as usize;

const HELD: usize = MARKS - 1;

// The sync word that ends the head of a frame from 1 to 8.
pub fn own_word(frame: u8) -> u16
    ensures { result ≡ own frame }
{
    if frame == FIRST { W2 } else { W3 }
}

// The frame whose head ends with W2.
const FIRST: u8 = 1;

// Whether a sync word stands at a place of some frames.
fn stands(frames: &[u8], place: usize, word: u16) -> bool
    requires { place + 2 ≤ length frames.now }
    ensures { result ≡ stands frames.now place word }
{
    u16::from_be_bytes([frames[place], frames[place + 1]]) == word
}

// Whether W1 and this second sync word make a frame mark at a place of some frames.
fn marked(frames: &[u8], place: usize, word: u16) -> bool
    requires { place + 12 ≤ length frames.now }
    ensures { result ≡ marked frames.now place word }
{
    stands(frames, place, W1) && stands(frames, place + SECOND, word)
}

// How many of the eight frames have their own marks.
fn whole_marks(frames: &[u8], slots: u8) -> usize
    requires { length frames.now ≡ super_size slots }
    ensures { result ≡ whole_up_to slots frames.now 0 8 }
{
    // Not by `chunks_exact`, which divides at each call, nor by `filter` and `count`: 260 and 160 instructions for a head, and 80 so.
    let size = frame_size(slots);
    (0..FRAMES)
        .map(|index| usize::from(marked(frames, usize::from(index) * size, own_word(index + 1))))
        .sum()
}

// The bytes of a super-frame from a place of a stream on, where so many remain.
fn frames_at(stream: &[u8], place: usize, slots: u8) -> Option<&[u8]>
    ensures { MatchOption result (Remains slots stream.now place → ⊥) (λ frames. Remains slots stream.now place × (frames.now ≡ take (super_size slots) (drop place stream.now))) }
{
    stream.get(place..)?.get(..super_frame_size(slots))
}

// Whether a super-frame's bytes remain from a place on.
pub fn remains(stream: &[u8], place: usize, slots: u8) -> bool
    ensures { Decides result (Remains slots stream.now place) }
{
    frames_at(stream, place, slots).is_some()
}

// Whether an exact head stands at a place.
pub fn is_exact(stream: &[u8], place: usize, slots: u8) -> bool
    ensures { Decides result (Exact slots stream.now place) }
{
    frames_at(stream, place, slots).is_some_and(|frames| whole_marks(frames, slots) == MARKS)
}

// Whether a head is held at a place: at most one of its marks is harmed.
pub fn is_held(stream: &[u8], place: usize, slots: u8) -> bool
    ensures { Decides result (Held slots stream.now place) }
{
    frames_at(stream, place, slots).is_some_and(|frames| whole_marks(frames, slots) >= HELD)
}
