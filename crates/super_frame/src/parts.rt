// The eight parts of a slot, one in each frame, and the block that they make.
ghost use Rattle.std.specs.Prelude.{◌≡◌, ℕ, ◌+◌, ◌<◌, ◌≤◌, ◌≢◌, length};
ghost use Rattle.frame_layout.specs.Layout.{super_size};
ghost use Rattle.super_frame.specs.Parts.{part, Copied, Gathered, SameHeads, SameSlot};

use frame_layout::{FRAMES, HEAD, PART, frame_size};
use interleaver::Element;

// Where a slot's part of a frame begins. Frame and slot are two numbers, since a caller counts one of them itself and is given the other: a struct
// of both would be made for this call alone.
pub(crate) fn part_start(slots: u8, frame: u8, slot: u8) -> usize
    ensures { result ≡ part slots frame slot }
{
    usize::from(frame) * frame_size(slots) + (HEAD + PART * usize::from(slot))
}

// Copies as many elements as a part has from one place to another.
pub(crate) fn copy_part<T: Element>(from: &[T], at: usize, into: &mut [T], to: usize)
    requires { (at + 203 ≤ length from.now) × (to + 203 ≤ length into.old) }
    ensures { Copied T.Element.idle from.now at into.old to into.new }
{
    into[to..to + PART].copy_from_slice(&from[at..at + PART]);
}

// Puts the rows of a block back as the parts of a slot. A buffer that is written stands beside its slots, here and in the other calls that write,
// and not in a struct as `Frames` is: each method that takes such a struct by `&mut` would have to ensure that the slots and the reference in it
// stay the same, two facts in place of the one on the length.
pub(crate) fn scatter(block: &[u8; 1624], bytes: &mut [u8], slots: u8, slot: u8)
    requires { (length bytes.old ≡ super_size slots) × (slot < slots) }
    ensures here { Gathered 0 slots slot bytes.new block.now }
    ensures heads { SameHeads slots bytes.old bytes.new }
    ensures others { (other : ℕ) → other < slots → other ≢ slot → SameSlot slots bytes.old bytes.new other }
{
    for frame in 0..FRAMES {
        copy_part(
            block,
            PART * usize::from(frame),
            bytes,
            part_start(slots, frame, slot),
        );
    }
}
