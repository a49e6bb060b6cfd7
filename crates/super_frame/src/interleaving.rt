// The blocks of a super-frame's slots, interleaved where they stand.
ghost use Rattle.std.specs.Prelude.{◌≡◌, ℕ, ◌<◌, ◌≢◌, length};
ghost use Rattle.frame_layout.specs.Layout.{super_size};
ghost use Rattle.super_frame.specs.Parts.{SameHeads, SameSlot, InterleavedSlot};

use crate::frames::Frames;
use crate::parts::scatter;
use interleaver::interleave;

// Interleaves the block whose rows are the parts of a slot.
fn interleave_slot(bytes: &mut [u8], slots: u8, slot: u8)
    requires { (length bytes.old ≡ super_size slots) × (slot < slots) }
    ensures here { InterleavedSlot slots bytes.old bytes.new slot }
    ensures heads { SameHeads slots bytes.old bytes.new }
    ensures others { (other : ℕ) → other < slots → other ≢ slot → SameSlot slots bytes.old bytes.new other }
{
    let mut block = [0; 1624];
    let mut sent = [0; 1624];
    let frames = Frames {
        slots,
        elements: bytes,
    };
    frames.gather(slot, &mut block);
    let _ = interleave(&block, &mut sent);
    scatter(&sent, bytes, slots, slot);
}

// Interleaves the blocks of all slots.
pub fn interleave_slots(bytes: &mut [u8], slots: u8)
    requires { length bytes.old ≡ super_size slots }
    ensures slots { (slot : ℕ) → slot < slots → InterleavedSlot slots bytes.old bytes.new slot }
    ensures heads { SameHeads slots bytes.old bytes.new }
{
    for slot in 0..slots {
        interleave_slot(bytes, slots, slot);
    }
}
