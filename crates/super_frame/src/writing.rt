// A whole super-frame written.
ghost use Rattle.std.specs.Prelude.{◌≡◌, ℕ, ◌+◌, ◌<◌, List, length, MatchResult, OnOk};
ghost use Rattle.frame_layout.specs.Layout.{super_size, SuperFrame};
ghost use Rattle.super_frame.specs.Carried.{AllCarried, Fits, Written};
ghost use Rattle.super_frame.specs.Progress.{FramePackets, Begun};

use crate::finishing::finish;
use crate::put::put_word;
use crate::words::{PACKET, carried};
use dispersal::Sequence;
use frame_layout::{FRAMES, super_frame_size};
use interleaver::WrongLength;
use slot_plan::Plan;

// Puts the words of a frame, counted from 0, into their parts.
fn put_frame(
    plan: &Plan,
    packets: &[[u8; PACKET]],
    frame: u8,
    out: &mut [u8],
    sequence: &mut Sequence,
)
    requires { (length packets.now ≡ plan.now.fields.slots) × (length out.old ≡ super_size plan.now.fields.slots) × (frame < 8) }
    ensures { (all : List ℕ) → FramePackets plan.now.fields.slots all frame packets.now → Begun plan.now.fields all frame 0 sequence.old.window out.old → Begun plan.now.fields all (frame + 1) 0 sequence.new.window out.new }
{
    let slots = plan.slots();
    for (slot, packet) in (0..slots).zip(packets) {
        let word = carried(plan, slot + 1, packet);
        put_word(out, sequence, slots, frame, slot, &word);
    }
}

// Writes a super-frame that carries packets, joined frame by frame and slot by slot, in the plan's active slots. What stands in the place of a
// dummy slot's packet is not read.
pub fn write(
    plan: &Plan,
    tmcc: &[u8; 64],
    packets: &[u8],
    out: &mut [u8],
) -> Result<(), WrongLength>
    ensures written { MatchResult result (λ _. Fits plan.now.fields packets.now out.old × Written plan.now.fields tmcc.now packets.now out.new) (λ _. (Fits plan.now.fields packets.now out.old → ⊥) × (out.new ≡ out.old)) }
    ensures every { OnOk result ((words : ℕ → ℕ → List ℕ) → AllCarried plan.now.fields packets.now words → SuperFrame plan.now.fields.slots tmcc.now words out.new) }
{
    let slots = plan.slots();
    if packets.len() != PACKET * (FRAMES as usize * usize::from(slots))
        || out.len() != super_frame_size(slots)
    {
        return Err(WrongLength);
    }
    let mut sequence = Sequence::new();
    let (packets, _) = packets.as_chunks::<PACKET>();
    for (frame, packets) in (0..FRAMES).zip(packets.chunks_exact(usize::from(slots))) {
        put_frame(plan, packets, frame, out, &mut sequence);
    }
    finish(out, slots, tmcc);
    Ok(())
}
