// The packets of a case: those of the pattern, numbered over the active slots.
ghost use Rattle.std.specs.Prelude.{◌≡◌, ◌+◌, ◌*◌, ◌/◌, ◌%◌, ◌∷◌, IfOk, length, replicate, vec_items};

use slot_plan::{Plan, Role};
use std::alloc::{AllocError, Global};

// How many bytes a packet has.
const PACKET: usize = 188;

// How many frames a super-frame has.
const FRAMES: usize = 8;

// A packet of the pattern: its stream's number and its own in the first six bytes, and its low byte in the others.
fn pattern(stream: u8, number: u16) -> [u8; PACKET]
    ensures { result ≡ 0x47 ∷ 0x01 ∷ stream ∷ (0x10 + number % 16) ∷ number / 256 ∷ number % 256 ∷ replicate 182 (number % 256) }
{
    let [high, low] = number.to_be_bytes();
    let mut packet = [low; PACKET];
    packet[..6].copy_from_slice(&[0x47, 0x01, stream, 0x10 + low % 16, high, low]);
    packet
}

// The packets of all slots of eight frames, ordered by frame, then slot; zeros where a slot is a dummy slot.
pub(crate) fn packets(heap: Global, plan: &Plan, start: u16) -> Result<Vec<u8>, AllocError>
    ensures { IfOk result (λ v. length (vec_items v) ≡ 8 * (plan.now.fields.slots * 188)) }
{
    let mut all = Vec::new(heap);
    let mut number = start;
    for _ in 0..FRAMES {
        for slot in 1..=plan.slots() {
            match plan.slot(slot) {
                Some(told) if told.role == Role::Active => {
                    all.extend_from_slice(&pattern(told.stream, number))?;
                    number = number.wrapping_add(1);
                }
                _ => all.extend_from_slice(&[0; PACKET])?,
            }
        }
    }
    Ok(all)
}
