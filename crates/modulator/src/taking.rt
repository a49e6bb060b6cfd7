// The packets of a super-frame, taken from a feed frame by frame and slot by slot.
ghost use Rattle.std.specs.Prelude.{◌≡◌, ℕ, ◌*◌, ◌<◌, ◌≤◌, [], length, slice_index_or};
ghost use Rattle.modulator.specs.Progress.{NextPacket, TakenUpTo};

use crate::packets::next_packet;
use feed::{Feed, PACKET_BYTES};
use slot_plan::{Plan, Role};

// Takes the packet of a slot, by its number from 1, if the slot is active.
fn take_slot<F: Feed>(plan: &Plan, slot: u8, feed: &mut F, packet: &mut [u8; PACKET_BYTES])
    requires { (1 ≤ slot) × (slot ≤ plan.now.fields.slots) }
    ensures taken { NextPacket plan.now.fields slot (F.Feed.lists feed.old) packet.new (F.Feed.lists feed.new) }
    ensures size { length packet.new ≡ 188 }
{
    if let Some(told) = plan.slot(slot)
        && told.role == Role::Active
    {
        *packet = next_packet(feed, told.stream);
    }
}

// Takes the packets of all frames. What stands in the place of a dummy slot's packet stays.
pub(crate) fn take_packets<F: Feed>(plan: &Plan, feed: &mut F, packets: &mut [[u8; PACKET_BYTES]])
    requires { length packets.old ≡ 8 * plan.now.fields.slots }
    ensures taken { TakenUpTo plan.now.fields (F.Feed.lists feed.old) 8 0 (F.Feed.lists feed.new) packets.new }
    ensures rows { (k : ℕ) → k < length packets.new → length (slice_index_or packets.new k []) ≡ 188 }
{
    let slots = plan.slots() as usize;
    for (place, packet) in packets.iter_mut().enumerate() {
        let slot = (place % slots) as u8 + 1;
        take_slot(plan, slot, feed, packet);
    }
}
