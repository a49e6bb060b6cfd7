// Filling super-frames.
ghost use Rattle.std.specs.Prelude.{◌≡◌, ◌*◌, length, OnErr};
ghost use Rattle.frame_layout.specs.Layout.{super_size};
ghost use Rattle.modulator.specs.Fills.{Sent, Filled, Fill, over_streams};
ghost use Rattle.modulator.specs.Runs.{FillContinues};
ghost use Rattle.plan_formats.specs.Kept.{Keeps};

use crate::fault::ModulatorFault;
use crate::state::{Loaded, Tally};
use crate::taking::take_packets;
use feed::{Feed, PACKET_BYTES, STREAMS};
use frame_layout::{FRAMES, super_frame_size};
use plan_formats::Tmcc;
use slot_plan::{MOST_SLOTS, Plan};
use super_frame::write;
use tmcc_word::word;

// The most packets that a super-frame has.
const MOST_PACKETS: usize = FRAMES as usize * MOST_SLOTS as usize;

// How many packets wait in all streams.
fn all_waiting<F: Feed>(feed: &F) -> u32
    ensures { result ≡ over_streams (λ q. length (F.Feed.lists feed.now q)) 8 }
{
    (0..STREAMS as u8)
        .map(|stream| u32::from(feed.waiting(stream)))
        .sum()
}

impl Loaded {
    // Writes a super-frame of the plan that it has into a buffer of its length, over room for its packets.
    fn write<F: Feed>(
        &self,
        plan: &Plan,
        feed: &mut F,
        packets: &mut [[u8; PACKET_BYTES]],
        out: &mut [u8],
    )
        requires kept { Keeps self.now.kept.slots self.now.kept.packed plan.now.fields }
        requires room { length packets.old ≡ 8 * plan.now.fields.slots }
        requires size { length out.old ≡ super_size plan.now.fields.slots }
        ensures { (sent : Sent) × (sent.plan ≡ plan.now.fields) × Filled self.now (F.Feed.lists feed.old) sent out.new (F.Feed.lists feed.new) }
    {
        take_packets(plan, feed, packets);
        let tmcc = word(&Tmcc {
            order: self.order,
            plan: *plan,
        });
        let _ = write(plan, &tmcc, packets.as_flattened(), out);
    }

    // Fills one super-frame with the feed's packets, and counts them.
    pub fn fill<F: Feed>(&self, feed: &mut F, out: &mut [u8]) -> Result<Tally, ModulatorFault>
        ensures fill { Fill self.now (F.Feed.lists feed.old) out.old result out.new (F.Feed.lists feed.new) }
        ensures run { FillContinues self.now (F.Feed.lists feed.old) result out.new (F.Feed.lists feed.new) }
        ensures kept { OnErr result (feed.new ≡ feed.old) }
    {
        let plan = self.kept.plan();
        let slots = plan.slots();
        if out.len() != super_frame_size(slots) {
            return Err(ModulatorFault::Length);
        }
        let before = all_waiting(feed);
        // room for the largest super-frame, since no memory is allocated; this plan's packets take its first part
        let mut room = [[0; PACKET_BYTES]; MOST_PACKETS];
        let packets = &mut room[..FRAMES as usize * slots as usize];
        self.write(&plan, feed, packets, out);
        let placed = before - all_waiting(feed);
        let active = u32::from(FRAMES) * u32::from(plan.active_slots());
        Ok(Tally {
            placed,
            nulls: active.saturating_sub(placed),
        })
    }
}
