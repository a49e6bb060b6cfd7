// A whole run, and what it comes to.
ghost use Rattle.std.specs.Prelude.{◌≡◌, ℕ, ◌-◌, ◌<◌, List, length, OnOk, slice_index};
ghost use Rattle.transmission.specs.declared.event.Event.TheVariants.{Total};
ghost use Rattle.transmission.specs.Courses.{Course, HearsOn};
ghost use Rattle.transmission.specs.Transmissions.{Transmitted, WholeRun};

use crate::event::Event;
use crate::inputs::Install;
use crate::outlet::Outlet;
use crate::transmitter::Transmitter;
use feed::{Feed, STREAMS};
use slot_plan::Plan;
use std::alloc::Global;
use std::array;

// How many packets of each stream wait.
fn waiting<F: Feed>(feed: &F) -> [u16; STREAMS]
    ensures size { length result ≡ 8 }
    ensures counts { (k : ℕ) → k < 8 → slice_index result k ≡ length (F.Feed.lists feed.now k) }
{
    array::from_fn(|stream| feed.waiting(stream as u8))
}

// What was placed of a stream of which so many packets waited, and what waits now.
fn total<F: Feed>(stream: u8, before: u16, feed: &F) -> Event
    ensures { result ≡ Total stream (before - length (F.Feed.lists feed.now stream)) (length (F.Feed.lists feed.now stream)) }
{
    let waiting = feed.waiting(stream);
    Event::Total {
        stream,
        placed: before.saturating_sub(waiting),
        waiting,
    }
}

// Tells what was placed of each stream, and what waits.
fn tell_totals<F: Feed, O: Outlet>(
    before: &[u16; STREAMS],
    feed: &F,
    outlet: &mut O,
) -> anyhow::Result<()>
    ensures { OnOk result (HearsOn O.Outlet.sends O.Outlet.hears outlet.old outlet.new) }
{
    for (stream, count) in before.iter().enumerate() {
        outlet.tell(total(stream as u8, *count, feed))?;
    }
    Ok(())
}

// Loads the plan, sends so many super-frames with the installs in between, and tells what came of it.
pub fn transmit<F: Feed, O: Outlet>(
    heap: Global,
    plan: &Plan,
    installs: &[Install],
    count: u32,
    feed: &mut F,
    outlet: &mut O,
) -> anyhow::Result<()>
    ensures run { OnOk result ((frames : List (List ℕ)) × Transmitted plan.now.fields installs.now count (F.Feed.lists feed.old) (F.Feed.lists feed.new) frames × Course O.Outlet.sends O.Outlet.hears outlet.old outlet.new frames) }
    ensures whole { OnOk result (WholeRun count (F.Feed.lists feed.old) (F.Feed.lists feed.new)) }
{
    let before = waiting(feed);
    Transmitter::new(heap, plan)?.send_all(installs, count, feed, outlet)?;
    tell_totals(&before, feed, outlet)
}
