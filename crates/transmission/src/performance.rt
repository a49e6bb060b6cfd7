// A run from what was read to its end.
ghost use Rattle.std.specs.Prelude.{OnOk};
ghost use Rattle.transmission.specs.Performances.{Performed};

use crate::event::Event;
use crate::inputs::{Install, Source, Stated};
use crate::outlet::Outlet;
use crate::run::transmit;
use pattern_feed::PatternFeed;
use std::alloc::Global;
use stored_feed::StoredFeed;

// Makes a run out of what a plan file and a source of packets state. Where one of them is refused, that is told and nothing is sent.
pub fn perform<O: Outlet>(
    heap: Global,
    stated: Stated,
    source: Source<'_>,
    installs: &[Install],
    count: u32,
    outlet: &mut O,
) -> anyhow::Result<()>
    ensures { OnOk result (Performed O.Outlet.begins O.Outlet.sends O.Outlet.hears stated source.entry installs.now count outlet.old outlet.new) }
{
    let plan = match stated {
        Ok(plan) => plan,
        Err(refusal) => return outlet.tell(Event::PlanRefused { refusal }),
    };
    match source {
        Source::Pattern(counts) => {
            outlet.begin()?;
            let mut feed = PatternFeed::new(counts);
            transmit(heap, &plan, installs, count, &mut feed, outlet)
        }
        Source::File(file) => {
            let mut feed = match StoredFeed::open(file) {
                Ok(feed) => feed,
                Err(fault) => {
                    return outlet.tell(Event::PacketsRefused {
                        refusal: fault.number(),
                    });
                }
            };
            outlet.begin()?;
            transmit(heap, &plan, installs, count, &mut feed, outlet)
        }
    }
}
