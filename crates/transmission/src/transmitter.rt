// A transmitter, which goes from super-frame to super-frame.
ghost use Rattle.std.specs.Prelude.{◌≡◌, ℕ, List, [], OnOk, IfOk, vec_len};
ghost use Rattle.feed.specs.Packets.{Lists};
ghost use Rattle.frame_layout.specs.Layout.{super_size};
ghost use Rattle.modulator.specs.Runs.{Run};
ghost use Rattle.slot_plan.specs.declared.fields.Fields.{Fields};
ghost use Rattle.transmission.specs.declared.event.Event.TheVariants.{Filled};
ghost use Rattle.transmission.specs.Courses.{Course, HearsOn, SendsOn};
ghost use Rattle.transmission.specs.Plans.{OnAir, loaded, installed, install_told, due};
ghost use Rattle.transmission.specs.Transmissions.{Airs, Continues, FillsOn, Reached, GoesOn};

use crate::event::Event;
use crate::inputs::{Install, Stated};
use crate::outlet::Outlet;
use feed::Feed;
use frame_layout::super_frame_size;
use modulator::{Bare, Loaded, ModulatorFault, Tally};
use slot_plan::Plan;
use std::alloc::{AllocError, Global};

// A modulator that is loaded with the plan.
fn load(plan: &Plan) -> Loaded
    ensures state { Airs result (loaded plan.now.fields) }
    ensures run { (start : Lists) → Run start result start [] }
{
    let Ok(bare) = Bare::new(plan.slots()) else {
        unreachable()
    };
    let Ok(modulator) = bare.load(plan) else {
        unreachable()
    };
    modulator
}

// A modulator that has a plan, and room for one of its super-frames.
#[derive(Drop)]
pub(crate) struct Transmitter {
    modulator: Loaded,
    frame: Vec<u8>,
    ghost room: { vec_len frame ≡ super_size modulator.kept.slots },
}

impl Transmitter {
    // One that is loaded with the plan.
    pub(crate) fn new(heap: Global, plan: &Plan) -> Result<Transmitter, AllocError>
        ensures state { IfOk result (λ t. Airs t.modulator (loaded plan.now.fields)) }
        ensures run { IfOk result (λ t. (start : Lists) → Run start t.modulator start []) }
    {
        Ok(Transmitter {
            modulator: load(plan),
            frame: vec![in heap; 0; super_frame_size(plan.slots())]?,
        })
    }

    // Installs what a plan file states before a super-frame, and says what came of it.
    fn install(&mut self, stated: Stated, number: u32) -> Event
        ensures event { (a : OnAir) → Airs self.old.modulator a → result ≡ install_told number a stated }
        ensures state { (a : OnAir) → Airs self.old.modulator a → Airs self.new.modulator (installed a stated) }
        ensures run { Continues self.old.modulator self.new.modulator }
    {
        let outcome = match stated {
            Ok(plan) => self
                .modulator
                .install(&plan)
                .map_err(ModulatorFault::number),
            Err(refusal) => Err(refusal),
        };
        match outcome {
            Ok(()) => Event::Installed {
                number,
                order: self.modulator.order().value(),
            },
            Err(refusal) => Event::Refused { number, refusal },
        }
    }

    // Makes the installs that come before a super-frame.
    fn install_due<O: Outlet>(
        &mut self,
        installs: &[Install],
        number: u32,
        outlet: &mut O,
    ) -> anyhow::Result<()>
        ensures state { OnOk result ((a : OnAir) → Airs self.old.modulator a → Airs self.new.modulator (due number installs.now a)) }
        ensures run { Continues self.old.modulator self.new.modulator }
        ensures course { OnOk result (HearsOn O.Outlet.sends O.Outlet.hears outlet.old outlet.new) }
    {
        for next in installs {
            if next.at == number {
                outlet.tell(self.install(next.plan, number))?;
            }
        }
        Ok(())
    }

    // What is told of a super-frame that was filled.
    fn filled(&self, number: u32, tally: Tally) -> Event
        ensures { result ≡ Filled number self.now.modulator.order.value tally.placed tally.nulls }
    {
        Event::Filled {
            number,
            order: self.modulator.order().value(),
            placed: tally.placed,
            nulls: tally.nulls,
        }
    }

    // Fills one super-frame and sends it.
    fn send<F: Feed, O: Outlet>(
        &mut self,
        number: u32,
        feed: &mut F,
        outlet: &mut O,
    ) -> anyhow::Result<()>
        ensures fills { OnOk result ((bytes : List ℕ) × ((a : OnAir) → Airs self.old.modulator a → FillsOn a self.old.modulator (F.Feed.lists feed.old) bytes (F.Feed.lists feed.new)) × SendsOn O.Outlet.sends O.Outlet.hears outlet.old bytes outlet.new) }
        ensures goes_on { OnOk result (GoesOn 1 self.old.modulator (F.Feed.lists feed.old) self.old.modulator (F.Feed.lists feed.new)) }
        ensures kept { self.new.modulator ≡ self.old.modulator }
    {
        let frame = self.frame.as_mut_slice();
        let Ok(tally) = self.modulator.fill(feed, frame) else {
            unreachable()
        };
        outlet.send(frame)?;
        outlet.tell(self.filled(number, tally))
    }

    // Sends so many super-frames, with the installs in between.
    pub(crate) fn send_all<F: Feed, O: Outlet>(
        &mut self,
        installs: &[Install],
        count: u32,
        feed: &mut F,
        outlet: &mut O,
    ) -> anyhow::Result<()>
        ensures reached { OnOk result ((p : Fields) (start : Lists) → Reached p installs.now start 0 self.old.modulator (F.Feed.lists feed.old) [] → (frames : List (List ℕ)) × Reached p installs.now start count self.new.modulator (F.Feed.lists feed.new) frames × Course O.Outlet.sends O.Outlet.hears outlet.old outlet.new frames) }
        ensures goes_on { OnOk result (GoesOn count self.old.modulator (F.Feed.lists feed.old) self.new.modulator (F.Feed.lists feed.new)) }
    {
        for number in 1..=count {
            self.install_due(installs, number, outlet)?;
            self.send(number, feed, outlet)?;
        }
        Ok(())
    }
}
