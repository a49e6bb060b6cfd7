// Where a run goes.
ghost use Rattle.std.specs.Prelude.{ℕ, List, OnOk};
ghost use Rattle.transmission.specs.declared.event.Event.{Event};

use crate::event::Event;

// What takes the super-frames of a run and is told its events.
pub trait Outlet {
    // What making ready does to the outlet's state.
    ghost begins: { Self → Self → Type 0 };

    // What a send of bytes does to it.
    ghost sends: { Self → List ℕ → Self → Type 0 };

    // What a told event does to it.
    ghost hears: { Self → Event → Self → Type 0 };

    // Makes ready for super-frames.
    fn begin(&mut self) -> anyhow::Result<()>
        ensures { OnOk result (begins self.old self.new) };

    // Takes the bytes of a super-frame.
    fn send(&mut self, bytes: &[u8]) -> anyhow::Result<()>
        ensures { OnOk result (sends self.old bytes.now self.new) };

    // Is told what happened.
    fn tell(&mut self, event: Event) -> anyhow::Result<()>
        ensures { OnOk result (hears self.old event self.new) };
}
