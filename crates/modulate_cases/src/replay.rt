// A run that is kept as text.
ghost use Rattle.std.specs.Prelude.{◌≡◌, [], None, Some, string_bytes};
ghost use Rattle.digests.specs.Digests.{crc, fnv};

use digests::{crc32, fnv1a};
use std::alloc::Global;
use std::fmt::Write;
use transmission::{Event, Outlet};

// The digests of a super-frame's bytes.
#[derive(Clone, Copy)]
struct Digests {
    crc: u32,
    hash: u64,
}

// What was told, each event on a line of its own; behind a super-frame's stand the digests of its bytes.
#[derive(Drop)]
pub struct Replay {
    pub told: String,
    sent: Option<Digests>,
}

impl Replay {
    // Nothing is told yet.
    pub fn new(heap: Global) -> Replay
        ensures { (string_bytes result.told ≡ []) × (result.sent ≡ None) }
    {
        Replay {
            told: String::new(heap),
            sent: None,
        }
    }
}

impl Outlet for Replay {
    ghost begins = { λ s t. t ≡ s };

    ghost sends = { λ s bytes t. (t.sent ≡ Some (record { crc = crc bytes; hash = fnv bytes })) × (t.told ≡ s.told) };

    ghost hears = { λ s _ t. t.sent ≡ s.sent };

    fn begin(&mut self) -> anyhow::Result<()> {
        Ok(())
    }

    fn send(&mut self, bytes: &[u8]) -> anyhow::Result<()> {
        self.sent = Some(Digests {
            crc: crc32(bytes),
            hash: fnv1a(bytes),
        });
        Ok(())
    }

    fn tell(&mut self, event: Event) -> anyhow::Result<()> {
        if !self.told.is_empty() {
            self.told.push('\n')?;
        }
        write!(self.told, "{event}")?;
        if let (Event::Filled { .. }, Some(digests)) = (event, self.sent) {
            write!(self.told, " {:08X} {:016X}", digests.crc, digests.hash)?;
        }
        Ok(())
    }
}
