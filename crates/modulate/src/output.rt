// Where a run goes: super-frames to a file, events to standard output.
ghost use Rattle.std.specs.Prelude.{◌≡◌, None};

use anyhow::{Context, anyhow};
use std::fs;
use std::fs::File;
use std::io::Write;
use transmission::{Event, Outlet};

// A file to write, which is made when the run begins, and how many super-frames there are to show progress of.
#[derive(Drop)]
pub struct Output<'r, 'p> {
    rt: &'r HostRuntime,
    path: &'p str,
    out: Option<File>,
    progress: Option<u32>,
}

impl<'r, 'p> Output<'r, 'p> {
    // An output that has not begun.
    pub fn new(rt: &'r HostRuntime, path: &'p str, progress: Option<u32>) -> Output<'r, 'p>
        ensures { (result.path.now ≡ path.now) × (result.out ≡ None) × (result.progress ≡ progress) }
    {
        Output {
            rt,
            path,
            out: None,
            progress,
        }
    }
}

impl Outlet for Output<'_, '_> {
    ghost begins = { λ _ _. Unit {0} };

    ghost sends = { λ _ _ _. Unit {0} };

    ghost hears = { λ _ _ _. Unit {0} };

    fn begin(&mut self) -> anyhow::Result<()> {
        self.out = Some(create(self.rt, self.path)?);
        Ok(())
    }

    fn send(&mut self, bytes: &[u8]) -> anyhow::Result<()> {
        let out = self.out.as_mut().context("no file to write")?;
        out.write_all(bytes)?;
        Ok(())
    }

    fn tell(&mut self, event: Event) -> anyhow::Result<()> {
        self.rt.println(event)?;
        if let (Event::Filled { number, .. }, Some(count)) = (event, self.progress) {
            eprintln!(self.rt; "{number} of {count}")?;
        }
        Ok(())
    }
}

// A new file, or what is wrong with it and which it is.
fn create(rt: &HostRuntime, path: &str) -> anyhow::Result<File> {
    fs::create(rt, path).map_err(|error| anyhow!("{path}: {error}"))
}
