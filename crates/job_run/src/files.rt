// The files that a job names.
ghost use Rattle.job_run.specs.Readings.{Chosen, Installs, Read, held};
ghost use Rattle.run_inputs.specs.declared.source.Source.{Source};
ghost use Rattle.std.specs.Prelude.{IfOk, List, ℕ};
ghost use denote.Ref.{Bor};

use anyhow::anyhow;
use modulate_job::{Change, Packets};
use run_inputs::Source;
use std::fs;
use transmission::{Install, stated};

// The bytes of a file, or what is wrong with it and which it is.
pub(crate) fn read_file(rt: &HostRuntime, path: &str) -> anyhow::Result<Vec<u8>> {
    fs::read(rt, path).map_err(|error| anyhow!("{path}: {error}"))
}

// Where the packets come from, with the bytes of a packet file.
pub(crate) fn read_packets(
    rt: &HostRuntime,
    packets: Packets<'_>,
) -> anyhow::Result<Source<Vec<u8>>>
    ensures { IfOk result (λ source. Read packets.entry source) }
{
    match packets {
        Packets::File(path) => Ok(Source::File(read_file(rt, path)?)),
        Packets::Pattern(counts) => Ok(Source::Pattern(counts)),
    }
}

// The same, with the bytes lent.
pub(crate) fn lend(packets: &Source<Vec<u8>>) -> transmission::Source<'_>
    ensures { (asked : Source (Bor (List ℕ))) → Read asked packets.now → Chosen asked (held packets.now) result }
{
    match packets {
        Source::File(bytes) => Source::File(bytes.as_slice()),
        Source::Pattern(counts) => Source::Pattern(*counts),
    }
}

// The plans to install.
pub(crate) fn read_installs(
    rt: &HostRuntime,
    changes: &[Change<'_>],
) -> anyhow::Result<Vec<Install>>
    ensures { IfOk result (λ v. Installs changes.now v.items) }
{
    let mut installs = Vec::new(rt.alloc());
    for change in changes {
        let file = read_file(rt, change.plan)?;
        installs.push(Install {
            at: change.at,
            plan: stated(file.as_slice()),
        })?;
    }
    Ok(installs)
}
