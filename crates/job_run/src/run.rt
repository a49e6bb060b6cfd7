// The run of a job.
ghost use Rattle.job_run.specs.Readings.{Ran};
ghost use Rattle.std.specs.Prelude.{OnOk};

use crate::files::{lend, read_file, read_installs, read_packets};
use modulate_job::Job;
use transmission::{Outlet, perform, stated};

// Reads all files that a job names, and then makes its run.
pub fn run_job<O: Outlet>(rt: &HostRuntime, job: &Job<'_>, outlet: &mut O) -> anyhow::Result<()>
    ensures { OnOk result (Ran O.Outlet.begins O.Outlet.sends O.Outlet.hears job.now outlet.old outlet.new) }
{
    let plan = read_file(rt, job.plan)?;
    let packets = read_packets(rt, job.packets)?;
    let installs = read_installs(rt, job.changes.as_slice())?;
    perform(
        rt.alloc(),
        stated(plan.as_slice()),
        lend(&packets),
        installs.as_slice(),
        job.count,
        outlet,
    )
}
