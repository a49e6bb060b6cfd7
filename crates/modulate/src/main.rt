// Turns a slot plan and packets into super-frames on disk.
#![tactic(auto)]

mod output;

use job_run::run_job;
use modulate_job::{Job, Words};
use output::Output;
use std::env;

// How the program is called.
const USAGE: &str =
    "usage: modulate [--progress] PLAN PACKETS COUNT OUT [AT PLAN2]...\nPACKETS is a packet file, or pattern: and eight counts with commas between them; PLAN2 is installed before super-frame AT";

fn main(rt: HostRuntime) -> anyhow::Result<()> {
    let result = run(&rt);
    if result.is_err() {
        eprintln!(rt; "{USAGE}")?;
    }
    result
}

// Makes the run of a job.
fn send(rt: &HostRuntime, job: &Job<'_>, progress: bool) -> anyhow::Result<()> {
    let mut output = Output::new(rt, job.out, progress.then_some(job.count));
    run_job(rt, job, &mut output)
}

// The words of the command line behind the program's own name.
fn arguments(rt: &HostRuntime) -> anyhow::Result<Vec<String>> {
    Ok(env::args(rt)?.skip(1).collect(rt.alloc())?)
}

// Does what the command line asks for.
fn run(rt: &HostRuntime) -> anyhow::Result<()> {
    let words = Words::sorted(rt.alloc(), arguments(rt)?.as_slice())?;
    let job = Job::of(rt.alloc(), words.asked.as_slice())?;
    send(rt, &job, words.progress)
}
