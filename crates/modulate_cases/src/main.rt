// Replays stored runs of the modulator, whose outcomes come from outside code, and counts those that agree.
#![tactic(auto)]

mod replay;

use anyhow::Context;
use job_run::run_job;
use modulate_job::Job;
use replay::Replay;
use std::alloc::{AllocError, Global};
use std::fs;

// What stands for the outcome of a call that ends with status 1.
const FAILED: &str = "STATUS 1";

// How many runs were made, and how many of them agree.
#[derive(Clone, Copy)]
struct Tally {
    runs: u32,
    agree: u32,
}

// The words of a call behind the program's name.
fn words(heap: Global, call: &str) -> Result<Vec<String>, AllocError> {
    call.split(' ')
        .skip(1)
        .map(|word| String::from_str(heap, word))
        .try_collect(heap)
}

// What is told of a call's run, with the digests of its super-frames.
fn replayed(rt: &HostRuntime, call: &str) -> anyhow::Result<String> {
    let words = words(rt.alloc(), call)?;
    let job = Job::of(rt.alloc(), words.as_slice())?;
    let mut replay = Replay::new(rt.alloc());
    run_job(rt, &job, &mut replay)?;
    Ok(replay.told)
}

// The outcome of a call, line by line.
fn outcome(rt: &HostRuntime, call: &str) -> Result<String, AllocError> {
    replayed(rt, call).or_else(|_| String::from_str(rt.alloc(), FAILED))
}

// Makes each run, and prints what differs.
fn run(rt: &HostRuntime) -> anyhow::Result<()> {
    let text = fs::read_to_string(rt, "runs.txt")?;
    let mut tally = Tally { runs: 0, agree: 0 };
    for case in text.as_str().trim_end().split("\n\n") {
        let (call, expected) = case.split_once('\n').context("a run without an outcome")?;
        let found = outcome(rt, call)?;
        tally.runs = tally.runs.saturating_add(1);
        if found.as_str() == expected {
            tally.agree = tally.agree.saturating_add(1);
        } else {
            println!(rt; "{call}\n{found}")?;
        }
    }
    let runs = tally.runs;
    let agree = tally.agree;
    println!(rt; "{agree} of {runs} runs agree")?;
    Ok(())
}

fn main(rt: HostRuntime) -> anyhow::Result<()> {
    run(&rt)
}
