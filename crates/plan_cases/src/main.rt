// Holds the library to stored cases whose answers come from elsewhere.
#![tactic(auto)]

mod hex;
mod plans;
mod tmcc;
mod verdict;

use plans::plan_case;
use std::alloc::{AllocError, Global};
use std::fs;
use tmcc::{data_case, read_case};

// How many cases were tried, and how many of them the library does not agree with.
#[derive(Clone, Copy, Default)]
struct Tally {
    cases: u32,
    disagree: u32,
}

// Tries the cases of a file, and prints each that the library does not agree with.
fn try_file<F: Fn(Global, &str) -> Result<bool, AllocError>>(
    rt: &HostRuntime,
    name: &str,
    agrees: F,
    tally: &mut Tally,
) -> anyhow::Result<()>
    requires { F.IsAlwaysCallable agrees }
{
    let text = fs::read_to_string(rt, name)?;
    for case in text.as_str().lines() {
        tally.cases = tally.cases.saturating_add(1);
        if !agrees(rt.alloc(), case)? {
            tally.disagree = tally.disagree.saturating_add(1);
            println!(rt; "{name}: {case}")?;
        }
    }
    Ok(())
}

// Tries all cases.
fn run(rt: &HostRuntime) -> anyhow::Result<()> {
    let mut tally = Tally::default();
    try_file(rt, "plans.txt", plan_case, &mut tally)?;
    try_file(rt, "tmcc_data.txt", data_case, &mut tally)?;
    try_file(rt, "tmcc_read.txt", read_case, &mut tally)?;
    println!(rt; "{} cases, {} disagree", tally.cases, tally.disagree)?;
    Ok(())
}

fn main(rt: HostRuntime) -> anyhow::Result<()> {
    run(&rt)
}
