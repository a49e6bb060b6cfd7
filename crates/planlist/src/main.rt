// Prints the listing of the plan file on standard input.
#![tactic(auto)]

use plan_listing::list_file;
use std::io::Read;

// Reads all of standard input, and prints its listing.
fn run(rt: &HostRuntime) -> anyhow::Result<()> {
    let mut file = Vec::new(rt.alloc());
    let _ = rt.stdin().read_to_end(&mut file)?;
    let text = list_file(rt.alloc(), file.as_slice())?;
    rt.print(text)?;
    Ok(())
}

fn main(rt: HostRuntime) -> anyhow::Result<()> {
    run(&rt)
}
