// Prints the TMCC of the plan file on standard input.
#![tactic(auto)]

use hexadecimal::Hex;
use plan_formats::read_plan;
use std::io::Read;
use tmcc_report::{first_word, heads};

// How many bytes the TMCC data and a frame's head have.
const DATA: usize = 48;

const HEAD: usize = 12;

// The data, the word and the heads of a plan's TMCC, or the number of the refusal.
fn run(rt: &HostRuntime) -> anyhow::Result<()> {
    let mut file = Vec::new(rt.alloc());
    let _ = rt.stdin().read_to_end(&mut file)?;
    let plan = match read_plan(file.as_slice()) {
        Ok(plan) => plan,
        Err(fault) => {
            let number = fault.number();
            println!(rt; "REFUSED {number}")?;
            return Ok(());
        }
    };
    let word = first_word(&plan);
    println!(rt; "D {}", Hex(&word[0..DATA]))?;
    println!(rt; "W {}", Hex(&word))?;
    let heads = heads(&word);
    for (frame, head) in heads.chunks(HEAD).enumerate() {
        println!(rt; "H {} {}", frame + 1, Hex(head))?;
    }
    Ok(())
}

fn main(rt: HostRuntime) -> anyhow::Result<()> {
    run(&rt)
}
