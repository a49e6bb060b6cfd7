// A super-frame filled from a station's files.
ghost use Rattle.rondvysti_bench.specs.Filling.{FilledAs, FilledOr};
ghost use Rattle.rondvysti_bench.specs.Refusals.{answered};

use crate::refusal::{Refusal, answer};
use frame_layout::super_frame_size;
use interleaver::WrongLength;
use modulator::Bare;
use plan_formats::read_plan;
use slot_plan::Plan;
use stored_feed::StoredFeed;

// Fills the first super-frame of a plan from a packet file.
fn fill_plan(plan: &Plan, packets: &[u8], out: &mut [u8]) -> Result<(), Refusal>
    ensures { FilledOr plan.now.fields packets.now out.old (answered result) out.new }
{
    if out.len() != super_frame_size(plan.slots()) {
        return Err(Refusal::Length(WrongLength));
    }
    let mut feed = StoredFeed::open(packets)?;
    let loaded = Bare::new(plan.slots())?
        .load(plan)
        .map_err(|unloaded| unloaded.fault)?;
    loaded.fill(&mut feed, out)?;
    Ok(())
}

// Fills the first super-frame of a plan file's plan from a packet file.
fn fill(file: &[u8], packets: &[u8], out: &mut [u8]) -> Result<(), Refusal>
    ensures { FilledAs file.now packets.now out.old (answered result) out.new }
{
    fill_plan(&read_plan(file)?, packets, out)
}

// Fills the first super-frame of a plan file's plan from a packet file. Answers 0, or the number of the refusal.
pub fn rondvysti_bench_fill(file: &[u8], packets: &[u8], out: &mut [u8]) -> u8
    ensures { FilledAs file.now packets.now out.old result out.new }
{
    answer(fill(file, packets, out))
}
