// Super-frames written and taken apart.
ghost use Rattle.rondvysti_bench.specs.Frames.{ReadAs, WrittenAs, WrittenOr};
ghost use Rattle.rondvysti_bench.specs.Refusals.{answered};

use crate::refusal::{Refusal, answer};
use plan_formats::{Order, Tmcc, read_plan};
use slot_plan::Plan;
use tmcc_word::word;

// Writes the super-frame of a plan with order of change 0.
fn write_plan(plan: &Plan, packets: &[u8], out: &mut [u8]) -> Result<(), Refusal>
    ensures { WrittenOr plan.now.fields packets.now out.old (answered result) out.new }
{
    let order = Order::first();
    let tmcc = word(&Tmcc { order, plan: *plan });
    super_frame::write(plan, &tmcc, packets, out)?;
    Ok(())
}

// Writes the super-frame of a plan file's plan with order of change 0.
fn write(file: &[u8], packets: &[u8], out: &mut [u8]) -> Result<(), Refusal>
    ensures { WrittenAs file.now packets.now out.old (answered result) out.new }
{
    write_plan(&read_plan(file)?, packets, out)
}

// Writes the super-frame of a plan file's plan with order of change 0, from packets that are joined frame by frame and slot by slot.
// Answers 0, or the number of the refusal.
pub fn rondvysti_bench_write(file: &[u8], packets: &[u8], out: &mut [u8]) -> u8
    ensures { WrittenAs file.now packets.now out.old result out.new }
{
    answer(write(file, packets, out))
}

// Takes the words out of a super-frame of so many slots, uncorrected.
fn read(slots: u8, stream: &[u8], words: &mut [u8]) -> Result<(), Refusal>
    ensures { ReadAs slots stream.now words.old (answered result) words.new }
{
    let mut tmcc = [0; 64];
    super_frame::read(stream, slots, &mut tmcc, words)?;
    Ok(())
}

// Takes the words out of a super-frame of so many slots, uncorrected. Answers 0, or 8 where a length is wrong.
pub fn rondvysti_bench_read(slots: u8, stream: &[u8], words: &mut [u8]) -> u8
    ensures { ReadAs slots stream.now words.old result words.new }
{
    answer(read(slots, stream, words))
}
