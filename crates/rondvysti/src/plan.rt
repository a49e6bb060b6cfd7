// The check of a slot plan file, answered as a number.
ghost use Rattle.rondvysti.specs.Answers.{Checked};

use plan_formats::{FileFault, read_plan};

// What the check answers for the file of a plan.
const ACCEPTED: u8 = 0;

// Answers 0 for a plan file, or the number of the first check that the file fails.
pub fn rondvysti_plan_check(file: &[u8]) -> u8
    ensures { Checked file.now result }
{
    read_plan(file).map_or_else(FileFault::number, |_| ACCEPTED)
}
