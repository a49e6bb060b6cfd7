// What a run is made of.
ghost use Rattle.transmission.specs.Plans.{States};

use plan_formats::{FileFault, read_plan};
use run_inputs::Change;
use slot_plan::Plan;

// What a plan file states: a plan, or why not. The refusal is a number and no fault, since a run takes and tells every number, and an enum would leave some out.
pub type Stated = Result<Plan, u8>;

// What is to be installed, and the super-frame that it comes before.
pub type Install = Change<Stated>;

// The bytes of a packet file, or a count of the pattern for each stream.
pub type Source<'a> = run_inputs::Source<&'a [u8]>;

// What a plan file states.
pub fn stated(file: &[u8]) -> Stated
    ensures { States file.now result }
{
    read_plan(file).map_err(FileFault::number)
}
