// Why bytes are no plan file.
ghost use Rattle.std.specs.Prelude.{◌≡◌};
ghost use Rattle.plan_formats.specs.Faults.{file_number, file_at_fault};
ghost use Rattle.plan_formats.specs.declared.fault.FileFault.TheVariants.{Rule};

use slot_plan::PlanFault;

// The first check that a file fails.
#[derive(Clone, Copy, PartialEq, Eq, Debug)]
pub enum FileFault {
    // shorter than a head, or not marked as a plan file
    Mark,
    // of another version
    Version,
    // a number of slots that no frame has, or a length that does not go with it
    Size,
    // numbers that make no plan
    Rule(PlanFault),
}

impl From<PlanFault> for FileFault {
    ghost from_gives = { λ e r. r ≡ Rule e };

    fn from(fault: PlanFault) -> FileFault {
        FileFault::Rule(fault)
    }
}

impl FileFault {
    // The refusal's number, as programs print it and callers from C get it.
    pub fn number(self) -> u8
        ensures { result ≡ file_number self }
    {
        match self {
            FileFault::Mark => 1,
            FileFault::Version => 2,
            FileFault::Size => 3,
            FileFault::Rule(fault) => fault.number(),
        }
    }

    // The line or the slot at fault, where the fault is of a single one.
    pub fn place(self) -> Option<u8>
        ensures { result ≡ file_at_fault self }
    {
        match self {
            FileFault::Rule(fault) => fault.place(),
            _ => None,
        }
    }
}
