// Why numbers make no plan.
ghost use Rattle.std.specs.Prelude.{◌≡◌};
ghost use Rattle.slot_plan.specs.Faults.{number, at_fault};

#[derive(Clone, Copy, PartialEq, Eq, Debug)]
pub enum PlanFault {
    // the frame has no slot, or more than 48
    SlotCount,
    // the line whose mode word is at fault
    ModeWord(u8),
    // the line whose slot count is at fault
    LineCount(u8),
    // the lines' slot counts do not add up to the frame
    CountSum,
    // the slot whose stream number is at fault
    SlotStream(u8),
    // the control bits or the expanded bits are too many
    SpareBits,
}

impl PlanFault {
    // The refusal's number, as programs print it and calls from C answer it.
    pub fn number(self) -> u8
        ensures { result ≡ number self }
    {
        match self {
            PlanFault::SlotCount => 3,
            PlanFault::ModeWord(_) => 4,
            PlanFault::LineCount(_) => 5,
            PlanFault::CountSum => 5,
            PlanFault::SlotStream(_) => 6,
            PlanFault::SpareBits => 7,
        }
    }

    // The line or the slot at fault, where the fault is of a single one.
    pub fn place(self) -> Option<u8>
        ensures { result ≡ at_fault self }
    {
        match self {
            PlanFault::ModeWord(line) | PlanFault::LineCount(line) => Some(line),
            PlanFault::SlotStream(slot) => Some(slot),
            _ => None,
        }
    }
}
