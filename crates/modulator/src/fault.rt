// Why a modulator refuses.
ghost use Rattle.std.specs.Prelude.{◌≡◌};
ghost use Rattle.modulator.specs.Faults.{number};

#[derive(Clone, Copy, PartialEq, Eq, Debug)]
pub enum ModulatorFault {
    // the buffer has not the length of a super-frame
    Length,
    // no frame has that many slots
    Slots,
    // the plan is for a frame of another number of slots
    Frame,
}

impl ModulatorFault {
    // The refusal's number, as programs print it and callers from C get it.
    pub fn number(self) -> u8
        ensures { result ≡ number self }
    {
        match self {
            ModulatorFault::Length => 8,
            ModulatorFault::Slots => 9,
            ModulatorFault::Frame => 10,
        }
    }
}
