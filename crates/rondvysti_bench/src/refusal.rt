// Why a call on a super-frame is refused, and the numbers that the calls answer.
ghost use Rattle.std.specs.Prelude.{◌≡◌};
ghost use Rattle.rondvysti_bench.specs.Refusals.{answered, number};
ghost use Rattle.rondvysti_bench.specs.declared.refusal.Refusal.TheVariants.{File, Length, Modulator, Packets};

use interleaver::WrongLength;
use modulator::ModulatorFault;
use plan_formats::FileFault;
use stored_feed::PacketFileFault;

// What is at fault.
#[derive(Clone, Copy)]
pub(crate) enum Refusal {
    // the plan file
    File(FileFault),
    // the packet file
    Packets(PacketFileFault),
    // what the modulator is given
    Modulator(ModulatorFault),
    // the length of a buffer
    Length(WrongLength),
}

impl From<FileFault> for Refusal {
    ghost from_gives = { λ fault r. r ≡ File fault };

    fn from(fault: FileFault) -> Refusal {
        Refusal::File(fault)
    }
}

impl From<PacketFileFault> for Refusal {
    ghost from_gives = { λ fault r. r ≡ Packets fault };

    fn from(fault: PacketFileFault) -> Refusal {
        Refusal::Packets(fault)
    }
}

impl From<ModulatorFault> for Refusal {
    ghost from_gives = { λ fault r. r ≡ Modulator fault };

    fn from(fault: ModulatorFault) -> Refusal {
        Refusal::Modulator(fault)
    }
}

impl From<WrongLength> for Refusal {
    ghost from_gives = { λ fault r. r ≡ Length fault };

    fn from(fault: WrongLength) -> Refusal {
        Refusal::Length(fault)
    }
}

impl Refusal {
    // The refusal's number.
    fn number(self) -> u8
        ensures { result ≡ number self }
    {
        match self {
            Refusal::File(fault) => fault.number(),
            Refusal::Packets(fault) => fault.number(),
            Refusal::Modulator(fault) => fault.number(),
            Refusal::Length(fault) => fault.number(),
        }
    }
}

// What a call answers that is done.
const DONE: u8 = 0;

// What a call answers: 0, or its refusal's number.
pub(crate) fn answer(outcome: Result<(), Refusal>) -> u8
    ensures { result ≡ answered outcome }
{
    outcome.map_or_else(Refusal::number, |()| DONE)
}
