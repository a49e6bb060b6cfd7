// Why words ask for nothing that can be done.
ghost use Rattle.modulate_job.specs.Texts.{text};
ghost use Rattle.modulate_job.specs.declared.misuse.Misuse.TheVariants.{Memory};
ghost use Rattle.std.specs.Prelude.{◌≡◌, Some};

use std::alloc::AllocFailed;
use std::error::Error;
use std::fmt;

// What is wrong, with the word that is at fault.
#[derive(Clone, Copy, PartialEq, Eq, Debug)]
pub enum Misuse<'a> {
    // fewer words than the four that are always there
    Few,
    // a pattern without eight counts
    Pattern(&'a str),
    // a number of super-frames that is no number
    Count(&'a str),
    // an AT without a plan behind it
    Lone(&'a str),
    // an AT that is no number of a super-frame
    At(&'a str),
    // no memory for the changes
    Memory,
}

impl fmt::Display for Misuse<'_> {
    ghost output = { λ m. Some (text m) };

    fn fmt<W: fmt::Write>(&self, f: &mut fmt::Formatter<W>) -> fmt::Result {
        match self {
            Misuse::Few => write!(f, "too few arguments"),
            Misuse::Pattern(word) => write!(
                f,
                "PACKETS has not eight counts from 0 to 65535: {word}"
            ),
            Misuse::Count(word) => write!(f, "COUNT is no number from 0 to 4294967295: {word}"),
            Misuse::Lone(word) => write!(f, "AT has no plan behind it: {word}"),
            Misuse::At(word) => write!(f, "AT is no number from 1 to 4294967295: {word}"),
            Misuse::Memory => write!(f, "no memory for the arguments"),
        }
    }
}

impl Error for Misuse<'_> {}

impl<T: Drop> From<AllocFailed<T>> for Misuse<'_> {
    ghost from_gives = { λ _ m. m ≡ Memory };

    fn from(_: AllocFailed<T>) -> Self {
        Self::Memory
    }
}
