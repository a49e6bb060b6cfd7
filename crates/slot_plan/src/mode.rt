// The transmission modes.
ghost use Rattle.std.specs.Prelude.{◌≡◌, ◌++◌, ◌%◌, Some, codes, decimal, nat_lt};
ghost use Rattle.slot_plan.specs.Modes.{Decodes, unit, active_in_unit, word_of};

use std::error::Error;
use std::fmt;

// A modulation and its inner code's rate, highest mode word last.
#[derive(Clone, Copy, PartialEq, Eq, Debug)]
pub enum Mode {
    Bpsk12,
    Qpsk12,
    Qpsk23,
    Qpsk34,
    Qpsk56,
    Qpsk78,
    Tc8psk23,
}

// A mode word that no mode has.
#[derive(Clone, Copy, PartialEq, Eq, Debug)]
pub struct UnknownMode(pub u8);

impl fmt::Display for UnknownMode {
    ghost output = { λ e. Some (codes "no mode has the word " ++ decimal e.0) };

    fn fmt<W: fmt::Write>(&self, f: &mut fmt::Formatter<W>) -> fmt::Result {
        write!(f, "no mode has the word {}", self.0)
    }
}

impl Error for UnknownMode {}

// The mode that has this mode word.
impl TryFrom<u8> for Mode {
    type Error = UnknownMode;

    ghost try_from_gives = { Decodes };

    fn try_from(word: u8) -> Result<Mode, UnknownMode> {
        match word {
            1 => Ok(Mode::Bpsk12),
            2 => Ok(Mode::Qpsk12),
            3 => Ok(Mode::Qpsk23),
            4 => Ok(Mode::Qpsk34),
            5 => Ok(Mode::Qpsk56),
            6 => Ok(Mode::Qpsk78),
            7 => Ok(Mode::Tc8psk23),
            _ => Err(UnknownMode(word)),
        }
    }
}

// The mode word of a mode.
impl From<Mode> for u8 {
    ghost from_gives = { λ m r. r ≡ word_of m };

    fn from(mode: Mode) -> u8 {
        match mode {
            Mode::Bpsk12 => 1,
            Mode::Qpsk12 => 2,
            Mode::Qpsk23 => 3,
            Mode::Qpsk34 => 4,
            Mode::Qpsk56 => 5,
            Mode::Qpsk78 => 6,
            Mode::Tc8psk23 => 7,
        }
    }
}

impl Mode {
    // How many slots a unit of this mode has.
    pub fn unit(self) -> u8
        ensures { result ≡ unit (word_of self) }
    {
        match self {
            Mode::Bpsk12 => 4,
            Mode::Qpsk12 => 2,
            Mode::Qpsk23 => 3,
            Mode::Qpsk34 => 4,
            Mode::Qpsk56 => 6,
            Mode::Qpsk78 => 8,
            Mode::Tc8psk23 => 1,
        }
    }

    // How many slots of a unit, its first ones, are active.
    pub fn active(self) -> u8
        ensures { result ≡ active_in_unit (word_of self) }
    {
        match self {
            Mode::Bpsk12 => 1,
            Mode::Qpsk12 => 1,
            Mode::Qpsk23 => 2,
            Mode::Qpsk34 => 3,
            Mode::Qpsk56 => 5,
            Mode::Qpsk78 => 7,
            Mode::Tc8psk23 => 1,
        }
    }

    // Whether the slot at a place of a line of this mode, from 0, is active.
    pub(crate) fn is_active_at(self, place: u8) -> bool
        ensures { result ≡ nat_lt (place % unit (word_of self)) (active_in_unit (word_of self)) }
    {
        // One match with the numbers of `unit` and `active` in it: telling of 48 slots what each is for takes 1,640 instructions, and
        // 1,960 by `place % self.unit() < self.active()`.
        match self {
            Mode::Bpsk12 => place % 4 < 1,
            Mode::Qpsk12 => place % 2 < 1,
            Mode::Qpsk23 => place % 3 < 2,
            Mode::Qpsk34 => place % 4 < 3,
            Mode::Qpsk56 => place % 6 < 5,
            Mode::Qpsk78 => place % 8 < 7,
            Mode::Tc8psk23 => true,
        }
    }
}
