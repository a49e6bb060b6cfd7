// Why a word is not coded or corrected.
ghost use Rattle.outer_code.specs.Faults.{answer_number, number};
ghost use Rattle.std.specs.Prelude.{◌≡◌};

use crate::kind::WordKind;

// Numbers of the refusals that every kind of word shares.
const WRONG_LENGTH: u8 = 8;

const WRONG_BOUND: u8 = 9;

#[derive(Clone, Copy, PartialEq, Eq, Debug)]
pub enum CodeFault {
    // the word has another length than its kind
    Length,
    // the bound is larger than the code can correct
    Bound,
    // no codeword of the kind is within the bound
    Uncorrectable,
}

impl CodeFault {
    // The refusal's number at a kind of word. A number, since the interface for C answers numbers.
    pub fn number<K: WordKind>(self) -> u8
        ensures { result ≡ number K.REFUSAL self }
    {
        match self {
            CodeFault::Length => WRONG_LENGTH,
            CodeFault::Bound => WRONG_BOUND,
            CodeFault::Uncorrectable => K::REFUSAL,
        }
    }
}

// The number that stands for an answer in the interface for C: 0 for a word that is done, else the refusal's.
pub fn answer_number<K: WordKind>(answer: Result<(), CodeFault>) -> u8
    ensures { result ≡ answer_number K.REFUSAL answer }
{
    match answer {
        Ok(()) => 0,
        Err(fault) => fault.number::<K>(),
    }
}
