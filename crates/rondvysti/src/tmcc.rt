// The correction of a TMCC word, answered as a number.
ghost use Rattle.outer_code.specs.Faults.{answer_number};
ghost use Rattle.outer_code.specs.Kinds.{TmccCorrected};
ghost use Rattle.outer_code.specs.declared.fault.CodeFault.{CodeFault};
ghost use Rattle.std.specs.Prelude.{◌≡◌, Result};

use outer_code::{TmccWord, answer_number, correct};

// Corrects a received TMCC word of 64 bytes in place. Answers 0, or else 8 for another length, 9 for a bound above 8,
// 14 where no codeword is within the bound, and the bytes are then as they were.
pub fn rondvysti_tmcc_correct(word: &mut [u8], bound: u8) -> u8
    ensures { (a : Result (Unit {0}) CodeFault) × (result ≡ answer_number 14 a) × TmccCorrected bound word.old a word.new }
{
    answer_number::<TmccWord>(correct::<TmccWord>(word, bound))
}
