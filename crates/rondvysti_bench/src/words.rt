// The outer code on slot words.
ghost use Rattle.outer_code.specs.Faults.{answer_number};
ghost use Rattle.outer_code.specs.Kinds.{SlotCorrected, SlotEncoded};
ghost use Rattle.outer_code.specs.declared.fault.CodeFault.{CodeFault};
ghost use Rattle.std.specs.Prelude.{◌≡◌, Result};

use outer_code::{SlotWord, answer_number, correct, encode};

// Writes the check bytes of a slot word behind its data. Answers 0, or 8 where the length is wrong.
pub fn rondvysti_bench_encode(word: &mut [u8]) -> u8
    ensures { (a : Result (Unit {0}) CodeFault) × (result ≡ answer_number 16 a) × SlotEncoded word.old a word.new }
{
    answer_number::<SlotWord>(encode::<SlotWord>(word))
}

// Corrects a slot word. Answers 0, or the refusal's number.
pub fn rondvysti_bench_correct(word: &mut [u8], bound: u8) -> u8
    ensures { (a : Result (Unit {0}) CodeFault) × (result ≡ answer_number 16 a) × SlotCorrected bound word.old a word.new }
{
    answer_number::<SlotWord>(correct::<SlotWord>(word, bound))
}
