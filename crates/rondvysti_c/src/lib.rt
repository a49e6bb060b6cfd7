// Rondvysti for C: the calls of the rack's control program.
// Each hands on to the library's of the same name, since no crate can stand on a static library.
#![tactic(auto)]

ghost use Rattle.outer_code.specs.Faults.{answer_number};
ghost use Rattle.outer_code.specs.Kinds.{TmccCorrected};
ghost use Rattle.outer_code.specs.declared.fault.CodeFault.{CodeFault};
ghost use Rattle.rondvysti.specs.Answers.{Checked};
ghost use Rattle.std.specs.Prelude.{◌≡◌, Result};

// Answers 0 for a plan file, or the number of the first check that the file fails.
#[unsafe(no_mangle)]
pub extern "C" fn rondvysti_plan_check(file: &[u8]) -> u8
    ensures { Checked file.now result }
{
    rondvysti::rondvysti_plan_check(file)
}

// Corrects a received TMCC word of 64 bytes in place. Answers 0, or else 8 for another length, 9 for a bound above 8,
// 14 where no codeword is within the bound, and the bytes are then as they were.
#[unsafe(no_mangle)]
pub extern "C" fn rondvysti_tmcc_correct(word: &mut [u8], bound: u8) -> u8
    ensures { (a : Result (Unit {0}) CodeFault) × (result ≡ answer_number 14 a) × TmccCorrected bound word.old a word.new }
{
    rondvysti::rondvysti_tmcc_correct(word, bound)
}
