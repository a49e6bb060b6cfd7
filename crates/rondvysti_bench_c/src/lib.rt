// Calls for C that are measured beside other code: the outer code on slot words, and whole super-frames.
// Each hands on to the library's of the same name, since no crate can stand on a static library.
#![tactic(auto)]

ghost use Rattle.outer_code.specs.Faults.{answer_number};
ghost use Rattle.outer_code.specs.Kinds.{SlotCorrected, SlotEncoded};
ghost use Rattle.outer_code.specs.declared.fault.CodeFault.{CodeFault};
ghost use Rattle.rondvysti_bench.specs.Filling.{FilledAs};
ghost use Rattle.rondvysti_bench.specs.Frames.{ReadAs, WrittenAs};
ghost use Rattle.std.specs.Prelude.{◌≡◌, Result};

// Writes the check bytes of a slot word behind its data. Answers 0, or 8 where the length is wrong.
#[unsafe(no_mangle)]
pub extern "C" fn rondvysti_bench_encode(word: &mut [u8]) -> u8
    ensures { (a : Result (Unit {0}) CodeFault) × (result ≡ answer_number 16 a) × SlotEncoded word.old a word.new }
{
    rondvysti_bench::rondvysti_bench_encode(word)
}

// Corrects a slot word. Answers 0, or the refusal's number.
#[unsafe(no_mangle)]
pub extern "C" fn rondvysti_bench_correct(word: &mut [u8], bound: u8) -> u8
    ensures { (a : Result (Unit {0}) CodeFault) × (result ≡ answer_number 16 a) × SlotCorrected bound word.old a word.new }
{
    rondvysti_bench::rondvysti_bench_correct(word, bound)
}

// Writes the super-frame of a plan file's plan with order of change 0, from packets that are joined frame by frame and slot by slot.
// Answers 0, or the number of the refusal.
#[unsafe(no_mangle)]
pub extern "C" fn rondvysti_bench_write(file: &[u8], packets: &[u8], out: &mut [u8]) -> u8
    ensures { WrittenAs file.now packets.now out.old result out.new }
{
    rondvysti_bench::rondvysti_bench_write(file, packets, out)
}

// Takes the words out of a super-frame of so many slots, uncorrected. Answers 0, or 8 where a length is wrong.
#[unsafe(no_mangle)]
pub extern "C" fn rondvysti_bench_read(slots: u8, stream: &[u8], words: &mut [u8]) -> u8
    ensures { ReadAs slots stream.now words.old result words.new }
{
    rondvysti_bench::rondvysti_bench_read(slots, stream, words)
}

// Fills the first super-frame of a plan file's plan from a packet file. Answers 0, or the number of the refusal.
#[unsafe(no_mangle)]
pub extern "C" fn rondvysti_bench_fill(file: &[u8], packets: &[u8], out: &mut [u8]) -> u8
    ensures { FilledAs file.now packets.now out.old result out.new }
{
    rondvysti_bench::rondvysti_bench_fill(file, packets, out)
}
