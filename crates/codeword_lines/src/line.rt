// From a line to its answer.
ghost use Rattle.codeword_lines.specs.Answers.{Answered, CorrectedAs, DoneAs, EncodedAs, Outcome};
ghost use Rattle.hexadecimal.specs.Hex.{unhexed};
ghost use Rattle.std.specs.Prelude.{IfOk};

use crate::answer::Answer;
use crate::request::{Kind, Request, Task, parse};
use hexadecimal::HexText;
use outer_code::{CodeFault, SlotWord, TmccWord, WordKind, correct, encode};
use std::alloc::{AllocError, Global};

// A word that was coded or corrected, or why it was not.
type Outcome = Result<Vec<u8>, CodeFault>;

// Codes the bytes that a text writes.
fn encoded<K: WordKind>(heap: Global, text: HexText) -> Result<Outcome, AllocError>
    ensures { IfOk result (EncodedAs K.LENGTH K.DATA_LENGTH (unhexed text.entry.digits.now)) }
{
    if text.byte_count() != K::DATA_LENGTH {
        return Ok(Err(CodeFault::Length));
    }
    let mut word = text.to_vec(heap)?;
    word.resize(K::LENGTH, 0)?;
    let answer = encode::<K>(word.as_mut_slice());
    Ok(answer.and(Ok(word)))
}

// Corrects the word that a text writes.
fn corrected<K: WordKind>(heap: Global, bound: u8, text: HexText) -> Result<Outcome, AllocError>
    ensures { IfOk result (CorrectedAs K.LENGTH K.permitted bound (unhexed text.entry.digits.now)) }
{
    let mut word = text.to_vec(heap)?;
    let answer = correct::<K>(word.as_mut_slice(), bound);
    Ok(answer.and(Ok(word)))
}

// Does a task at a kind of word.
fn done<K: WordKind>(heap: Global, task: Task, text: HexText) -> Result<Outcome, AllocError>
    ensures { IfOk result (DoneAs K.LENGTH K.DATA_LENGTH K.permitted task (unhexed text.entry.digits.now)) }
{
    match task {
        Task::Encode => encoded::<K>(heap, text),
        Task::Correct(bound) => corrected::<K>(heap, bound, text),
    }
}

// Does what a request asks for.
fn outcome(heap: Global, request: Request) -> Result<Outcome, AllocError>
    ensures { IfOk result (Outcome request.entry.kind request.entry.task (unhexed request.entry.text.digits.now)) }
{
    match request.kind {
        Kind::Slot => done::<SlotWord>(heap, request.task, request.text),
        Kind::Tmcc => done::<TmccWord>(heap, request.task, request.text),
    }
}

// The answer to a line.
pub fn answer_line(heap: Global, line: &[u8]) -> Result<Answer, AllocError>
    ensures { IfOk result (Answered line.now) }
{
    match parse(line) {
        Some(request) => Ok(match outcome(heap, request)? {
            Ok(word) => Answer::Word(word),
            Err(fault) => Answer::Refusal {
                kind: request.kind,
                fault,
            },
        }),
        None => Ok(Answer::Unknown),
    }
}
