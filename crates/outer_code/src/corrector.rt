// The corrector.
ghost use Rattle.std.specs.Prelude.{◌≡◌, ◌≤◌, length, MatchOption};
ghost use Rattle.locator.specs.Errors.{corrected};
ghost use Rattle.outer_code.specs.Results.{Correction};
ghost use Rattle.outer_code.specs.Words.{Corrected, NoneNear, Sought};
ghost use Rattle.parity.specs.Remainder.{Remainder};

use crate::fault::CodeFault;
use crate::kind::WordKind;
use locator::Errors;
use parity::{remainder, syndromes_of};

// The largest bound within which at most one codeword lies.
const LARGEST_BOUND: u8 = 8;

// Writes over a word the one codeword of its kind that differs from it in at most bound bytes and begins with a permitted byte.
// Where there is none, and where the length or the bound is wrong, the word stays as it was.
pub fn correct<K: WordKind>(word: &mut [u8], bound: u8) -> Result<(), CodeFault>
    ensures { Correction K.LENGTH K.permitted bound word.old result word.new }
{
    if word.len() != K::LENGTH {
        return Err(CodeFault::Length);
    }
    if bound > LARGEST_BOUND {
        return Err(CodeFault::Bound);
    }
    settle::<K>(word, bound)
}

// Corrects a word of the right length within a right bound, or tells that it cannot be. A clean word costs one division.
fn settle<K: WordKind>(word: &mut [u8], bound: u8) -> Result<(), CodeFault>
    requires size { length word.old ≡ K.LENGTH }
    requires bound { bound ≤ 8 }
    ensures { Sought K.permitted bound word.old result word.new }
{
    let rest = remainder(word);
    if rest == 0 {
        return if K::permits(word[0]) {
            Ok(())
        } else {
            Err(CodeFault::Uncorrectable)
        };
    }
    let errors = errors_of::<K>(word, bound, rest).ok_or(CodeFault::Uncorrectable)?;
    errors.correct(word);
    Ok(())
}

// The errors that lead from a word, by its remainder, to the codeword of its kind within the bound.
// What is found leads to a codeword, so only the first byte is tested.
fn errors_of<K: WordKind>(word: &[u8], bound: u8, rest: u128) -> Option<Errors>
    requires size { length word.now ≡ K.LENGTH }
    requires bound { bound ≤ 8 }
    requires rest { Remainder word.now rest }
    ensures { MatchOption result (NoneNear K.permitted bound word.now) (λ e. Corrected K.permitted bound word.now (corrected e.places.count e.places.list e.values word.now)) }
{
    let found = Errors::find(&syndromes_of(rest), word.len(), usize::from(bound));
    found.filter(|errors| K::permits(errors.corrected_byte(word, 0)))
}
