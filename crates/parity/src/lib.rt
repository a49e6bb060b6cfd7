// The remainder of a word by the generator of the outer code, and what follows from it: check bytes, the test for a codeword, syndromes.
#![tactic(auto)]

mod register;
mod rows;
mod terms;
mod words;

ghost use Rattle.std.specs.Prelude.{◌≡◌, ℕ, T, ◌↔◌};
ghost use Rattle.code_theory.specs.Codeword.{Codeword};
ghost use Rattle.parity.specs.Remainder.{AtRoots, Checks, Remainder, Syndromes, bytes_of};

use register::divided;
use terms::term;
use words::{bytes_of, number};

// How many check bytes a codeword ends with, and syndromes it has.
const CHECKS: usize = 16;

// The sixteen check bytes of a message.
pub fn check_bytes(message: &[u8]) -> [u8; 16]
    ensures { Checks message.now result }
{
    bytes_of(divided(message))
}

// The remainder of a word by the generator, as the bytes of a number: the only one that the word has.
pub fn remainder(word: &[u8]) -> u128
    ensures is { Remainder word.now result }
    ensures only { (s : ℕ) → Remainder word.now s → s ≡ result }
{
    let (message, last) = word.split_at(word.len().saturating_sub(CHECKS));
    divided(message) ^ number(last)
}

// Whether a word, of any length, is a codeword.
#[tactic(auto, using(crate::proofs::Unique::codeword_at_zero, crate::proofs::Unique::zero_at_codeword))]
pub fn is_codeword(word: &[u8]) -> bool
    ensures { T result ↔ Codeword word.now }
{
    remainder(word) == 0
}

// The sixteen syndromes of a word.
pub fn syndromes(word: &[u8]) -> [u8; 16]
    ensures { Syndromes word.now result }
{
    syndromes_of(remainder(word))
}

// The syndromes of the words that have this remainder.
pub fn syndromes_of(remainder: u128) -> [u8; 16]
    ensures { Syndromes (bytes_of 16 remainder) result }
{
    values_at_roots(&remainder.to_le_bytes())
}

// The values of a polynomial at the sixteen roots of the generator. Its coefficients stand lowest first;
// those beyond the sixteenth are passed over.
pub fn values_at_roots(p: &[u8]) -> [u8; 16]
    ensures { AtRoots p.now result }
{
    let mut all = 0;
    for (place, c) in p.iter().enumerate().take(CHECKS) {
        all ^= term(place, *c);
    }
    bytes_of(all)
}
