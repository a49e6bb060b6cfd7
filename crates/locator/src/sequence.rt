// The shortest recurrence of a sequence, by Berlekamp and Massey.
ghost use Rattle.std.specs.Prelude.{◌≡◌, ℕ, suc, ◌+◌, ◌<◌, ◌≤◌, min, List, length, MatchOption, slice_index};
ghost use Rattle.code_theory.specs.Codeword.{Bytes};
ghost use Rattle.code_theory.specs.Sequences.{paired};
ghost use Rattle.field256.specs.Field.{plus, times};
ghost use Rattle.locator.specs.Searches.{Found, Locates, Stepped, TooMany};

use crate::polynomial::{Locator, SIZE};
use field256::{product, sum};
use std::mem;

// That the degree of a locator would pass the bound: the errors are too many.
#[derive(Clone, Copy, Debug)]
pub struct TooManyErrors;

// The search for the shortest recurrence of a sequence: the locator so far with its degree, and the locator before the degree
// last rose, with its discrepancy there. No division is made, so a locator may have any factor.
#[derive(Clone, Copy)]
pub struct Search {
    pub locator: [u8; SIZE],
    pub helper: [u8; SIZE],
    pub degree: usize,
    pub discrepancy: u8,
}

impl Search {
    // The search before the first element: the locator is 1.
    fn new() -> Search
        ensures found { (s : List ℕ) (bound : ℕ) → Found s bound 0 result }
        ensures one { (slice_index result.locator 0 ≡ 1) × (result.discrepancy ≡ 1) }
    {
        let mut locator = [0; SIZE];
        locator[0] = 1;
        Search {
            locator,
            helper: [0; SIZE],
            degree: 0,
            discrepancy: 1,
        }
    }

    // The locator's coefficients, each times the sequence's element as far behind a place, added.
    fn discrepancy_from(&self, sequence: &[u8], from: usize) -> u8
        requires room { self.now.degree < 9 }
        requires within { from + self.now.degree < length sequence.now }
        ensures { result ≡ paired (suc self.now.degree) self.now.locator sequence.now from }
    {
        let mut total = 0;
        for (coefficient, element) in self.locator[..=self.degree].iter().zip(&sequence[from..]) {
            total = sum(total, product(*coefficient, *element));
        }
        total
    }

    // Puts a times the locator, with c times the helper added that is moved up by some places, in the locator's place.
    fn combine(&mut self, a: u8, c: u8, shift: usize)
        ensures size { length self.new.locator ≡ 9 }
        ensures low { (j : ℕ) → j < 9 → j < shift → slice_index self.new.locator j ≡ times a (slice_index self.old.locator j) }
        ensures high { (j : ℕ) → shift + j < 9 → slice_index self.new.locator (shift + j) ≡ plus (times a (slice_index self.old.locator (shift + j))) (times c (slice_index self.old.helper j)) }
        ensures rest { self.new ≡ record self.old { locator = self.new.locator } }
    {
        for (j, coefficient) in self.locator.iter_mut().enumerate() {
            let scaled = product(a, *coefficient);
            *coefficient = match j.checked_sub(shift) {
                Some(i) => sum(scaled, product(c, self.helper[i])),
                None => scaled,
            };
        }
    }

    // One step of the search, to the next element of the sequence. Refused, and nothing changed, where the degree would pass
    // the bound.
    fn step(&mut self, sequence: &[u8], n: usize, bound: usize) -> Result<(), TooManyErrors>
        requires more { n < length sequence.now }
        requires room { bound < 9 }
        requires found { Found sequence.now bound n self.old }
        ensures { Stepped sequence.now bound (suc n) self.old result self.new }
    {
        let degree = self.degree;
        let failed = self.discrepancy_from(sequence, n - degree);
        if failed == 0 {
            return Ok(());
        }
        if n < 2 * degree {
            self.combine(self.discrepancy, failed, 2 * degree - n - 1);
            return Ok(());
        }
        let raised = n + 1 - degree;
        if raised > bound {
            return Err(TooManyErrors);
        }
        mem::swap(&mut self.locator, &mut self.helper);
        self.combine(failed, self.discrepancy, raised - degree);
        self.degree = raised;
        self.discrepancy = failed;
        Ok(())
    }
}

impl Locator {
    // The locator of the errors that have this sequence of values, or none where they are more than the bound, or more than eight.
    pub fn of(sequence: &[u8], bound: usize) -> Option<Locator>
        ensures { MatchOption result (TooMany sequence.now (min bound 8)) (λ t. Locates sequence.now (min bound 8) t.coefficients t.degree) }
    {
        let most = bound.min(SIZE - 1);
        let mut search = Search::new();
        // by place, since each step looks back at the elements before
        for n in 0..sequence.len() {
            search.step(sequence, n, most).ok()?;
        }
        Some(Locator {
            coefficients: search.locator,
            degree: search.degree,
        })
    }
}
