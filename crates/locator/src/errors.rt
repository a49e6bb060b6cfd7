// The errors of a word, from its syndromes.
ghost use Rattle.locator.specs.Errors.{Corrects, NothingNear, corrected};
ghost use Rattle.std.specs.Iterator.Adapters.{zip_first, zip_second};
ghost use Rattle.std.specs.Prelude.{◌≡◌, MatchOption, take, slice_index};
ghost use Rattle.std.specs.Slice.Iter.{iter_rest};

use crate::polynomial::Locator;
use crate::roots::{MOST, Places};
use crate::values::bytes_at;
use field256::sum;
use std::iter::Zip;
use std::slice::Iter;

// Errors of a word: their places, and what is to be added there.
// Two arrays, since all places are known before the first value is, and an array of pairs would be a copy of both.
#[derive(Clone, Copy)]
pub struct Errors {
    pub places: Places,
    pub values: [u8; MOST],
}

impl Errors {
    // The errors that lead from a word of this length with these syndromes to the codeword within the bound.
    // None where no codeword is within the bound: the locator is then too long, or has fewer places than its degree.
    pub fn find(syndromes: &[u8; MOST], len: usize, bound: usize) -> Option<Errors>
        ensures { MatchOption result (NothingNear syndromes.now len bound) (λ e. Corrects syndromes.now len bound e.places.count e.places.list e.values) }
    {
        let locator = Locator::of(syndromes, bound)?;
        let places = Places::of(&locator, len);
        let values = bytes_at(syndromes, &places);
        if places.count == locator.degree {
            Some(Errors { places, values })
        } else {
            None
        }
    }

    // The places, in order, each with what is to be added there.
    fn iter(&self) -> Zip<Iter<'_, usize>, Iter<'_, u8>>
        ensures places { iter_rest (zip_first result) ≡ take self.now.places.count self.now.places.list }
        ensures values { iter_rest (zip_second result) ≡ self.now.values }
    {
        self.places.as_slice().iter().zip(&self.values)
    }

    // The byte at a place of a word once the errors are taken away, and 0 past its end.
    pub fn corrected_byte(&self, word: &[u8], place: usize) -> u8
        ensures { result ≡ slice_index (corrected self.now.places.count self.now.places.list self.now.values word.now) place }
    {
        if place >= word.len() {
            return 0;
        }
        let mut byte = word[place];
        for (at, value) in self.iter() {
            if *at == place {
                byte = sum(byte, *value);
            }
        }
        byte
    }

    // Takes the errors away from a word. A place past its end is passed over.
    pub fn correct(&self, word: &mut [u8])
        ensures { word.new ≡ corrected self.now.places.count self.now.places.list self.now.values word.old }
    {
        for (at, value) in self.iter() {
            if *at < word.len() {
                word[*at] = sum(word[*at], *value);
            }
        }
    }
}
