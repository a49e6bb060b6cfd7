// The places of a word where a polynomial is zero.
ghost use Rattle.std.specs.Prelude.{◌≡◌, ℕ, ◌<◌, ◌≤◌, length, take, slice_index};
ghost use Rattle.locator.specs.Roots.{Roots};

use crate::polynomial::Locator;
use crate::powers::values_at_powers;

// How many places a list has room for: as many as there are check bytes.
pub const MOST: usize = 16;

// How many places of a word, from its last one on, stand for different powers.
const REACH: usize = 255;

// Places of a word of some length: the first of the list, as many as the count says, in order.
// An array with its count, since pushing just the places found has to guess at each: correcting eight errors takes 6 % longer.
#[derive(Clone, Copy)]
pub struct Places {
    pub len: usize,
    pub count: usize,
    pub list: [usize; MOST],
    ghost room: { count ≤ 16 },
    ghost within: { (m : ℕ) → m < count → slice_index list m < len },
    ghost rising: { (i j : ℕ) → i < j → j < count → slice_index list i < slice_index list j },
}

impl Places {
    // The places of a word of this length at which the locator is zero: at most as many as its degree.
    // Of a word that is longer than any of the code, the last places are searched.
    pub fn of(locator: &Locator, len: usize) -> Places
        ensures len { result.len ≡ len }
        ensures roots { Roots locator.now.coefficients locator.now.degree len result.count result.list }
    {
        let reach = len.min(REACH);
        let values = values_at_powers(&locator.coefficients, reach);
        let mut list = [0; MOST];
        let mut count = 0;
        for (place, value) in (len - reach..len).zip(values[..reach].iter().rev()) {
            // the place is written whether or not it stays, so that nothing has to be guessed
            list[count] = place;
            if *value == 0 {
                count += 1;
            }
        }
        list[count] = 0;
        Places { len, count, list }
    }

    // The places, in order.
    pub(crate) fn as_slice(&self) -> &[usize]
        ensures { result.now ≡ take self.now.count self.now.list }
    {
        &self.list[..self.count]
    }
}
