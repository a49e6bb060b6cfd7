// The bytes of a word that is zero but at known places, from its values at powers of 02h.
ghost use Rattle.std.specs.Prelude.{◌≡◌, ℕ, suc, ◌<◌, ◌≤◌, length, slice_index};
ghost use Rattle.code_theory.specs.Codeword.{Bytes};
ghost use Rattle.code_theory.specs.Sequences.{place, polynomial};
ghost use Rattle.field256.specs.Field.{plus, times};
ghost use Rattle.locator.specs.Errors.{ByteAt, Meets};
ghost use Rattle.locator.specs.Quotients.{Vanishes, Weighed};
ghost use Rattle.locator.specs.Roots.{OfDegree};

use crate::field::quotient;
use crate::polynomial::Polynomial;
use crate::roots::{MOST, Places};
use field256::{exp, product, sum};

// How many coefficients the polynomial of all places has.
const TERMS: usize = 17;

impl Polynomial<TERMS> {
    // The quotient of the polynomial by y less x, paired with a sequence, over its value at x. The quotient's coefficients are
    // made from the highest down, each from the one before. Where that value is zero, as it is only in words longer than any of
    // the code, there is no quotient, and zero stands for it.
    fn weighed(&self, sequence: &[u8; MOST], x: u8) -> u8
        ensures { Weighed sequence.now self.now.coefficients x result }
    {
        let mut coefficient = 0;
        let mut paired = 0;
        let mut value = 0;
        let above = self.coefficients[1..=self.degree].iter().rev();
        for (above, element) in above.zip(sequence[..self.degree].iter().rev()) {
            coefficient = sum(*above, product(x, coefficient));
            paired = sum(product(coefficient, *element), paired);
            value = sum(coefficient, product(x, value));
        }
        quotient(paired, value).unwrap_or(0)
    }
}

// Multiplies a polynomial by y less x.
// In place, since a polynomial that is handed on by value is copied at each place: correcting eight errors takes 4 % longer.
fn widen(p: &mut [u8; TERMS], degree: usize, x: u8)
    requires shape { OfDegree 17 degree p.old }
    requires room { degree < 16 }
    ensures shape { OfDegree 17 (suc degree) p.new }
    ensures product { (y : ℕ) → polynomial 17 p.new y ≡ times (plus y x) (polynomial 17 p.old y) }
{
    let mut below = 0;
    for coefficient in p[..degree + 2].iter_mut() {
        let old = *coefficient;
        *coefficient = sum(below, product(x, old));
        below = old;
    }
}

// The polynomial that is zero at the places of the list.
fn polynomial_of(places: &Places) -> Polynomial<TERMS>
    ensures { Vanishes places.now.len places.now.count places.now.list result.coefficients }
{
    let mut coefficients = [0; TERMS];
    coefficients[0] = 1;
    for (degree, place) in places.as_slice().iter().enumerate() {
        widen(&mut coefficients, degree, exp(places.len - 1 - *place));
    }
    Polynomial {
        coefficients,
        degree: places.count,
    }
}

// The byte at place k of the list, by the polynomial of all places: without this place it is zero at every other one.
fn byte_at(sequence: &[u8; MOST], places: &Places, p: &Polynomial<TERMS>, k: usize) -> u8
    requires inside { k < places.now.count }
    requires vanishes { Vanishes places.now.len places.now.count places.now.list p.now.coefficients }
    ensures byte { ByteAt sequence.now places.now.len places.now.count places.now.list k result }
    ensures weighed { Weighed sequence.now p.now.coefficients (place places.now.len (slice_index places.now.list k)) result }
{
    p.weighed(sequence, exp(places.len - 1 - places.list[k]))
}

// The bytes at the places of the list, in its order: of each word with this sequence of values that is zero elsewhere, and else
// of the word with as many of these values as there are places.
pub fn bytes_at(sequence: &[u8; MOST], places: &Places) -> [u8; MOST]
    ensures size { length result ≡ 16 }
    ensures bytes { Bytes result }
    ensures meets { Meets sequence.now places.now.len places.now.count places.now.list result }
    ensures each { (k : ℕ) → k < places.now.count → ByteAt sequence.now places.now.len places.now.count places.now.list k (slice_index result k) }
    ensures spare { (k : ℕ) → places.now.count ≤ k → slice_index result k ≡ 0 }
{
    let p = polynomial_of(places);
    let mut bytes = [0; MOST];
    for (k, byte) in bytes[..places.count].iter_mut().enumerate() {
        *byte = byte_at(sequence, places, &p, k);
    }
    bytes
}
