// Polynomials over the field: locators among them.
ghost use Rattle.locator.specs.Roots.{OfDegree};

// A polynomial with room for so many coefficients: its coefficients, lowest first, and its degree.
#[derive(Clone, Copy)]
pub struct Polynomial<const TERMS: usize> {
    pub coefficients: [u8; TERMS],
    pub degree: usize,
    ghost shape: { OfDegree TERMS degree coefficients },
}

// How many coefficients a locator has.
pub const SIZE: usize = 9;

// The polynomial that is zero at the places of a word's errors.
pub type Locator = Polynomial<SIZE>;
