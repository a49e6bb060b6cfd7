// Blocks: their size, the order in which they are read, and the refusal of what is none.
ghost use Rattle.std.specs.Prelude.{◌≡◌, ◌<◌, length};
ghost use Rattle.interleaver.specs.Blocks.{size, place};
ghost use Rattle.interleaver.specs.Calls.{Admitted, resting};

use crate::element::Element;

// A block has eight rows of 203 columns.
pub(crate) const ROWS: usize = 8;

const COLUMNS: usize = 203;

pub(crate) const SIZE: usize = 1624;

// The number of the refusal of a wrong length.
const WRONG_LENGTH: u8 = 8;

// A source or a target that is no block.
#[derive(Clone, Copy, PartialEq, Eq, Debug)]
pub struct WrongLength;

impl WrongLength {
    // The refusal's number, as programs print it and callers from C get it.
    pub fn number(self) -> u8
        ensures { result ≡ 8 }
    {
        WRONG_LENGTH
    }
}

// Where element k of an interleaved block stands in the block.
pub(crate) fn place(k: usize) -> usize
    requires { k < size }
    ensures value { result ≡ place 8 203 k }
    ensures within { result < size }
{
    COLUMNS * (k % ROWS) + k / ROWS
}

// Writes the rest element all over the target.
fn rest_all<T: Element>(into: &mut [T])
    ensures { into.new ≡ resting T.Element.idle into.old }
{
    let rest = T::rest();
    into.fill_with(|| rest);
}

// Refuses a source or a target that is no block; the target is then left full of rest elements.
pub(crate) fn admit<T: Element>(block: &[T], into: &mut [T]) -> Result<(), WrongLength>
    ensures { Admitted T.Element.idle block.now into.old result into.new }
{
    if block.len() != SIZE || into.len() != SIZE {
        rest_all(into);
        return Err(WrongLength);
    }
    Ok(())
}
