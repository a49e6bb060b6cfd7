// The interleaver and its inverse.
ghost use Rattle.std.specs.Prelude.{◌≡◌, OnOk};
ghost use Rattle.interleaver.specs.Blocks.{interleaved, deinterleaved};
ghost use Rattle.interleaver.specs.Calls.{Moved};

use crate::blocks::{WrongLength, admit, place};
use crate::element::Element;

// Interleaves a block into another.
pub fn interleave<T: Element>(block: &[T], into: &mut [T]) -> Result<(), WrongLength>
    ensures moved { Moved interleaved T.Element.idle block.now into.old result into.new }
    ensures undone { OnOk result (deinterleaved T.Element.idle into.new ≡ block.now) }
{
    admit(block, into)?;
    for (k, x) in into.iter_mut().enumerate() {
        *x = block[place(k)];
    }
    Ok(())
}

// Takes an interleaved block back into another.
pub fn deinterleave<T: Element>(block: &[T], into: &mut [T]) -> Result<(), WrongLength>
    ensures moved { Moved deinterleaved T.Element.idle block.now into.old result into.new }
    ensures undone { OnOk result (interleaved T.Element.idle into.new ≡ block.now) }
{
    admit(block, into)?;
    for (k, x) in block.iter().enumerate() {
        into[place(k)] = *x;
    }
    Ok(())
}
