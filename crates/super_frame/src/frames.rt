// The elements of a super-frame that came in: its bytes, or the marks that came with them.
ghost use Rattle.std.specs.Prelude.{◌≡◌, ◌<◌, ◌≢◌, length, MatchResult};
ghost use Rattle.frame_layout.specs.Layout.{super_size};
ghost use Rattle.super_frame.specs.Parts.{Gathered};

use crate::parts::{copy_part, part_start};
use frame_layout::{FRAMES, PART, super_frame_size};
use interleaver::{Element, WrongLength};

// As many elements as a super-frame of so many slots has.
#[derive(Drop)]
pub(crate) struct Frames<'a, T> {
    pub(crate) slots: u8,
    pub(crate) elements: &'a [T],
    ghost size: { length elements.now ≡ super_size slots },
}

impl<'a, T: Element> Frames<'a, T> {
    // Refuses elements that are more or fewer.
    pub(crate) fn new(elements: &'a [T], slots: u8) -> Result<Frames<'a, T>, WrongLength>
        ensures { MatchResult result (λ f. (f.slots ≡ slots) × (f.elements.now ≡ elements.now)) (λ _. length elements.now ≢ super_size slots) }
    {
        if elements.len() != super_frame_size(slots) {
            return Err(WrongLength);
        }
        Ok(Frames { slots, elements })
    }

    // Gathers the parts of a slot into the rows of a block. The block is a slice, since an array of a type parameter owes at each call that it is
    // smaller than 2 ^ 63 bytes, which no caller here can show. The frames are counted, since it is by its number that a frame's part is found.
    pub(crate) fn gather(&self, slot: u8, block: &mut [T])
        requires { (slot < self.now.slots) × (length block.old ≡ 1624) }
        ensures { Gathered T.Element.idle self.now.slots slot self.now.elements.now block.new }
    {
        for frame in 0..FRAMES {
            copy_part(
                self.elements,
                part_start(self.slots, frame, slot),
                block,
                PART * usize::from(frame),
            );
        }
    }
}
