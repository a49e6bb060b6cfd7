// From words in their parts to a super-frame.
ghost use Rattle.std.specs.Prelude.{◌≡◌, ℕ, ◌*◌, List, length};
ghost use Rattle.frame_layout.specs.Layout.{super_size, SuperFrame};
ghost use Rattle.super_frame.specs.Parts.{Staged};

use crate::heads::write_heads;
use crate::interleaving::interleave_slots;

// Makes a super-frame of a buffer in which every word stands in its part: interleaves the slots and writes the heads.
pub fn finish(bytes: &mut [u8], slots: u8, tmcc: &[u8; 64])
    requires { length bytes.old ≡ super_size slots }
    ensures { (words : ℕ → ℕ → List ℕ) → Staged slots words (8 * slots) bytes.old → SuperFrame slots tmcc.now words bytes.new }
{
    interleave_slots(bytes, slots);
    write_heads(bytes, slots, tmcc);
}
