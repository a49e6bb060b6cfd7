// Words put in their places, with the sequence added.
ghost use Rattle.std.specs.Prelude.{◌≡◌, ℕ, ◌+◌, ◌*◌, ◌/◌, ◌%◌, ◌<◌, ◌≤◌, List, [], ◌∷◌, length, drop};
ghost use Rattle.dispersal.specs.Stages.{At, added};
ghost use Rattle.frame_layout.specs.Layout.{super_size};
ghost use Rattle.super_frame.specs.Parts.{part, Put, Staged};

use crate::parts::part_start;
use dispersal::Sequence;
use frame_layout::PART;

// Byte 1 of a word is not sent, but the sequence runs on beneath it.
pub(crate) const UNSENT: usize = 1;

// Puts bytes at a place and adds the next bytes of the sequence to them.
pub(crate) fn put_dispersed(bytes: &mut [u8], to: usize, from: &[u8], sequence: &mut Sequence)
    requires { to + length from.now ≤ length bytes.old }
    ensures put { (n : ℕ) → At sequence.old.window n → Put (added n from.now) bytes.old to bytes.new }
    ensures place { (n : ℕ) → At sequence.old.window n → At sequence.new.window (n + length from.now) }
{
    let part = &mut bytes[to..to + from.len()];
    part.copy_from_slice(from);
    sequence.add(part);
}

// Puts a sync word at a place, high byte first.
pub(crate) fn put_sync(bytes: &mut [u8], to: usize, word: u16)
    requires { to + 2 ≤ length bytes.old }
    ensures { Put (word / 256 ∷ word % 256 ∷ []) bytes.old to bytes.new }
{
    bytes[to..to + 2].copy_from_slice(&word.to_be_bytes());
}

// Puts a word into the part of its frame and slot, both counted from 0, as a row of the slot's block. The sequence moves on by a whole word.
pub fn put_word(
    bytes: &mut [u8],
    sequence: &mut Sequence,
    slots: u8,
    frame: u8,
    slot: u8,
    word: &[u8; 204],
)
    requires { (length bytes.old ≡ super_size slots) × (frame < 8) × (slot < slots) }
    ensures put { (n : ℕ) → At sequence.old.window n → Put (added n (drop 1 word.now)) bytes.old (part slots frame slot) bytes.new }
    ensures place { (n : ℕ) → At sequence.old.window n → At sequence.new.window (n + 204) }
    ensures staged { (words : ℕ → ℕ → List ℕ) → words (frame + 1) (slot + 1) ≡ word.now → At sequence.old.window ((frame * slots + slot) * 204) → Staged slots words (frame * slots + slot) bytes.old → Staged slots words (frame * slots + slot + 1) bytes.new }
{
    let start = part_start(slots, frame, slot);
    put_dispersed(bytes, start, &word[UNSENT..], sequence);
    sequence.skip(UNSENT);
}
