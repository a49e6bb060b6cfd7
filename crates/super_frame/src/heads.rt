// The heads of the frames.
ghost use Rattle.std.specs.Prelude.{◌≡◌, ℕ, ◌+◌, ◌*◌, ◌<◌, length, slice_index};
ghost use Rattle.dispersal.specs.Stages.{At};
ghost use Rattle.frame_layout.specs.Layout.{frame_size, super_size, head_byte};
ghost use Rattle.super_frame.specs.Parts.{SameSlot};

use crate::put::{put_dispersed, put_sync};
use dispersal::Sequence;
use frame_layout::{FRAMES, HEAD, W1, frame_size, own_word};

// How many TMCC bytes a head has.
pub(crate) const TMCC: usize = 8;

// Where they begin, and where the second sync word does.
pub(crate) const TMCC_START: usize = 2;

const SECOND: usize = 10;

// How many bytes of sync words the sequence runs on beneath.
pub(crate) const SYNC: usize = 4;

// Where a frame, counted from 0, begins.
pub(crate) fn frame_start(slots: u8, frame: u8) -> usize
    ensures { result ≡ frame * frame_size slots }
{
    usize::from(frame) * frame_size(slots)
}

// Writes the head of a frame, counted from 0.
fn write_head(head: &mut [u8], frame: u8, tmcc: &[u8; 64], sequence: &mut Sequence)
    requires { (length head.old ≡ 12) × (frame < 8) }
    ensures head { At sequence.old.window (12 * frame) → (i : ℕ) → i < 12 → slice_index head.new i ≡ head_byte tmcc.now (frame + 1) i }
    ensures place { At sequence.old.window (12 * frame) → At sequence.new.window (12 * (frame + 1)) }
{
    let first = TMCC * usize::from(frame);
    put_sync(head, 0, W1);
    put_dispersed(head, TMCC_START, &tmcc[first..first + TMCC], sequence);
    put_sync(head, SECOND, own_word(frame + 1));
    sequence.skip(SYNC);
}

// Writes the heads of all frames.
pub fn write_heads(bytes: &mut [u8], slots: u8, tmcc: &[u8; 64])
    requires { length bytes.old ≡ super_size slots }
    ensures heads { (frame i : ℕ) → frame < 8 → i < 12 → slice_index bytes.new (frame * frame_size slots + i) ≡ head_byte tmcc.now (frame + 1) i }
    ensures slots { (slot : ℕ) → slot < slots → SameSlot slots bytes.old bytes.new slot }
{
    let mut sequence = Sequence::new();
    for frame in 0..FRAMES {
        let start = frame_start(slots, frame);
        write_head(&mut bytes[start..start + HEAD], frame, tmcc, &mut sequence);
    }
}

// Frames without a slot, so that nothing but their heads is written.
const NO_SLOTS: u8 = 0;

// The heads of the eight frames of a super-frame that carries this TMCC word, one after the other.
pub fn frame_heads(tmcc: &[u8; 64]) -> [u8; 96]
    ensures { (frame i : ℕ) → frame < 8 → i < 12 → slice_index result (frame * 12 + i) ≡ head_byte tmcc.now (frame + 1) i }
{
    let mut bytes = [0; 96];
    write_heads(&mut bytes, NO_SLOTS, tmcc);
    bytes
}
