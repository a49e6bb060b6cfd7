// A super-frame taken apart: its TMCC word and its slots' words, with the sequence taken off.
ghost use Rattle.std.specs.Prelude.{◌≡◌, ℕ, ◌+◌, ◌/◌, ◌<◌, ◌≤◌, List, length, MatchResult, OnOk};
ghost use Rattle.dispersal.specs.Stages.{At};
ghost use Rattle.frame_layout.specs.Layout.{SuperFrame};
ghost use Rattle.super_frame.specs.Reads.{Lengths, Off, OffWords, TmccRead, Read, ReadBack, ReadWhole};

use crate::frames::Frames;
use crate::heads::{SYNC, TMCC, TMCC_START};
use crate::put::{UNSENT, put_dispersed};
use crate::taking::{SYNC_BYTE, WORD, take_words, words_size};
use dispersal::Sequence;
use frame_layout::frame_size;
use interleaver::WrongLength;

// Takes the sequence off a word.
fn take_off(words: &mut [u8], start: usize, sequence: &mut Sequence)
    requires { start + 204 ≤ length words.old }
    ensures off { (n : ℕ) → At sequence.old.window n → Off n start words.old words.new }
    ensures place { (n : ℕ) → At sequence.old.window n → At sequence.new.window (n + 204) }
{
    sequence.add(&mut words[start + UNSENT..start + WORD]);
    sequence.skip(UNSENT);
}

// Takes the sequence off all words. By their places, since of a slice that `chunks_exact_mut` or `as_chunks_mut` has lent out, or that is split
// in a loop, a proof knows only the length afterwards, so that each word is `Off` the sequence could not be proved.
fn take_sequence_off(words: &mut [u8])
    ensures { OffWords (length words.old / 204) words.old words.new }
{
    let mut sequence = Sequence::new();
    for number in 0..words.len() / WORD {
        take_off(words, WORD * number, &mut sequence);
    }
}

// Reads the TMCC bytes of the heads.
fn read_tmcc(frames: &Frames<'_, u8>, tmcc: &mut [u8; 64])
    ensures { TmccRead frames.now.slots frames.now.elements.now 8 tmcc.new }
{
    let mut sequence = Sequence::new();
    let size = frame_size(frames.slots);
    for (number, frame) in frames.elements.chunks_exact(size).enumerate() {
        put_dispersed(
            tmcc,
            TMCC * number,
            &frame[TMCC_START..TMCC_START + TMCC],
            &mut sequence,
        );
        sequence.skip(SYNC);
    }
}

// Reads the TMCC word and the words of all slots, joined frame by frame and slot by slot, from the bytes of a super-frame.
pub fn read(
    stream: &[u8],
    slots: u8,
    tmcc: &mut [u8; 64],
    words: &mut [u8],
) -> Result<(), WrongLength>
    ensures read { MatchResult result (λ _. Lengths slots stream.now words.old × Read slots stream.now tmcc.new words.new) (λ _. (Lengths slots stream.now words.old → ⊥) × (tmcc.new ≡ tmcc.old) × (words.new ≡ words.old)) }
    ensures back { OnOk result ((word : List ℕ) (sent : ℕ → ℕ → List ℕ) → SuperFrame slots word sent stream.now → ReadBack slots word sent tmcc.new words.new) }
    ensures whole { OnOk result (ReadWhole slots stream.now tmcc.new words.new) }
{
    let frames = Frames::new(stream, slots)?;
    if words.len() != words_size(slots) {
        return Err(WrongLength);
    }
    take_words(&frames, SYNC_BYTE, words);
    take_sequence_off(words);
    read_tmcc(&frames, tmcc);
    Ok(())
}
