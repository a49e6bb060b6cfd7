// The words of a super-frame's slots, taken out of its bytes or out of the marks that came with them.
ghost use Rattle.std.specs.Prelude.{◌≡◌, ℕ, ◌<◌, ◌≢◌, ◌∷◌, length, MatchResult};
ghost use Rattle.interleaver.specs.declared.trust.TrustMark.TheVariants.{Sound};
ghost use Rattle.super_frame.specs.Reads.{words_size, word_place, Lengths, RowsPut, Taken, SameWords};

use crate::frames::Frames;
use frame_layout::{FRAMES, PART};
use interleaver::{Element, TrustMark, WrongLength, deinterleave};

// The elements of a word.
pub(crate) const WORD: usize = 204;

// The first byte of a packet.
pub(crate) const SYNC_BYTE: u8 = 0x47;

// Where a word begins among the words.
pub(crate) fn word_start(slots: u8, frame: u8, slot: u8) -> usize
    ensures { result ≡ word_place slots frame slot }
{
    WORD * (usize::from(frame) * usize::from(slots) + usize::from(slot))
}

// Puts a row of a block behind a first element.
fn put_row<T: Element>(row: &[T], first: T, word: &mut [T])
    requires { (length row.now ≡ 203) × (length word.old ≡ 204) }
    ensures { word.new ≡ first ∷ row.now }
{
    word[0] = first;
    word[1..].copy_from_slice(row);
}

// Puts the rows of a slot's block into its words.
fn put_rows<T: Element>(rows: &[T], slots: u8, slot: u8, first: T, words: &mut [T])
    requires { (length rows.now ≡ 1624) × (slot < slots) × (length words.old ≡ words_size slots) }
    ensures here { RowsPut T.Element.idle first slots slot 8 rows.now words.new }
    ensures others { (other : ℕ) → other < slots → other ≢ slot → SameWords T.Element.idle slots words.old words.new other }
{
    for (frame, row) in (0..FRAMES).zip(rows.chunks_exact(PART)) {
        let start = word_start(slots, frame, slot);
        put_row(row, first, &mut words[start..start + WORD]);
    }
}

// Takes the words of a slot, over two blocks to work in.
fn take_slot<T: Element>(
    frames: &Frames<'_, T>,
    slot: u8,
    first: T,
    words: &mut [T],
    block: &mut [T],
    rows: &mut [T],
)
    requires { (length words.old ≡ words_size frames.now.slots) × (slot < frames.now.slots) × (length block.old ≡ 1624) × (length rows.old ≡ 1624) }
    ensures here { Taken T.Element.idle first frames.now.slots frames.now.elements.now words.new slot }
    ensures others { (other : ℕ) → other < frames.now.slots → other ≢ slot → SameWords T.Element.idle frames.now.slots words.old words.new other }
{
    frames.gather(slot, block);
    let _ = deinterleave(block, rows);
    put_rows(rows, frames.slots, slot, first, words);
}

// Takes all words, the sequence still in them, each behind a first element that was not sent.
pub(crate) fn take_words<T: Element>(frames: &Frames<'_, T>, first: T, words: &mut [T])
    requires { length words.old ≡ words_size frames.now.slots }
    ensures { (slot : ℕ) → slot < frames.now.slots → Taken T.Element.idle first frames.now.slots frames.now.elements.now words.new slot }
{
    let mut block = [first; 1624];
    let mut rows = [first; 1624];
    for slot in 0..frames.slots {
        take_slot(frames, slot, first, words, &mut block, &mut rows);
    }
}

// How many elements all words have.
pub fn words_size(slots: u8) -> usize
    ensures { result ≡ words_size slots }
{
    WORD * (usize::from(FRAMES) * usize::from(slots))
}

// Takes the trust marks of words from those of received bytes. The first byte of a word, which is not sent, is Sound.
pub fn take_marks(
    stream: &[TrustMark],
    slots: u8,
    words: &mut [TrustMark],
) -> Result<(), WrongLength>
    ensures { MatchResult result (λ _. Lengths slots stream.now words.old × ((slot : ℕ) → slot < slots → Taken Sound Sound slots stream.now words.new slot)) (λ _. (Lengths slots stream.now words.old → ⊥) × (words.new ≡ words.old)) }
{
    let frames = Frames::new(stream, slots)?;
    if words.len() != words_size(slots) {
        return Err(WrongLength);
    }
    take_words(&frames, TrustMark::Sound, words);
    Ok(())
}
