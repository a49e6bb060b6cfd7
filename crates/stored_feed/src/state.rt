// What a stored feed keeps.
ghost use Rattle.std.specs.Prelude.{◌≡◌, ℕ, ◌<◌, ◌≤◌, length, slice_index};
ghost use Rattle.stored_feed.specs.Cursors.{next_of, left_of};
ghost use Rattle.stored_feed.specs.Files.{records, packets_from, RecordRule};

use feed::STREAMS;

// How far a stream has come in a packet file.
#[derive(Clone, Copy)]
pub(crate) struct Cursor {
    // the first record that was not yet passed over
    pub(crate) next: usize,
    // how many packets of the stream are left
    pub(crate) left: u16,
}

// A packet file, and how far each of eight streams has come in it.
#[derive(Drop)]
pub struct StoredFeed<'a> {
    // the records, which stay where they are
    pub(crate) file: &'a [u8],
    pub(crate) cursors: [Cursor; STREAMS],
    ghost streams: { length cursors ≡ 8 },
    ghost bytes: { (k : ℕ) → slice_index file.now k < 256 },
    ghost short: { records file.now ≤ 65535 },
    ghost sound: { (i : ℕ) → i < records file.now → RecordRule file.now i },
    ghost counted: { (r : ℕ) → slice_index (left_of cursors) r ≡ length (packets_from file.now r (slice_index (next_of cursors) r)) },
}
