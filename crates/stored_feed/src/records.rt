// The records of a packet file: their checks, and where they stand.
ghost use Rattle.std.specs.Prelude.{◌≡◌, ℕ, ◌<◌, length, Decides, MatchResult, slice_index};
ghost use Rattle.stored_feed.specs.Files.{records, packet_at, packets_from, RecordRule};
ghost use Rattle.stored_feed.specs.Rules.{Refused, Valid};
ghost use Rattle.stored_feed.specs.Searches.{Next};

use crate::fault::PacketFileFault;
use feed::{PACKET_BYTES, STREAMS, SYNC_BYTE};

// How many bytes a record has: a stream number and a packet.
const RECORD_BYTES: usize = 1 + PACKET_BYTES;

// The most records that a file may have.
const MOST_RECORDS: usize = 65_535;

// The first record of the stream from record `from` on.
pub(crate) fn find(file: &[u8], stream: u8, from: usize) -> Option<usize>
    ensures { Next file.now stream from result }
{
    let (records, _) = file.as_chunks::<RECORD_BYTES>();
    (from..records.len()).find(|i| records[*i][0] == stream)
}

// The packet of a record.
pub(crate) fn packet(file: &[u8], i: usize) -> &[u8]
    requires { i < records file.now }
    ensures value { result.now ≡ packet_at file.now i }
    ensures size { length result.now ≡ 188 }
{
    let (records, _) = file.as_chunks::<RECORD_BYTES>();
    let record = &records[i][..];
    &record[1..]
}

// Whether each record has a stream number and a packet.
fn are_sound(file: &[u8]) -> bool
    ensures { Decides result ((i : ℕ) → i < records file.now → RecordRule file.now i) }
{
    let (records, _) = file.as_chunks::<RECORD_BYTES>();
    records.iter().all(|[stream, sync, ..]| (*stream as usize) < STREAMS && *sync == SYNC_BYTE)
}

// The checks in their order, up to the first that fails.
pub(crate) fn check(file: &[u8]) -> Result<(), PacketFileFault>
    ensures { MatchResult result (λ _. Valid file.now) (λ e. Refused file.now e) }
{
    let (records, rest) = file.as_chunks::<RECORD_BYTES>();
    if !rest.is_empty() || records.len() > MOST_RECORDS {
        return Err(PacketFileFault::Length);
    }
    if !are_sound(file) {
        return Err(PacketFileFault::Record);
    }
    Ok(())
}

// How many packets each stream has in a packet file.
pub(crate) fn count(file: &[u8]) -> [u16; STREAMS]
    requires { Valid file.now }
    ensures streams { length result ≡ 8 }
    ensures counted { (r : ℕ) → slice_index result r ≡ length (packets_from file.now r 0) }
{
    let mut counts = [0; STREAMS];
    let (records, _) = file.as_chunks::<RECORD_BYTES>();
    for [stream, ..] in records {
        counts[*stream as usize] += 1;
    }
    counts
}
