// The packets that active slots carry.
ghost use Rattle.std.specs.Prelude.{◌≡◌, ℕ, length, drop, if◌then◌else◌, nat_eq, slice_index_or};
ghost use Rattle.modulator.specs.Carried.{null_packet};

use feed::{Feed, PACKET_BYTES, SYNC_BYTE};

// The packet that an active slot carries where none waits.
pub fn null_packet() -> [u8; PACKET_BYTES]
    ensures { result ≡ null_packet }
{
    let mut packet = [0xFF; PACKET_BYTES];
    packet[..4].copy_from_slice(&[SYNC_BYTE, 0x1F, 0xFF, 0x10]);
    packet
}

// Takes the stream's next packet, or the null packet where none waits.
pub(crate) fn next_packet<F: Feed>(feed: &mut F, stream: u8) -> [u8; PACKET_BYTES]
    ensures packet { result ≡ slice_index_or (F.Feed.lists feed.old stream) 0 null_packet }
    ensures size { length result ≡ 188 }
    ensures rest { (r : ℕ) → F.Feed.lists feed.new r ≡ drop (if nat_eq stream r then 1 else 0) (F.Feed.lists feed.old r) }
{
    let mut packet = null_packet();
    let _ = feed.take(stream, &mut packet);
    packet
}
