// The bytes of a test packet.
ghost use Rattle.std.specs.Prelude.{◌≡◌};
ghost use Rattle.pattern_feed.specs.Patterns.{pattern};

use feed::{PACKET_BYTES, SYNC_BYTE};

// Writes packet `number` of the stream.
pub(crate) fn write_packet(stream: u8, number: u16, to: &mut [u8; PACKET_BYTES])
    ensures { to.new ≡ pattern stream number }
{
    let [high, low] = number.to_be_bytes();
    to.fill(low);
    to[..6].copy_from_slice(&[SYNC_BYTE, 0x01, stream, 0x10 + low % 16, high, low]);
}
