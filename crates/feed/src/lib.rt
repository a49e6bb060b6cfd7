// A feed: packets that wait in eight streams, and are taken one by one.
#![tactic(auto)]

ghost use Rattle.std.specs.Prelude.{◌≡◌, false, length};
ghost use Rattle.feed.specs.Packets.{Lists, WellFormed};
ghost use Rattle.feed.specs.Takes.{Took};

// How many streams there are.
pub const STREAMS: usize = 8;

// How many bytes a packet has.
pub const PACKET_BYTES: usize = 188;

// The byte that every packet begins with.
pub const SYNC_BYTE: u8 = 0x47;

// A source of packets for the streams 0 to 7.
pub trait Feed {
    // The packets that wait in each stream, the next one first.
    ghost lists: { Self → Lists };

    // How many packets of the stream wait.
    fn waiting(&self, stream: u8) -> u16
        ensures count { result ≡ length (lists self.now stream) }
        ensures formed { WellFormed (lists self.now) };

    // Takes the stream's next packet into `to`, and says whether there was one.
    // A bool, since the packet goes into the caller's bytes and leaves nothing to hand back in an Option.
    fn take(&mut self, stream: u8, to: &mut [u8; PACKET_BYTES]) -> bool
        ensures took { Took (lists self.old) stream result (lists self.new) to.old to.new }
        ensures kept { result ≡ false → self.new ≡ self.old }
        ensures formed { WellFormed (lists self.old) };
}
