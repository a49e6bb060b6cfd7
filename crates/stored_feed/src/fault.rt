// Why bytes are no packet file.
ghost use Rattle.std.specs.Prelude.{◌≡◌};
ghost use Rattle.stored_feed.specs.Faults.{number};

#[derive(Clone, Copy, PartialEq, Eq, Debug)]
pub enum PacketFileFault {
    // the file is not whole records, or they are too many
    Length,
    // some record has no such stream number, or its packet does not begin with 47h
    Record,
}

impl PacketFileFault {
    // The refusal's number, as programs print it and callers from C get it.
    pub fn number(self) -> u8
        ensures { result ≡ number self }
    {
        match self {
            PacketFileFault::Length => 17,
            PacketFileFault::Record => 18,
        }
    }
}
