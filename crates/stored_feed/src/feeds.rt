// The stored feed as a feed.
ghost use Rattle.std.specs.Prelude.{◌≡◌, ℕ, []};
ghost use Rattle.stored_feed.specs.Opens.{Opened};
ghost use Rattle.stored_feed.specs.Pending.{pending};

use crate::fault::PacketFileFault;
use crate::records;
use crate::state::{Cursor, StoredFeed};
use feed::{Feed, PACKET_BYTES, STREAMS};

impl<'a> StoredFeed<'a> {
    // The feed of no packets.
    pub fn empty() -> StoredFeed<'a>
        ensures { (r : ℕ) → pending result r ≡ [] }
    {
        StoredFeed {
            file: &[],
            cursors: [Cursor { next: 0, left: 0 }; STREAMS],
        }
    }

    // The feed of the file's packets, or the first check that the file does not pass.
    pub fn open(file: &'a [u8]) -> Result<StoredFeed<'a>, PacketFileFault>
        ensures { Opened file.now result }
    {
        records::check(file)?;
        Ok(StoredFeed {
            file,
            cursors: records::count(file).map(|left| Cursor { next: 0, left }),
        })
    }
}

impl<'a> Feed for StoredFeed<'a> {
    ghost lists = { pending };

    fn waiting(&self, stream: u8) -> u16 {
        self.cursors
            .get(stream as usize)
            .map_or(0, |cursor| cursor.left)
    }

    fn take(&mut self, stream: u8, to: &mut [u8; PACKET_BYTES]) -> bool {
        if self.waiting(stream) == 0 {
            return false;
        }
        let Cursor { next, left } = self.cursors[stream as usize];
        let Some(found) = records::find(self.file, stream, next) else {
            unreachable()
        };
        to.copy_from_slice(records::packet(self.file, found));
        self.cursors[stream as usize] = Cursor {
            next: found + 1,
            left: left - 1,
        };
        true
    }
}
