// The way along the sequence, a byte or eight bytes at a time.
ghost use Rattle.std.specs.Prelude.{◌≡◌, ℕ, ◌+◌, ◌*◌, ◌^◌, ◌<◌, ◌≤◌, length};
ghost use Rattle.dispersal.specs.Stages.{At, bits, sequence, added, Twice, Begins};

use crate::sequence::Sequence;

// The first fifteen bytes.
const FIRST: u128 = 0x03F6_0834_30B8_A393_C968_B773_B329_AA;

// How many bytes are taken at once where there are so many.
const GROUP: usize = 8;

// How many bits a byte has, and a window.
const BITS: usize = 8;

const WINDOW: usize = 120;

impl Sequence {
    // The sequence from its first byte on.
    pub fn new() -> Sequence
        ensures start { At result.window 0 }
        ensures begins { Begins }
    {
        Sequence { window: FIRST }
    }

    // The next bytes as a number, the first highest. As many enter the window behind it: the sums of these and the bytes one place further on.
    fn advance<const BYTES: usize>(&mut self) -> u128
        requires { BYTES ≤ 8 }
        ensures fits { result < 2 ^ (8 * BYTES) }
        ensures bytes { (n : ℕ) → At self.old.window n → result ≡ bits (8 * n) (8 * BYTES) }
        ensures place { (n : ℕ) → At self.old.window n → At self.new.window (n + BYTES) }
    {
        let taken = BITS * BYTES;
        let behind = WINDOW - taken;
        let first = self.window >> behind;
        let second = (self.window >> (behind - BITS)) % (1 << taken);
        let kept = self.window % (1 << behind);
        self.window = kept << taken | (first ^ second);
        first
    }

    // The next byte.
    #[tactic(auto, unfolding(crate::specs::Stages::sequence))]
    pub fn next(&mut self) -> u8
        ensures byte { (n : ℕ) → At self.old.window n → result ≡ sequence n }
        ensures place { (n : ℕ) → At self.old.window n → At self.new.window (n + 1) }
    {
        self.advance::<1>() as u8
    }

    // Adds the next eight bytes of the sequence to eight bytes.
    fn add_group(&mut self, group: &mut [u8])
        requires { length group.old ≡ 8 }
        ensures bytes { (n : ℕ) → At self.old.window n → group.new ≡ added n group.old }
        ensures place { (n : ℕ) → At self.old.window n → At self.new.window (n + 8) }
    {
        let eight = (self.advance::<GROUP>() as u64).to_be_bytes();
        // The eight by index, since nothing is known of the group after a `zip`.
        for (k, byte) in group.iter_mut().enumerate() {
            *byte ^= eight[k];
        }
    }

    // Adds the next bytes of the sequence to these, one after the other.
    fn add_each(&mut self, bytes: &mut [u8])
        ensures bytes { (n : ℕ) → At self.old.window n → bytes.new ≡ added n bytes.old }
        ensures place { (n : ℕ) → At self.old.window n → At self.new.window (n + length bytes.old) }
    {
        for byte in bytes.iter_mut() {
            *byte ^= self.next();
        }
    }

    // Adds the next bytes of the sequence to these, one to each.
    pub fn add(&mut self, bytes: &mut [u8])
        ensures bytes { (n : ℕ) → At self.old.window n → bytes.new ≡ added n bytes.old }
        ensures place { (n : ℕ) → At self.old.window n → At self.new.window (n + length bytes.old) }
        ensures twice { Twice }
    {
        // By index, since nothing is known of the bytes after `as_chunks_mut`.
        let groups = bytes.len() / GROUP;
        for group in 0..groups {
            self.add_group(&mut bytes[GROUP * group..GROUP * group + GROUP]);
        }
        self.add_each(&mut bytes[GROUP * groups..]);
    }

    // Passes over bytes of the sequence.
    pub fn skip(&mut self, count: usize)
        ensures { (n : ℕ) → At self.old.window n → At self.new.window (n + count) }
    {
        for _ in 0..count {
            self.next();
        }
    }
}
