// Where the packets of a run come from.
use feed::STREAMS;

// A packet file, or the pattern with a count for each stream.
#[derive(Clone, Copy)]
pub enum Source<F> {
    File(F),
    Pattern([u16; STREAMS]),
}
