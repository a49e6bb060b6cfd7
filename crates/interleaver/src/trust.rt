// How far a received byte is trusted.
ghost use Rattle.interleaver.specs.declared.trust.TrustMark.TheVariants.{Sound};

use crate::element::Element;

// The mark that comes with a received byte; a level of doubt is carried unread.
#[derive(Clone, Copy, PartialEq, Eq, Debug)]
pub enum TrustMark {
    Sound,
    Doubtful(u8),
}

impl Element for TrustMark {
    ghost idle = { Sound };

    fn rest() -> TrustMark {
        TrustMark::Sound
    }
}
