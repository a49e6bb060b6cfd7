// How many bytes a frame and a super-frame have.
ghost use Rattle.std.specs.Prelude.{◌≡◌, ◌+◌, ◌*◌};
ghost use Rattle.frame_layout.specs.Layout.{frame_size, super_size};

// The bytes of a frame's head, and of a slot's part of a frame.
pub const HEAD: usize = 12;

pub const PART: usize = 203;

// How many frames a super-frame has.
pub const FRAMES: u8 = 8;

// The bytes of a frame.
pub fn frame_size(slots: u8) -> usize
    ensures size { result ≡ frame_size slots }
    ensures value { result ≡ 12 + 203 * slots }
{
    HEAD + PART * usize::from(slots)
}

// The bytes of a super-frame.
pub fn super_frame_size(slots: u8) -> usize
    ensures size { result ≡ super_size slots }
    ensures value { result ≡ 8 * (12 + 203 * slots) }
    ensures known { (super_size 1 ≡ 1720) × (super_size 48 ≡ 78048) }
{
    FRAMES as usize * frame_size(slots)
}
