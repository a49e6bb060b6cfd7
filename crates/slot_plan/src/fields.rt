// How many lines a plan has.
pub const LINES: u8 = 4;

// The most slots that a frame can have, and the number of stream numbers in the TMCC.
pub const MOST_SLOTS: u8 = 48;

// A line's mode word and its slot count, before any rule is checked.
#[derive(Clone, Copy, PartialEq, Eq, Debug)]
pub struct LineNumbers {
    pub word: u8,
    pub count: u8,
}

// The numbers that a plan is made of, as a plan file or the TMCC states them, before any rule is checked.
#[derive(Clone, Copy, PartialEq, Eq, Debug)]
pub struct Fields {
    // slots in a frame
    pub slots: u8,
    // the mode word of each line, and how many slots it takes
    pub lines: [LineNumbers; 4],
    // the stream number of each slot, 0 for a slot beyond the frame
    pub streams: [u8; 48],
    // the TS_ID of each stream
    pub ts_ids: [u16; 8],
    // five control bits, carried unread
    pub control: u8,
    // 62 expanded bits, carried unread
    pub expanded: u64,
}
