// Kinds of word: how long they are, what they may begin with, and how they are refused.
ghost use Rattle.std.specs.Prelude.{◌≡◌, ℕ, ◌+◌, ◌≤◌, Decides};
ghost use Rattle.outer_code.specs.Kinds.{Any, Sync};
ghost use Rattle.std.proofs.Common.{rules};

// A kind of word: data, then sixteen check bytes.
pub trait WordKind {
    const LENGTH: usize;

    const DATA_LENGTH: usize;

    // the number of the refusal of a word that cannot be corrected
    const REFUSAL: u8;

    ghost LENGTH: { ℕ };

    ghost DATA_LENGTH: { ℕ };

    ghost REFUSAL: { ℕ };

    // the bytes that a word of this kind may begin with
    ghost permitted: { ℕ → Type 0 };

    fn permits(first: u8) -> bool
        ensures { Decides result (permitted first) };

    ghost checks: { LENGTH ≡ DATA_LENGTH + 16 };

    ghost begun: { 1 ≤ DATA_LENGTH };

    ghost short: { LENGTH ≤ 255 };
}

// The first byte of a slot word.
const SYNC: u8 = 0x47;

// The word of a slot: a packet and its check bytes.
pub struct SlotWord;

impl WordKind for SlotWord {
    const LENGTH: usize = 204;

    const DATA_LENGTH: usize = 188;

    const REFUSAL: u8 = 16;

    ghost LENGTH = { 204 };

    ghost DATA_LENGTH = { 188 };

    ghost REFUSAL = { 16 };

    ghost permitted = { Sync };

    ghost checks = { Prim.search rules };

    ghost begun = { Prim.search rules };

    ghost short = { Prim.search rules };

    fn permits(first: u8) -> bool {
        first == SYNC
    }
}

// The word that carries the TMCC data.
pub struct TmccWord;

impl WordKind for TmccWord {
    const LENGTH: usize = 64;

    const DATA_LENGTH: usize = 48;

    const REFUSAL: u8 = 14;

    ghost LENGTH = { 64 };

    ghost DATA_LENGTH = { 48 };

    ghost REFUSAL = { 14 };

    ghost permitted = { Any };

    ghost checks = { Prim.search rules };

    ghost begun = { Prim.search rules };

    ghost short = { Prim.search rules };

    fn permits(_first: u8) -> bool {
        true
    }
}
