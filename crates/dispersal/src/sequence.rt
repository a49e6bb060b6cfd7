// A place in the energy dispersal sequence.
ghost use Rattle.std.specs.Prelude.{ℕ, ◌^◌, ◌<◌};
ghost use Rattle.dispersal.specs.Stages.{At};

// The next fifteen bytes of the sequence as a number, the first byte highest.
#[derive(Drop)]
pub struct Sequence {
    pub(crate) window: u128,
    ghost room: { window < 2 ^ 120 },
    ghost reached: { ∥ ((n : ℕ) × At window n) ∥₁ },
}
