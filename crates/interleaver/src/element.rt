// What a block is made of: elements of a kind of which one stands for rest.
ghost use Rattle.std.specs.Prelude.{◌≡◌};

// The byte that rests.
const REST: u8 = 0;

// A kind of element that names its rest element.
// Not `Default`, which says only what holds of a default value, since clauses cite the rest element itself.
pub trait Element: Copy + Drop {
    ghost idle: { Self };

    fn rest() -> Self
        ensures { result ≡ idle };
}

impl Element for u8 {
    ghost idle = { 0 };

    fn rest() -> u8 {
        REST
    }
}
