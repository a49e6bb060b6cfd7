// The order of change: five bits of the TMCC that step on when a plan takes the place of another.
ghost use Rattle.std.specs.Prelude.{◌≡◌, ◌+◌, ◌%◌, ◌<◌, ◌≤◌, MatchOption};

// The first number that five bits cannot hold.
const ORDERS: u8 = 32;

// One of the 32 orders of change.
#[derive(Clone, Copy, PartialEq, Eq, Debug)]
pub struct Order {
    value: u8,
    ghost fits: { value < 32 },
}

impl Order {
    // The order of change with this number, which is 0 to 31, and none for any other, as NonZeroU8::new has it: there is no more to say of another.
    pub fn new(value: u8) -> Option<Order>
        ensures { MatchOption result (32 ≤ value) (λ o. o.value ≡ value) }
    {
        if value < ORDERS {
            Some(Order { value })
        } else {
            None
        }
    }

    // The order of change of a plan that is the first.
    pub fn first() -> Order
        ensures { result.value ≡ 0 }
    {
        Order { value: 0 }
    }

    // The next order of change: 0 comes after 31.
    pub fn next(self) -> Order
        ensures { result.value ≡ (self.value + 1) % 32 }
    {
        Order {
            value: (self.value + 1) % ORDERS,
        }
    }

    // Its number.
    pub fn value(self) -> u8
        ensures value { result ≡ self.value }
        ensures bound { result < 32 }
    {
        self.value
    }
}
