//! A point of a node's clock.
ghost use Rattle.std.specs.Prelude.{◌≡◌, ◌+◌, ◌<◌, ◌^◌};
ghost use Rattle.std.specs.Option.{SomeIff};

use std::marker::Model;

/// A point of a node's clock: the milliseconds since the node's start, at most 2^63 - 1. As a type,
/// so that a call that takes the clock has no condition on it. A contract sees the number.
#[derive(Clone, Copy, Debug, PartialEq, Eq, PartialOrd, Ord)]
pub struct Moment {
    millis: u64,
}

impl Model for Moment {
    ghost use Rattle.std.specs.Prelude.{ℕ, ◌<◌, ◌^◌};

    ghost Value = { ℕ };

    ghost view = { λ m. m.millis };

    ghost invariant = { λ m. m.millis < 2 ^ 63 };

    ghost inverse = { λ n. record { millis = n } };
}

impl Moment {
    /// The moment at which a node starts, or starts again.
    pub fn start() -> Moment
        ensures { result ≡ 0 }
    {
        Moment { millis: 0 }
    }

    /// The moment at this many milliseconds, unless it lies past the last moment, 2^63 - 1.
    pub fn new(millis: u64) -> Option<Moment>
        ensures { SomeIff result (millis < 2 ^ 63) millis }
    {
        if millis < 1 << 63 {
            Some(Moment { millis })
        } else {
            None
        }
    }

    /// The milliseconds since the start.
    pub fn as_millis(self) -> u64
        ensures value { result ≡ self }
        ensures bound { result < 2 ^ 63 }
    {
        self.millis
    }

    /// The moment this many milliseconds later, unless it lies past the last moment, 2^63 - 1.
    pub fn after(self, millis: u64) -> Option<Moment>
        ensures { SomeIff result (self + millis < 2 ^ 63) (self + millis) }
    {
        Moment::new(self.millis.checked_add(millis)?)
    }
}
