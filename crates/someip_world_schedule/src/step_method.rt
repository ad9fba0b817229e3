//! Method IDs.
ghost use Rattle.std.specs.Prelude.{◌≡◌, if◌then◌else◌, nat_lt, Some, None};

use std::marker::Model;

/// A Method ID: below 8000, since the top bit is that of events (SOME/IP Protocol, "Method ID").
/// Contracts see the number.
#[derive(Clone, Copy, Debug, PartialEq, Eq)]
pub struct MethodId(u16);

impl Model for MethodId {
    ghost use Rattle.std.specs.Prelude.{ℕ, ◌<◌};

    ghost Value = { ℕ };

    ghost view = { λ m. m.0 };

    ghost invariant = { λ m. m.0 < 0x8000 };

    ghost inverse = { λ n. record { 0 = n } };
}

impl MethodId {
    /// The method of this ID, if it is below 8000.
    pub fn new(id: u16) -> Option<MethodId>
        ensures { result ≡ (if nat_lt id 0x8000 then Some id else None) }
    {
        if id < 0x8000 {
            Some(MethodId(id))
        } else {
            None
        }
    }

    /// The ID.
    pub fn id(self) -> u16
        ensures { result ≡ self }
    {
        self.0
    }
}
