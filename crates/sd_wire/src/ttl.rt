//! How long an entry is valid (SOME/IP Service Discovery, "Entry Format").
ghost use Rattle.std.specs.Prelude.{◌≡◌, ◌<◌, ◌≤◌, ◌^◌, ◌↔◌, IsTrue, Some, None};

use std::marker::Model;

/// How long an entry is valid, in seconds: a number of 24 bits. The largest lasts until the next
/// reboot, and 0 ends what the entry offered.
///
/// Contracts see it as the number of seconds.
#[derive(Clone, Copy, Debug, PartialEq, Eq, PartialOrd, Ord)]
pub struct Ttl(u32);

impl Model for Ttl {
    ghost use Rattle.std.specs.Prelude.{ℕ, ◌^◌, ◌<◌};

    ghost Value = { ℕ };

    ghost view = { λ t. t.0 };

    ghost invariant = { λ t. t.0 < 2 ^ 24 };

    ghost inverse = { λ n. record { 0 = n } };
}

impl Ttl {
    /// 0: what the entry is about ends.
    pub const ZERO: Ttl = Ttl(0);

    /// FFFFFF: until the next reboot of the sender.
    pub const UNTIL_REBOOT: Ttl = Ttl(0xff_ffff);

    /// So many seconds, if they fit 24 bits.
    pub fn new(seconds: u32) -> Option<Ttl>
        ensures some { seconds < 2 ^ 24 → result ≡ Some seconds }
        ensures none { 2 ^ 24 ≤ seconds → result ≡ None }
    {
        if seconds < 0x100_0000 {
            Some(Ttl(seconds))
        } else {
            None
        }
    }

    /// Whether it is 0.
    pub fn is_zero(self) -> bool
        ensures { IsTrue result ↔ (self ≡ 0) }
    {
        self == Ttl::ZERO
    }

    /// Whether it lasts until the next reboot of the sender.
    pub fn is_until_reboot(self) -> bool
        ensures { IsTrue result ↔ (self ≡ 0xff_ffff) }
    {
        self == Ttl::UNTIL_REBOOT
    }

    /// The number of a field of 24 bits.
    pub(crate) fn from_field(number: u32) -> Ttl
        requires { number < 2 ^ 24 }
        ensures { result ≡ number }
    {
        Ttl(number)
    }

    /// The seconds; hex FFFFFF stands for no end.
    pub fn seconds(self) -> u32
        ensures value { result ≡ self }
        ensures fits { self < 2 ^ 24 }
    {
        self.0
    }
}
