//! Until when something lasts.
//!
//! A deadline is a number and no moment: it may lie past the last moment, and is then never passed by a
//! clock.
ghost use Rattle.std.specs.Prelude.{◌≡◌, ◌+◌};
ghost use Rattle.someip_tables.specs.Deadlines.{deadline_after, has_passed};

use crate::moment::Moment;

/// The TTL of an entry of Service Discovery that lasts until the next reboot (SOME/IP Service
/// Discovery Protocol, "TTL").
pub const TTL_FOREVER: u32 = 0xFF_FFFF;

/// Until when something lasts.
#[derive(Clone, Copy, Debug, PartialEq, Eq, PartialOrd, Ord)]
pub enum Deadline {
    /// Until this many milliseconds after the node's start: at that moment it has passed. It may lie
    /// past the last [`Moment`].
    At(u64),
    /// For ever.
    Never,
}

impl Deadline {
    /// The deadline of what comes at `now` with a TTL in seconds: [`TTL_FOREVER`] never passes
    /// (SOME/IP Service Discovery Protocol, "TTL").
    pub fn after_ttl(now: Moment, ttl: u32) -> Deadline
        ensures { result ≡ deadline_after now ttl }
    {
        if ttl == TTL_FOREVER {
            Deadline::Never
        } else {
            Deadline::At(now.as_millis() + 1000 * u64::from(ttl))
        }
    }

    /// The deadline this many milliseconds after `now`.
    pub fn after_millis(now: Moment, millis: u32) -> Deadline
        ensures { result ≡ Deadline.At (now + millis) }
    {
        Deadline::At(now.as_millis() + u64::from(millis))
    }

    /// Whether the deadline has passed: it has from its own moment on.
    pub fn has_passed(self, now: Moment) -> bool
        ensures { result ≡ has_passed now self }
    {
        match self {
            Deadline::At(millis) => millis <= now.as_millis(),
            Deadline::Never => false,
        }
    }
}
