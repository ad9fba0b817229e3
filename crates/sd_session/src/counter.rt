//! The sessions of what a node sends.
ghost use Rattle.std.specs.Prelude.{◌≡◌};
ghost use Rattle.sd_session.specs.Sessions.{first, following};

use crate::stamp::Stamp;
use std::marker::Model;

/// The sessions that a node gives its messages to one receiver: its multicast messages have a counter
/// of their own, and those to each peer. A contract sees the stamp of the next message.
#[derive(Clone, Copy, Debug, PartialEq, Eq)]
pub struct Counter {
    next: Stamp,
}

impl Model for Counter {
    ghost use Rattle.std.specs.Prelude.{◌≤◌};
    ghost use Rattle.sd_session.specs.declared.stamp.Stamp.{Stamp};

    ghost Value = { Stamp };

    ghost view = { λ c. c.next };

    ghost invariant = { λ c. 1 ≤ c.next.session };

    ghost inverse = { λ stamp. record { next = stamp } };
}

impl Counter {
    /// A counter that was not used: its first session is 1, with the Reboot flag.
    pub fn new() -> Counter
        ensures { result ≡ first }
    {
        Counter {
            next: Stamp {
                session: 1,
                reboot: true,
            },
        }
    }

    /// The session and the Reboot flag of the next message. After session FFFF comes 1, and from then
    /// on the flag is not set.
    pub fn next(&mut self) -> (u16, bool)
        ensures session { result.0 ≡ self.old.session }
        ensures reboot { result.1 ≡ self.old.reboot }
        ensures counts { self.new ≡ following self.old }
    {
        let Stamp { session, reboot } = self.next;
        self.next = if session == 0xffff {
            Stamp {
                session: 1,
                reboot: false,
            }
        } else {
            Stamp {
                session: session + 1,
                reboot,
            }
        };
        (session, reboot)
    }
}
