//! Sessions of an event that an event after them skips.
ghost use Rattle.std.specs.Prelude.{◌≡◌};
ghost use Rattle.audit_traffic.specs.gaps.GapRules.{missing_count, session_before};
ghost use Rattle.audit_traffic.specs.gaps.GapTables.{is_wide, key_count};

use crate::events::{EventFlow, ahead};
use someip_tables::hashed::Numbers;

/// The most sessions of one gap that wait each by itself: more wait as one run.
const MOST_SINGLE: u16 = 64;

/// Sessions of an event that an event after them skips, and that went neither to nobody nor to another
/// receiver.
#[derive(Clone, Copy, Debug, PartialEq, Eq)]
pub struct Gap {
    /// The flow whose sessions these are.
    pub flow: EventFlow,
    /// The event that skips them.
    pub shown_by: EventFlow,
    /// The numbers of its datagram.
    pub numbers: Numbers,
    /// The first of them: the one after that of the last event.
    pub first: u16,
    /// The session of the event that skips them.
    pub session: u16,
}

impl Gap {
    /// How many sessions are missing.
    pub fn count(&self) -> u16
        ensures { result ≡ missing_count self.now }
    {
        ahead(self.first, self.session)
    }

    /// Whether these are more than wait each by itself.
    pub fn is_wide(&self) -> bool
        ensures { result ≡ is_wide self.now }
    {
        MOST_SINGLE < self.count()
    }

    /// How many keys they take: a run that is too long takes one.
    pub fn key_count(&self) -> u16
        ensures { result ≡ key_count self.now }
    {
        if self.is_wide() { 1 } else { self.count() }
    }

    /// The last of them: the session before that of the event that skips them.
    pub fn last(&self) -> u16
        ensures { result ≡ session_before self.now.session }
    {
        if self.session <= 1 {
            0xffff
        } else {
            self.session - 1
        }
    }
}
