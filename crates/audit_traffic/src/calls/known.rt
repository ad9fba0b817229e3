//! What is known of a call.
ghost use Rattle.std.specs.Prelude.{◌≡◌};
ghost use Rattle.audit_traffic.specs.calls.KnownCalls.{known_at};

use crate::calls::excerpt::Excerpt;
use someip_tables::hashed::Numbers;

/// A call that waits for its answer.
#[derive(Clone, Copy)]
pub(crate) struct OpenCall {
    /// The numbers of the datagram with its REQUEST.
    pub(crate) numbers: Numbers,
    /// The moment of its REQUEST, in milliseconds.
    pub(crate) since: u64,
    /// Its deadline, in milliseconds.
    pub(crate) until: u64,
    /// What is kept of its payload.
    pub(crate) excerpt: Excerpt,
}

/// What is known of a call.
#[derive(Clone, Copy)]
pub(crate) enum Known {
    /// It waits for its answer.
    Open(OpenCall),
    /// It was told as unanswered, and its REQUEST was at this moment, in milliseconds.
    Overdue(u64),
    /// It was answered, and is known until this moment, in milliseconds.
    Answered(u64),
}

/// What is known of a call at a moment: one whose deadline has come is overdue, and one that was
/// answered is known until its moment alone.
pub(crate) fn known_at(now: u64, known: Option<Known>) -> Option<Known>
    ensures { result ≡ known_at now known }
{
    match known? {
        Known::Open(call) => {
            if call.until <= now {
                Some(Known::Overdue(call.since))
            } else {
                Some(Known::Open(call))
            }
        }
        Known::Overdue(since) => Some(Known::Overdue(since)),
        Known::Answered(until) => {
            if until <= now {
                None
            } else {
                Some(Known::Answered(until))
            }
        }
    }
}
