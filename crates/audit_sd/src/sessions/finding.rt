//! What a message of Service Discovery shows.
use sd_session::Stamp;

/// What a message of Service Discovery shows.
#[derive(Clone, Copy, Debug, PartialEq, Eq)]
pub enum Finding {
    /// Its sender began again.
    Reboot,
    /// It is not the one after the last of its sender to its destination: one was lost, or it came
    /// twice, or the Reboot flag went before the sessions had wrapped.
    NotNext {
        /// The stamp that it has.
        stamp: Stamp,
        /// The stamp that the next message would have.
        expected: Stamp,
    },
    /// It has one of the 8 sessions before that of the last of its sender to its destination, with the same
    /// Reboot flag, and comes soon after it: that one overtook it.
    Overtaken {
        /// The stamp that it has.
        stamp: Stamp,
    },
    /// The book holds as many pairs of sender and destination as it may, so this one is not taken. It
    /// is told once in the life of a book.
    Full,
}
