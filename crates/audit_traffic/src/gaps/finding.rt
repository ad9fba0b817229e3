//! What sessions that are missing show.
use crate::events::EventFlow;
use crate::gaps::key::MissingEvent;
use someip_tables::hashed::Numbers;

/// What a gap shows at once.
#[derive(Clone, Copy, Debug, PartialEq, Eq)]
pub enum Finding {
    /// The book holds so many sessions that those of this gap have no room, so none of them is taken. It is
    /// told once in the life of a book.
    Full,
}

/// A session of an event that did not come in time, or a run of them.
#[derive(Clone, Copy, Debug, PartialEq, Eq)]
pub struct LostEvent {
    /// The moment until which it might come, in milliseconds.
    pub at: u64,
    /// The session, or the run.
    pub key: MissingEvent,
    /// The event that skipped it.
    pub shown_by: EventFlow,
    /// The numbers of that event's datagram.
    pub numbers: Numbers,
}
