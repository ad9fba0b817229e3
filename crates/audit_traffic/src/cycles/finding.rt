//! What events that come in cycles show.
use crate::events::EventFlow;
use someip_tables::hashed::Numbers;

/// What an event shows of its cycle at once.
#[derive(Clone, Copy, Debug, PartialEq, Eq)]
pub enum Finding {
    /// The book watches as many flows as it may, so this one is not watched. It is told once in the life of a
    /// book.
    Full,
}

/// An event that did not come for three cycles.
#[derive(Clone, Copy, Debug, PartialEq, Eq)]
pub struct SilentEvent {
    /// The moment until which it was awaited, in milliseconds.
    pub at: u64,
    /// The event, from its sender to one receiver.
    pub flow: EventFlow,
    /// For how many milliseconds it did not come then: three cycles.
    pub silent_ms: u64,
    /// The numbers of the datagram of the last one.
    pub numbers: Numbers,
}
