//! An event that came, as far as its session goes.
use crate::events::flow::EventFlow;

/// An event that came, as far as its session goes. One in segments came with the last of them.
#[derive(Clone, Copy, Debug, PartialEq, Eq)]
pub struct Notification {
    /// Which event it is, from whom, and to whom.
    pub flow: EventFlow,
    /// Its session: 0 where its sender counts none, else 1 to FFFF.
    pub session: u16,
}
