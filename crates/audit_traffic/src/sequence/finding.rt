//! What the session of an event shows.

/// What the session of an event shows.
#[derive(Clone, Copy, Debug, PartialEq, Eq)]
pub enum Finding {
    /// It is that of the last event of its flow: the event came twice.
    Repeated,
    /// It was missing: a later event came first.
    Overtaken,
    /// As many flows are held as may be, so this one is not taken. It is told once in the life of a book, and
    /// from then on no session is seen to be missing.
    EventsFull,
    /// There is no room for the sessions that are missing before it, so they are not taken. It is told once in
    /// the life of a book.
    GapsFull,
}
