//! What events show.

/// What an event shows.
#[derive(Clone, Copy, Debug, PartialEq, Eq)]
pub enum Finding {
    /// It has the session of the last one of its flow: it came twice.
    Repeated,
    /// It has a session up to 64 behind that of the last one of its flow, which stays the last: it was
    /// overtaken, or came twice.
    Behind,
    /// Events before it are missing: it has neither the session of the last one of its flow nor the next
    /// one, nor one behind, and those between went neither to nobody nor to another receiver.
    Gap {
        /// The session that it has.
        session: u16,
        /// The session after that of the last one.
        expected: u16,
    },
    /// The book holds as many flows as it may, of all or of the event, so this one is not taken. It is told once in the life of a
    /// book, and from then on no gap is told: an event of a flow that was not taken is not seen as got by
    /// another receiver.
    Full,
}
