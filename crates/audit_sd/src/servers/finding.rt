//! What a message shows of its server.

/// What a message shows of its server.
#[derive(Clone, Copy, Debug, PartialEq, Eq)]
pub enum Finding {
    /// The server is offered with another major version than the message has.
    Interface {
        /// The major version of the newest Offer.
        expected: u8,
    },
    /// The message is a REQUEST, and the server has ended. It is told once, and then not again until the
    /// server is offered again.
    NotOffered,
}
