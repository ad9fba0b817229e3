//! What the Subscribes of a recording show.
use crate::subscriptions::key::SubscriptionKey;
use someip_tables::hashed::Origin;

/// What an entry of an eventgroup shows.
#[derive(Clone, Copy, Debug, PartialEq, Eq)]
pub enum Finding {
    /// The server refused the subscription.
    Nack,
    /// An Ack comes, and every Subscribe of its subscription has had its answer.
    UnaskedAck,
    /// A Nack comes, and every Subscribe of its subscription has had its answer.
    UnaskedNack,
    /// The book holds as many Subscribes as it may, so this one is not taken. It is told once in the
    /// life of a book.
    Full,
}

/// A Subscribe that had no answer in time.
#[derive(Clone, Copy, Debug, PartialEq, Eq)]
pub struct Unanswered {
    /// The moment until which it waited, in milliseconds.
    pub at: u64,
    /// The subscription.
    pub key: SubscriptionKey,
    /// The datagram that it came in.
    pub origin: Origin,
}
