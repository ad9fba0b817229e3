//! What entries and events show.

/// What an entry or an event shows.
#[derive(Clone, Copy, Debug, PartialEq, Eq)]
pub enum Finding {
    /// An event went to an endpoint that has no subscription of its service at its server. It is told
    /// once for each event, until a Subscribe comes for the endpoint.
    Unsubscribed,
    /// The book holds as much as it may, so the subscription, or the event that was to be told, is not
    /// taken. It is told once in the life of a book, and from then on no event is told: it may be of a
    /// subscription that was not taken.
    Full,
}
