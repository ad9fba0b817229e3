//! What the offers of a recording show.
use crate::offers::entry::Standing;
use crate::offers::key::OfferKey;

/// What an Offer shows.
#[derive(Clone, Copy, Debug, PartialEq, Eq)]
pub enum Finding {
    /// It came from another address, or with another endpoint, while an offer stood.
    Moved,
    /// The book holds as many offers as it may, so this one is not taken. It is told once in the life of
    /// a book.
    Full,
}

/// An offer whose TTL passed with no Offer, StopOffer or reboot before.
#[derive(Clone, Copy, Debug, PartialEq, Eq)]
pub struct Expired {
    /// The moment at which its TTL passed, in milliseconds.
    pub at: u64,
    /// What was offered.
    pub key: OfferKey,
    /// The offer.
    pub offer: Standing,
}
