//! Why an interval ended.

/// Why an offer or a subscription stands no more.
#[derive(Clone, Copy, Debug, PartialEq, Eq)]
pub enum Why {
    /// It still stands where the recording ends.
    Open,
    /// A StopOffer or a StopSubscribe came.
    Stopped,
    /// Its TTL has passed.
    Expired,
    /// One of those who keep it began again.
    Reboot,
    /// It is offered otherwise: by another endpoint, or with another minor version.
    Moved,
    /// A Nack came.
    Refused,
    /// The offer that it is a subscription to was stopped.
    Offer,
}
