//! What is told of offers and subscriptions.
use audit_services::{Ended, NoTerms, OfferTerms, Offered, Subscribed};

/// What can be full.
#[derive(Clone, Copy, Debug, PartialEq, Eq)]
pub enum FullBook {
    /// What is offered.
    Offers,
    /// Who is subscribed.
    Subscriptions,
    /// The sessions of Service Discovery from one address to another: of one more no reboot is seen.
    Sessions,
}

/// What is told of offers and subscriptions.
#[derive(Clone, Copy, Debug, PartialEq, Eq)]
pub enum Told {
    /// An offer ended.
    Offer(Ended<Offered, OfferTerms>),
    /// A subscription ended.
    Subscription(Ended<Subscribed, NoTerms>),
    /// There is no room for one more. It is told once.
    Full(FullBook),
}
