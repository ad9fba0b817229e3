//! The offers of a recording: which stand, which moved, and which expired (SOME/IP Service Discovery
//! Protocol, "Offer Service entry", "Stop Offer Service entry", "TTL").
//!
//! - [`OfferBook`]: the offers that stand, each until its TTL has passed;
//! - [`OfferEntry`]: what it is told of an Offer or a StopOffer, with the [`OfferKey`] that it is of;
//! - [`Finding`]: what an entry shows; [`Expired`]: an offer whose TTL passed; [`Standing`]: one that
//!   stands;
//! - [`laws`]: what the definitions behind the contracts promise.

mod entry;
mod finding;
mod key;
pub mod laws;
mod offer_book;

pub use entry::{OfferEntry, Standing};
pub use finding::{Expired, Finding};
pub use key::OfferKey;
pub use offer_book::OfferBook;
