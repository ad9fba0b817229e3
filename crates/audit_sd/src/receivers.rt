//! Who is subscribed in a recording, and which events go to one who is not (SOME/IP Service Discovery
//! Protocol, "Publish/Subscribe").
//!
//! - [`ReceiverBook`]: the subscriptions that stand, and the endpoints of which it was told that they
//!   have none;
//! - [`ReceiverEntry`]: what it is told of a Subscribe or its answer; [`WithdrawnOffer`]: of a StopOffer;
//!   [`Delivery`]: of an event that went to one endpoint;
//! - [`Finding`]: what these show;
//! - [`laws`]: what the definitions behind the contracts promise.
//!
//! What stands is in `standing`, which finds it by its `places`; several subscriptions end at once in `ending`.
//! What was told is in `told_events`, and found by where it went in `untelling`.

mod delivery;
mod ending;
mod entry;
mod event_end;
mod finding;
pub mod laws;
mod places;
mod receiver_book;
mod standing;
mod steps;
mod told_events;
mod untelling;

pub use delivery::Delivery;
pub use entry::{ReceiverEntry, WithdrawnOffer};
pub use finding::Finding;
pub use receiver_book::ReceiverBook;
