//! The Subscribes of a recording: which were refused, which had no answer in time, and which answers
//! nobody asked for (SOME/IP Service Discovery Protocol, "Subscribe Eventgroup entry", "Subscribe
//! Eventgroup Acknowledgement entry").
//!
//! - [`SubscribeBook`]: the Subscribes that wait for their answer, and how many answers are owed;
//! - [`SubscribeEntry`]: what it is told of a Subscribe or its answer, with the [`SubscriptionKey`] that it
//!   is of, and its [`EntryKind`];
//! - [`Finding`]: what an entry shows; [`Unanswered`]: a Subscribe without an answer;
//! - [`laws`]: what the definitions behind the contracts promise.

mod entry;
mod finding;
mod key;
pub mod laws;
mod owed;
mod subscribe_book;

pub use entry::{Asked, EntryKind, SubscribeEntry};
pub use finding::{Finding, Unanswered};
pub use key::SubscriptionKey;
pub use owed::Owed;
pub use subscribe_book::SubscribeBook;
