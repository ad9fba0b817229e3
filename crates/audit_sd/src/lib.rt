//! What Service Discovery shows in a recording, a book for each kind:
//!
//! - [`sessions`]: which sender began again, which message is not the next one, and which was overtaken;
//! - [`offers`]: which offer moved, and which expired;
//! - [`subscriptions`]: which Subscribe was refused or stayed without an answer, and which answer nobody
//!   asked for;
//! - [`receivers`]: which event goes to an endpoint that has no subscription;
//! - [`servers`]: which message has another version than its server offers, and which REQUEST goes to a
//!   server that is offered no more.
#![tactic(auto)]

pub mod offers;
pub mod receivers;
pub mod servers;
pub mod sessions;
pub mod subscriptions;
