//! Which endpoints the Offers and Subscribes of a recording name, and which of its datagrams are looked at for them
//! (SOME/IP Service Discovery Protocol, "IPv4 Endpoint Option").
//!
//! - [`Watched`]: at which ports and endpoints datagrams are looked at, by [`WatchRules`]; [`Finding`]: that no more
//!   endpoints are learnt;
//! - [`Learner`]: the same for whatever only has to know which datagrams are looked at;
//! - [`is_sd`], [`is_at_discovery`], [`read_payload`]: messages of Service Discovery; [`is_offer`], [`named_endpoint`]:
//!   their entries.
#![tactic(auto)]

mod discovery;
mod entries;
mod finding;
mod learner;
mod watched;

pub use discovery::{is_at_discovery, is_sd, read_payload};
pub use entries::{is_offer, named_endpoint};
pub use finding::Finding;
pub use learner::Learner;
pub use watched::{WatchRules, Watched};
