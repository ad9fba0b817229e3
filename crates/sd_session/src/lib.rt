//! Sessions of Service Discovery (SOME/IP Service Discovery Protocol, "Session ID", "Reboot flag"
//! and "Detection of reboots").
//!
//! - [`Counter`]: the session and the Reboot flag of what a node sends;
//! - [`PeerTable`]: which peers were seen, and which of them began again;
//! - [`laws`]: what the definitions behind the contracts promise.
#![tactic(auto)]

mod counter;
mod error;
pub mod laws;
mod peers;
mod stamp;

pub use counter::Counter;
pub use error::SessionError;
pub use peers::{PeerTable, Seen};
pub use stamp::{Channel, Stamp};
