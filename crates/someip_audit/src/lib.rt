//! What a recording shows against the protocol, over the books of the kinds of findings.
//!
//! - [`Audit`]: what goes over a recording, over any body of `Reassembly`; [`AuditRules`]: its settings;
//! - [`sd_message`]: a message of Service Discovery as far as its sessions go, for whatever else goes over them;
//! - [`groups`]: findings of one group, of which the first three are told;
//! - [`Finding`]: what a datagram shows; [`FellDue`]: what falls due between datagrams;
//! - [`laws`]: the definitions behind the contracts, by example; [`cycle_laws`]: why an event is told as silent;
//!   [`loss_laws`]: what is told of sessions rests on few rules.
#![tactic(auto)]

mod any_message;
mod audit;
mod books;
pub mod cycle_laws;
mod datagram;
mod discovery;
mod entries;
mod expiry;
mod fell_due;
mod finding;
pub mod groups;
pub mod laws;
pub mod loss_laws;
mod messages;
mod rules;
mod soonest;
mod times;

pub use audit::Audit;
pub use entries::sd_message;
pub use fell_due::FellDue;
pub use finding::{Finding, ServiceInstance};
pub use rules::AuditRules;
