//! The command `services` of `someipctl`: who offered what in recordings and when, and which client was subscribed to
//! what.
//!
//! - [`show_services`]: prints the intervals of recordings; [`ServicesAsked`]: what of them is asked for.
//!
//! `account` gives each datagram to the history of `someip_services`, and prints what ended; `chosen` says which lines
//! are asked for; `lines` are their fields.
#![tactic(auto)]

mod account;
mod asked;
mod chosen;
mod lines;

pub use account::show_services;
pub use asked::ServicesAsked;
