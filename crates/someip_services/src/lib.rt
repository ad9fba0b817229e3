//! Who offered what in a recording and when, and which client was subscribed to what: the way from messages of Service
//! Discovery to intervals.
//!
//! - [`ServiceHistory`]: takes the datagrams of a recording, and says what ended; [`HistoryRules`]: its settings;
//! - [`Told`]: an offer or a subscription that ended, or that there is no room for more; [`FullBook`];
//! - [`laws`]: what is told of a recording.
#![tactic(auto)]

mod entries;
mod history;
pub mod laws;
mod messages;
mod told;

pub use history::{HistoryRules, ServiceHistory};
pub use told::{FullBook, Told};
