//! A node for a program in another language: it is made of the text of a setup and a node's name, and
//! what it gives is taken one after the other, in a plain record and a buffer of the caller.
//!
//! - [`CNode`]: a node, with what it gave and was not taken yet; [`started`] starts it;
//! - [`Outcome`]: how a call ended, and its number;
//! - [`OutputRecord`], with [`Endpoint`]: what a node gave, in plain numbers;
//! - [`OwnEndpoint`], with [`EndpointKind`]: where a node has sockets;
//! - [`config_in`], [`delays_in`], [`fault_of_setup`]: what a setup says, or why it is none; [`Delays`];
//! - [`log_setup`]: the setup to play the log of a node again with;
//! - [`value_text`] and [`value_bytes`]: payloads, as the texts of their values;
//! - [`put_text`], [`put_made`] and [`put_made_bytes`]: what goes to the front of a buffer of the caller;
//! - [`laws`]: what the numbers tell.
//!
//! There is no pointer in it: `someip_c` lends it to C.
#![tactic(auto)]

mod acting;
mod config;
mod drops;
mod endpoint;
mod fault_words;
pub mod laws;
mod log_rows;
mod log_tree;
mod logging;
mod node;
mod outcome;
mod own_endpoint;
mod payload_texts;
mod peers;
mod putting;
mod record;
mod record_of;
mod same_config;
mod starting;
mod telling;

pub use config::{Delays, config_in, delays_in};
pub use endpoint::Endpoint;
pub use fault_words::fault_of_setup;
pub use logging::log_setup;
pub use node::CNode;
pub use outcome::Outcome;
pub use own_endpoint::{EndpointKind, OwnEndpoint};
pub use payload_texts::{value_bytes, value_text};
pub use putting::{put_made, put_made_bytes, put_text};
pub use record::OutputRecord;
pub use starting::started;
