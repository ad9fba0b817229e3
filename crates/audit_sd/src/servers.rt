//! The servers of a recording: which are offered, with which major version, and which have ended (SOME/IP
//! Service Discovery Protocol, "Offer Service entry", "Stop Offer Service entry", "TTL"; SOME/IP Protocol,
//! "Service Instances").
//!
//! - [`ServerBook`]: what is known of each server, as [`Server`] has it, with its [`ServerState`];
//! - [`ServerOffer`]: what it is told of an Offer, with the [`ServerKey`] that it is of and what is [`Served`];
//! - [`ServerMessage`]: what it is told of a message; [`Finding`]: what this shows;
//! - [`laws`]: what the definitions behind the contracts promise.

mod finding;
mod key;
pub mod laws;
mod message;
mod offer;
mod server;
mod server_book;

pub use finding::Finding;
pub use key::ServerKey;
pub use message::ServerMessage;
pub use offer::{Served, ServerOffer};
pub use server::{Server, ServerState};
pub use server_book::ServerBook;
