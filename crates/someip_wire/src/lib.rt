//! SOME/IP messages on the wire: a datagram's bytes are read into messages and the fault that ends
//! them, if there is one, and a message is written. Nothing here takes memory: a payload stays where
//! the datagram lies.
//!
//! - [`Header`], [`MessageType`], [`ReturnCode`]: the 16 bytes in front of a payload;
//! - [`Message`] and [`read_message`]: the message that bytes begin with;
//! - [`Messages`]: all messages of a datagram, one after the other, and its end;
//! - [`written_len`] and [`write_message`]: the bytes of a message; [`header_bytes`]: those of its
//!   header alone;
//! - [`laws`]: what the definitions behind the contracts promise, whatever code reads them.
#![tactic(auto)]

mod datagram;
mod error;
mod header;
pub mod laws;
mod message;
mod writing;

pub use datagram::Messages;
pub use error::WireError;
pub use header::{Header, MessageType, ReturnCode};
pub use message::{Message, read_message};
pub use writing::{header_bytes, write_message, written_len};
