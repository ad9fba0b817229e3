//! What payloads of messages are read by: a types file names, for messages of a service, a method or
//! event and a type, the shape that their payload has. With it the line of the value of a message is
//! made, which `someipctl show` and `recording` print after the line of the message. Its shapes may use names,
//! which the file gives to shapes as well.
//!
//! - [`MessageTypes`]: a types file; its line of the value of a message;
//! - [`TypesError`]: why a text is no types file, and where; [`KeyError`]: why a part of it says nothing;
//! - [`read_types`]: a types file from a reader; [`TypesRefusal`]: that it is refused, and why;
//! - [`laws`]: what the definitions behind the contracts promise.

mod error;
mod index;
mod key_error;
mod keys;
pub mod laws;
mod message_key;
mod message_types;
mod names;
mod reading;
mod references;
mod shape_parts;
mod tables;
mod typed_message;
mod unknown;
mod value_fields;
mod value_line;
mod value_object;

pub use error::{TypesError, TypesRefusal};
pub use key_error::KeyError;
pub use message_types::MessageTypes;
pub use reading::read_types;
pub use unknown::first_unknown;
