//! The commands `show`, `payload`, `encode` and `vectors` of `someipctl`: what each reads, does and prints, over
//! readers and writers; and what of it `recording` prints too.
//!
//! - [`show`]: the messages of a capture;
//! - [`services`]: the services whose datagrams are asked for;
//! - [`value_lines`]: an item of a datagram with the line of its value;
//! - [`readings`]: what a datagram holds for Service Discovery, item by item;
//! - [`payload`]: the value that bytes have by a shape; [`encode`]: the bytes of a value;
//! - [`vectors`]: whether what is printed is what a file expects;
//! - [`types`]: types files, and the line of the value of a message;
//! - [`comma_words`]: the words of an argument;
//! - [`read_capture`]: the datagrams of a capture;
//! - [`laws`]: what the definitions behind the contracts promise.
//!
//! The way of a capture: `capture` turns the lines into datagrams, or names the first bad line. `services`
//! says of each whether it is asked for. `readings` reads all payloads of Service Discovery, which takes
//! memory, before the first byte is written; `next_reading` takes them one by one as messages are printed.
//! `show` goes over the datagrams and their messages, and `value_lines` has the line of a value made by
//! `types`, into one text that is used again.
#![tactic(auto)]

mod capture;
pub mod encode;
pub mod laws;
pub mod payload;
pub mod readings;
pub mod services;
pub mod show;
pub mod types;
pub mod value_lines;
mod vector_lines;
pub mod vectors;
mod words;

pub use capture::{BadCaptureLine, read_capture};
pub use words::comma_words;
