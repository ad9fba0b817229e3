//! Recordings of packets, written as pcapng.
//!
//! - [`PacketWriter`]: writes packets, one after the other, as one section whose interfaces count
//!   nanoseconds; [`Put`]: what was written of a packet;
//! - [`laws`]: a file that is written so is the recording of its packets, as the crate `recording` reads
//!   it.
//!
//! What is written of packets is said as the blocks that `recording` reads, so the laws speak of files and
//! not of the program.
#![tactic(auto)]

mod block;
pub mod laws;
mod writer;

pub use writer::{PacketWriter, Put};
