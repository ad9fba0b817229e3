//! Recordings of network traffic, classic pcap and pcapng: the packets in them, with the UDP datagrams
//! over IPv4 that they carry, their times and endpoints.
//!
//! - [`Recording`]: what a recording in memory holds, one after the other. A payload stays where the
//!   file's bytes lie, and the only memory that is taken is the list of the interfaces of a pcapng
//!   section;
//! - [`RecordingReader`]: the same of a recording that is read as it comes, of which one packet or block
//!   is held at a time. It takes memory for that list and for the bytes that it holds, where a payload
//!   stays until the next read;
//! - [`Record`]: a packet as it was captured, with its time, interface, link type and VLAN IDs;
//! - [`Ipv4Packet`]: the whole IPv4 packet in it, and [`Carried`], what that carries: a [`Datagram`], a
//!   fragment of one, or neither, and why, [`Skipped`];
//! - [`Time`], [`Endpoint`]: when a packet was recorded, and where a datagram came from and went to;
//! - [`RecordingError`]: the fault that ends a recording;
//! - [`laws`]: what the definitions behind the contracts say of examples.
//!
//! A recording is said twice: as the bytes that packets and blocks spell, and as the plain program that
//! reads them; laws join the two, in both directions. So a contract speaks of files and not of a cursor.
//! What a block says, the faults, and what a packet carries stand once, as functions.
#![tactic(auto)]

mod block;
mod classic;
mod error;
mod format;
mod held;
mod interface;
mod ipv4;
pub mod laws;
mod link;
mod number;
mod packet;
mod parts;
mod reader;
mod record;
mod recording;
mod section;
mod stage;
mod time;
mod udp;

pub use error::RecordingError;
pub use ipv4::Ipv4Packet;
pub use reader::{Next, RecordingReader};
pub use record::{Datagram, Endpoint, Record, Skipped};
pub use recording::Recording;
pub use time::Time;
pub use udp::Carried;
