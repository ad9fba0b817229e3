//! Service Discovery messages on the wire: entries, the options that they name, and their bytes
//! (SOME/IP Service Discovery, "SOME/IP-SD Header", "Entry Format" and "Options Format").
//!
//! - [`SdMessage`], [`Entry`], [`SdOption`] and their parts: what a message says. They hold only
//!   numbers that fit their fields, and each value on the wire has one value here;
//! - [`read_sd`]: bytes are read as a message, or refused at their first fault;
//! - [`write_sd`]: the one text of a message, in which a run of options that is there already is not
//!   written again;
//! - [`split_entries`]: entries are split into messages that fit a datagram;
//! - [`laws`]: what the definitions behind the contracts promise, whatever code reads and writes.
//!
//! Each value of the wire has one value in Rust. A TTL and a counter are types over their number that hold
//! only what fits the field; protocols are numbers with two named ones; a raw option of a type with a
//! layout cannot be made.
#![tactic(auto)]

mod endpoint;
mod entry;
mod entry_options;
mod entry_reading;
mod entry_writing;
mod error;
mod fields;
mod flags;
pub mod laws;
mod message;
mod option;
mod option_reading;
mod option_writing;
mod packing;
mod pool;
mod reading;
mod splitting;
mod ttl;
mod writing;

pub use endpoint::{Ipv4Endpoint, Ipv6Endpoint, Protocol};
pub use entry::{
    Entry, EntryHead, EventgroupEntry, EventgroupKind, ServiceEntry, ServiceKind,
    SubscriptionCounter,
};
pub use error::SdError;
pub use flags::SdFlags;
pub use message::{ReadEntry, SdMessage, SdRead};
pub use option::{RawOption, SdOption};
pub use reading::read_sd;
pub use splitting::split_entries;
pub use ttl::Ttl;
pub use writing::write_sd;
