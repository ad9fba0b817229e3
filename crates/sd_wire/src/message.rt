//! Service Discovery messages (SOME/IP Service Discovery, "SOME/IP-SD Header"): the payload of a
//! SOME/IP message with the Message ID FFFF8100.
//!
//! A message to write lends its entries, so that a front of entries is a message without a copy of them.

use crate::entry::{Entry, EntryHead};
use crate::flags::SdFlags;

/// A message to write. Its entries are lent, so that a front of them is a message without a copy.
#[derive(Clone, Copy, Debug, PartialEq, Eq)]
pub struct SdMessage<'a> {
    /// Reboot and Unicast.
    pub flags: SdFlags,
    /// The entries in order.
    pub entries: &'a [Entry],
}

/// An entry that was read.
#[derive(Debug, Drop, PartialEq, Eq)]
pub enum ReadEntry {
    /// Its runs select its options.
    Good(Entry),
    /// A run with options passes the options of the message; neither run is known.
    BadRun(EntryHead),
}

/// A message that was read.
#[derive(Debug, Drop, PartialEq, Eq)]
pub struct SdRead {
    /// Reboot and Unicast.
    pub flags: SdFlags,
    /// The entries in order.
    pub entries: Vec<ReadEntry>,
}
