//! The two formats of recordings.

use crate::classic::Classic;
use crate::number::ByteOrder;

/// The format of a file, and what is known where a packet or a block begins.
#[derive(Clone, Copy)]
pub(crate) enum Format {
    /// Classic pcap, by its header.
    Classic(Classic),
    /// pcapng, with the order of the section's numbers.
    Blocks(ByteOrder),
}
