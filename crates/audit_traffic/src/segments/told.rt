//! What is told of segments.
use someip_reassembly::{ReassemblyKey, TpError};
use someip_tables::hashed::Numbers;
use someip_wire::Header;

/// What is told of a message that may be a segment.
#[derive(Clone, Copy, Debug, PartialEq, Eq)]
pub enum SegmentTold {
    /// Nothing: it is no segment, or bytes of its message are still to come.
    Nothing,
    /// Its message is whole, and has this header.
    Whole(Header),
    /// Reassembly refuses it.
    Refused(TpError),
}

/// A message of which segments are missing: it stayed in part until its timeout.
#[derive(Clone, Copy, Debug, PartialEq, Eq)]
pub struct Missing {
    /// What its segments have in common.
    pub key: ReassemblyKey,
    /// The numbers of the datagram with the first of its segments that came.
    pub numbers: Numbers,
    /// Its timeout after its last segment, in milliseconds.
    pub until: u64,
}
