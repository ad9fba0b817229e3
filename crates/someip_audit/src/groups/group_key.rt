//! What findings of one group have in common.
ghost use Rattle.someip_audit.specs.groups.GroupOrder.{exact_groups};

use someip_tables::Key;
use std::net::SocketAddrV4;

/// What findings of one group have in common. Groups are ordered by it, part by part.
#[derive(Clone, Copy, Debug, PartialEq, Eq, PartialOrd, Ord)]
pub struct GroupKey {
    /// The number of their kind, by which whoever tells them tells kinds apart.
    pub kind: u8,
    /// The service that they name, if they name one.
    pub service: Option<u16>,
    /// Its method or event, if they name one.
    pub method: Option<u16>,
    /// Where their datagrams came from.
    pub from: SocketAddrV4,
    /// Where these went to.
    pub to: SocketAddrV4,
}

impl Key for GroupKey {
    ghost exact = { exact_groups };
}

/// A group of which more came than are told.
#[derive(Clone, Copy, Debug, PartialEq, Eq)]
pub struct Grouped {
    /// The group.
    pub key: GroupKey,
    /// How many came beside the first three.
    pub more: usize,
}
