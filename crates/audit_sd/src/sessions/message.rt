//! A message of Service Discovery, as far as its sessions go.
use sd_session::Stamp;
use someip_tables::Moment;
use std::net::Ipv4Addr;

/// A message of Service Discovery, as far as its sessions go.
#[derive(Clone, Copy, Debug, PartialEq, Eq)]
pub struct SdMessage {
    /// The moment at which it came.
    pub at: Moment,
    /// The address that it was sent from.
    pub from: Ipv4Addr,
    /// The address that it was sent to: a node's or the multicast group's. A sender counts the
    /// messages to each apart.
    pub to: Ipv4Addr,
    /// Its session and Reboot flag.
    pub stamp: Stamp,
}
