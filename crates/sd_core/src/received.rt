//! An Offer as it arrives, and what becomes of it.
use crate::InstanceId;
use sd_wire::Ttl;
use std::net::{Ipv4Addr, SocketAddrV4};
use thiserror::Error;

/// An Offer as it arrives (SOME/IP Service Discovery Protocol, "Offer Service entry").
#[derive(Clone, Copy, Debug, PartialEq, Eq)]
pub struct ReceivedOffer {
    /// The instance that is offered.
    pub instance: InstanceId,
    /// The major version of its interface.
    pub major: u8,
    /// For how long it is offered; 0 is that of a StopOffer.
    pub ttl: Ttl,
    /// The first of the Offer's IPv4 endpoints over UDP, if it has one: where the instance is reached.
    pub endpoint: Option<SocketAddrV4>,
    /// The address that the Offer came from.
    pub peer: Ipv4Addr,
}

/// An offer that is known.
#[derive(Clone, Copy, Debug, PartialEq, Eq)]
pub struct KnownOffer {
    /// The address that it came from.
    pub peer: Ipv4Addr,
    /// Where the instance is reached.
    pub endpoint: SocketAddrV4,
}

/// What an Offer that counts changes.
#[derive(Clone, Copy, Debug, PartialEq, Eq)]
pub enum Counted {
    /// No offer of the instance was known.
    New,
    /// The one that was known had another endpoint.
    Moved,
    /// The one that was known had this endpoint: it is known for longer, or less long.
    Renewed,
}

/// Why an Offer does not count. Nothing is changed by it.
#[derive(Clone, Copy, Debug, PartialEq, Eq, Error)]
pub enum Uncounted {
    /// The instance is not wanted, or in another major version.
    #[error("Unwanted")]
    Unwanted,
    /// It has no IPv4 endpoint over UDP.
    #[error("NoEndpoint")]
    NoEndpoint,
    /// An offer of the instance by another peer is known.
    #[error("OtherPeer")]
    OtherPeer,
}
