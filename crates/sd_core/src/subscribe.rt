//! What a Subscribe asks for, and what its server knows of that.
use crate::InstanceId;
use sd_wire::{SubscriptionCounter, Ttl};
use std::net::{Ipv4Addr, SocketAddrV4};

/// A Subscribe, as a server takes it (SOME/IP Service Discovery Protocol, "Subscribe Eventgroup
/// entry").
#[derive(Clone, Copy, Debug, PartialEq, Eq)]
pub struct Subscribe {
    /// The instance whose events are asked for.
    pub instance: InstanceId,
    /// Eventgroup ID.
    pub eventgroup: u16,
    /// The address that the Subscribe came from.
    pub peer: Ipv4Addr,
    /// Its first IPv4 UDP endpoint option, if it has one.
    pub endpoint: Option<SocketAddrV4>,
    /// Tells the beginnings of one client's subscription apart.
    pub counter: SubscriptionCounter,
    /// For how long the events are asked for; a TTL of 0 is a StopSubscribe and none of these.
    pub ttl: Ttl,
}

/// What a server knows of the instance and the eventgroup that a Subscribe asks for.
#[derive(Clone, Copy, Debug, PartialEq, Eq)]
pub struct SubscribeRules {
    /// Whether the server offers the instance.
    pub is_offered: bool,
    /// Whether the Subscribe has the major version of the instance.
    pub is_same_major: bool,
    /// Whether the eventgroup is one of the instance.
    pub is_known_eventgroup: bool,
    /// How many live subscriptions the eventgroup may have, from 1 to 1024.
    pub limit: usize,
}
