//! What a node is set up with.
//!
//! A configuration holds the instances under their IDs in ordered maps, so that no instance stands twice
//! and each is found without a scan; the port, the address and the IDs that `ServiceRules` repeats have to
//! agree with it, or it is `BadConfig`. The index from ports to instances is made at the start.
ghost use Rattle.someip_node_rules.specs.trails.Copies.{IsCopy, IsCopyOfOffer, IsCopyOfWant};

use sd_core::{InstanceId, Phases};
use sd_wire::Ttl;
use someip_rpc::ServiceRules;
use std::alloc::AllocError;
use std::collections::{BTreeMap, BTreeSet};
use std::net::Ipv4Addr;

/// What all nodes of a network are set up with.
#[derive(Clone, Copy, Debug, PartialEq, Eq)]
pub struct Common {
    /// The multicast group of Service Discovery.
    pub group: Ipv4Addr,
    /// The least delay before the first Offers and Finds, in milliseconds, at most 60000.
    pub initial_min_ms: u32,
    /// The greatest one, from the least one to 60000.
    pub initial_max_ms: u32,
    /// The delays after them.
    pub phases: Phases,
    /// The greatest payload of a message, from 1400 to 1048576 bytes.
    pub message_limit: usize,
    /// How many messages may have come in part at once, from 1 to 1024.
    pub slots: usize,
    /// How many peers a node tells apart, from 1 to 1024.
    pub peers: usize,
    /// How long a message in part stands after its last segment, from 1 to 3600000 milliseconds.
    pub reassembly_timeout_ms: u32,
    /// How long a call waits for its answer, from 1 to 3600000 milliseconds.
    pub call_timeout_ms: u32,
}

impl Common {
    /// The greatest limit that a message may have, in bytes of its payload.
    pub const GREATEST_MESSAGE_LIMIT: usize = 1_048_576;
}

/// An instance that a node offers.
#[derive(Debug, Drop)]
pub struct OfferedService {
    /// Its service and instance, which are those that it stands under, its major version, from 0 to FE,
    /// its endpoint, at the node's address, its methods, up to 7FFF, none of which is declared for both
    /// types, and its events, from 8000 to FFFE, each with one eventgroup at least, from 1 to FFFE. No
    /// other instance of the node has its port, nor has the node's client, and it is not 0 or 30490.
    pub rules: ServiceRules,
    /// Minor version, from 0 to FFFFFFFE.
    pub minor: u32,
    /// For how many seconds each Offer holds, from 1 to FFFFFF.
    pub ttl: Ttl,
    /// How many live subscriptions each eventgroup may have, from 1 to 1024.
    pub subscribers: usize,
}

/// An instance that a node wants.
#[derive(Debug, Drop)]
pub struct WantedService {
    /// Major version, from 0 to FE.
    pub major: u8,
    /// For how many seconds each Subscribe holds, from 1 to FFFFFF.
    pub ttl: Ttl,
    /// The eventgroups that the node may subscribe to, from 1 to FFFE, each with the Event IDs, from
    /// 8000 to FFFE, that it takes as theirs.
    pub groups: BTreeMap<u16, BTreeSet<u16>>,
}

/// What a node is set up with.
#[derive(Debug, Drop)]
pub struct Config {
    /// What all nodes of the network share.
    pub common: Common,
    /// The node's address: not the group's.
    pub address: Ipv4Addr,
    /// The Client ID of its calls.
    pub client_id: u16,
    /// The UDP port from which it calls and at which it takes answers and events, from 1 and not 30490.
    pub client_port: u16,
    /// The instances that it offers, with services and instances from 1 to FFFE.
    pub offers: BTreeMap<InstanceId, OfferedService>,
    /// The instances that it wants, with services and instances from 1 to FFFE.
    pub wants: BTreeMap<InstanceId, WantedService>,
}

impl Clone for OfferedService {
    ghost is_clone = { λ offer copy. IsCopyOfOffer offer copy };

    fn clone(&self) -> Result<OfferedService, AllocError> {
        let rules = self.rules.clone()?;
        Ok(OfferedService {
            rules,
            minor: self.minor,
            ttl: self.ttl,
            subscribers: self.subscribers,
        })
    }
}

impl Clone for WantedService {
    ghost is_clone = { λ want copy. IsCopyOfWant want copy };

    fn clone(&self) -> Result<WantedService, AllocError> {
        let groups = self.groups.clone()?;
        Ok(WantedService {
            major: self.major,
            ttl: self.ttl,
            groups,
        })
    }
}

impl Config {
    /// The UDP port of Service Discovery.
    pub const DISCOVERY_PORT: u16 = 30490;
}

impl Clone for Config {
    ghost is_clone = { λ config copy. IsCopy config copy };

    fn clone(&self) -> Result<Config, AllocError> {
        let offers = self.offers.clone()?;
        let wants = self.wants.clone()?;
        Ok(Config {
            common: self.common,
            address: self.address,
            client_id: self.client_id,
            client_port: self.client_port,
            offers,
            wants,
        })
    }
}
