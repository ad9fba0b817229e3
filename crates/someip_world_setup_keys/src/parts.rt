//! What a setup says, in the order of its text, before clashes are judged.
use sd_core::InstanceId;
use sd_wire::Ttl;
use someip_node_rules::Common;
use std::net::Ipv4Addr;

/// An ID with others: an event with its eventgroups, or an eventgroup with its events.
#[derive(Drop)]
pub struct Listed {
    /// The ID.
    pub id: u16,
    /// The others.
    pub members: Vec<u16>,
}

/// An offer of a node.
#[derive(Drop)]
pub struct OfferParts {
    /// The instance that is offered.
    pub id: InstanceId,
    /// Major Version.
    pub major: u8,
    /// Minor Version.
    pub minor: u32,
    /// How long the offer lasts.
    pub ttl: Ttl,
    /// The port at which the instance is reached.
    pub port: u16,
    /// The methods that are answered.
    pub methods: Vec<u16>,
    /// The methods that are not answered.
    pub oneways: Vec<u16>,
    /// The events, each with its eventgroups.
    pub events: Vec<Listed>,
    /// How many live subscriptions each eventgroup may have.
    pub subscribers: usize,
}

/// A want of a node.
#[derive(Drop)]
pub struct WantParts {
    /// The instance that is wanted.
    pub id: InstanceId,
    /// Major Version.
    pub major: u8,
    /// How long a subscription lasts.
    pub ttl: Ttl,
    /// The eventgroups, each with its events.
    pub groups: Vec<Listed>,
}

/// A node.
#[derive(Drop)]
pub struct NodeParts {
    /// Its name: 1 to 16 of a to z, 0 to 9.
    pub name: String,
    /// Its address.
    pub address: Ipv4Addr,
    /// The Client ID of its calls.
    pub client_id: u16,
    /// The port of its client.
    pub client_port: u16,
    /// The delay before its first Offers and Finds, in milliseconds.
    pub delay: u32,
    /// Whether it is a liar: it runs no node, and sends any bytes under its own address.
    pub is_liar: bool,
    /// What it offers.
    pub offers: Vec<OfferParts>,
    /// What it wants.
    pub wants: Vec<WantParts>,
}

/// A setup.
#[derive(Drop)]
pub struct SetupParts {
    /// What all nodes share.
    pub common: Common,
    /// The nodes.
    pub nodes: Vec<NodeParts>,
}
