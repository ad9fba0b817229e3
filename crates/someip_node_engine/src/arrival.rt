//! What a datagram reaches at a node, and the way of its messages from there.
ghost use Rattle.std.specs.Prelude.{◌≡◌};
ghost use Rattle.someip_node_engine.specs.Arrivals.{reached_from};

use sd_core::InstanceId;
use sd_session::Channel;
use someip_node_rules::Target;
use std::net::{Ipv4Addr, SocketAddrV4};

/// Whom a message of the application reaches at a node.
#[derive(Clone, Copy)]
pub(crate) enum Addressee {
    /// The node's client.
    Client,
    /// An instance that the node offers.
    Instance(InstanceId),
}

/// A datagram with messages of the application, on its way through a node.
#[derive(Clone, Copy)]
pub(crate) struct Arrival {
    /// The endpoint that it came from.
    pub(crate) from: SocketAddrV4,
    /// The endpoint that it came to.
    pub(crate) to: SocketAddrV4,
    /// Whom its messages reach.
    pub(crate) addressee: Addressee,
}

/// What a datagram reaches at a node.
#[derive(Clone, Copy)]
pub(crate) enum Reached {
    /// Service Discovery, from a peer on a channel.
    Discovery(Ipv4Addr, Channel),
    /// The client or an instance.
    Application(Arrival),
}

/// What a datagram reaches that came from an endpoint to another, where that is something.
pub(crate) fn reached_from(from: SocketAddrV4, to: SocketAddrV4, target: Target) -> Option<Reached>
    ensures { result ≡ reached_from from to target }
{
    let addressee = match target {
        Target::Discovery(channel) => return Some(Reached::Discovery(*from.ip(), channel)),
        Target::Client => Addressee::Client,
        Target::Instance(instance) => Addressee::Instance(instance),
        Target::Nowhere => return None,
    };
    Some(Reached::Application(Arrival {
        from,
        to,
        addressee,
    }))
}
