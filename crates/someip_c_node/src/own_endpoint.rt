//! The endpoints of a node, as it has sockets at them.
ghost use Rattle.std.specs.Prelude.{◌≡◌, Some, map, slice_get};
ghost use Rattle.someip_c_node.specs.Endpoints.{endpoints_of, kind_number, offered_endpoint, plain_endpoint};

use sd_core::InstanceId;
use someip_node_rules::{Config, OfferedService};
use std::collections::BTreeMap;
use std::net::{Ipv4Addr, SocketAddrV4};

/// What a node has at an endpoint of its own.
#[derive(Clone, Copy, PartialEq, Eq)]
pub enum EndpointKind {
    /// Service Discovery.
    Discovery = 1,
    /// The client, from which it calls and at which it takes answers and events.
    Client,
    /// An instance that it offers.
    Instance,
    /// The multicast group of Service Discovery.
    Group,
}

impl EndpointKind {
    /// The number by which C is told.
    pub fn number(self) -> u32
        ensures { result ≡ kind_number self }
    {
        self as u32
    }
}

/// An endpoint of a node, and what is there.
#[derive(Clone, Copy, PartialEq, Eq)]
pub struct OwnEndpoint {
    /// What is there.
    pub kind: EndpointKind,
    /// Its address and port.
    pub socket: SocketAddrV4,
    /// The instance that is reached there: service and instance are 0 where it is none.
    pub instance: InstanceId,
}

/// No instance.
const NO_INSTANCE: InstanceId = InstanceId {
    service: 0,
    instance: 0,
};

/// The endpoint at a place among those of a node: Service Discovery, the client, the instances by rising
/// service and instance, and the group.
pub(crate) fn own_endpoint(config: &Config, place: usize) -> Option<OwnEndpoint>
    ensures { result ≡ slice_get (endpoints_of config.now) place }
{
    let offered = config.offers.len();
    if place == 0 {
        return plain(
            EndpointKind::Discovery,
            config.address,
            Config::DISCOVERY_PORT,
        );
    }
    if place == 1 {
        return plain(EndpointKind::Client, config.address, config.client_port);
    }
    if place == offered + 2 {
        return plain(
            EndpointKind::Group,
            config.common.group,
            Config::DISCOVERY_PORT,
        );
    }
    offered_endpoint(&config.offers, place - 2)
}

/// An endpoint at which no instance is reached.
fn plain(kind: EndpointKind, address: Ipv4Addr, port: u16) -> Option<OwnEndpoint>
    ensures { result ≡ Some (plain_endpoint kind (record { ip = address; port = port })) }
{
    Some(OwnEndpoint {
        kind,
        socket: SocketAddrV4::new(address, port),
        instance: NO_INSTANCE,
    })
}

/// The endpoint of the instance at a place among those that are offered.
fn offered_endpoint(
    offers: &BTreeMap<InstanceId, OfferedService>,
    place: usize,
) -> Option<OwnEndpoint>
    ensures { result ≡ slice_get (map offered_endpoint offers.now.entries) place }
{
    let mut left = place;
    for (instance, service) in offers {
        if left == 0 {
            return Some(OwnEndpoint {
                kind: EndpointKind::Instance,
                socket: service.rules.endpoint,
                instance: *instance,
            });
        }
        left -= 1;
    }
    None
}
