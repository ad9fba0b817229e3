//! The nodes of the rows, as setups say them.
use super::acts::{Port, Row, first_wrong};
use sd_core::{Eventgroup, InstanceId};
use someip_node::{Config, Node};
use someip_tp::IntervalPool;
use someip_world_setup::{Setup, SetupNode};
use std::alloc::Global;

/// The instance 0001 of the service 1111.
pub(crate) const INSTANCE: InstanceId = InstanceId {
    service: 0x1111,
    instance: 1,
};

/// An eventgroup of it.
pub(crate) const EVENTGROUP: Eventgroup = Eventgroup {
    instance: INSTANCE,
    id: 1,
};

/// The multicast group's port of Service Discovery.
pub(crate) const SD_OF_ALL: Port = Port(0, 30490);

/// The port of Service Discovery of the node that offers.
pub(crate) const SD_OF_SERVER: Port = Port(1, 30490);

/// The one of the node that wants.
pub(crate) const SD_OF_CLIENT: Port = Port(2, 30490);

/// The port of the instance.
pub(crate) const SERVER: Port = Port(1, 30509);

/// The port of the client of the node that wants.
pub(crate) const CLIENT: Port = Port(2, 40001);

/// The node 192.168.0.1, which offers the instance with the method 0421, the oneway 0422, and the event
/// 8001 of the eventgroup 0001.
pub(crate) const OFFERS: &str = r#"
group = "239.0.0.1"
[[node]]
name = "a"
address = "192.168.0.1"
client_id = 0x0101
client_port = 40000
[[node.offer]]
service = 0x1111
instance = 1
major = 1
ttl = 3
port = 30509
methods = [0x0421]
oneways = [0x0422]
events = [{ id = 0x8001, groups = [1] }]
"#;

/// The same with a second instance, at the port 30510.
pub(crate) const OFFERS_TWO: &str = r#"
group = "239.0.0.1"
[[node]]
name = "a"
address = "192.168.0.1"
client_id = 0x0101
client_port = 40000
[[node.offer]]
service = 0x1111
instance = 1
major = 1
ttl = 3
port = 30509
methods = [0x0421]
oneways = [0x0422]
events = [{ id = 0x8001, groups = [1] }]
[[node.offer]]
service = 0x1111
instance = 2
major = 1
ttl = 3
port = 30510
methods = [0x0421]
oneways = [0x0422]
events = [{ id = 0x8001, groups = [1] }]
"#;

/// The node 192.168.0.2, which wants the instance, and the event 8001 as one of the eventgroup 0001.
pub(crate) const WANTS: &str = r#"
group = "239.0.0.1"
[[node]]
name = "b"
address = "192.168.0.2"
client_id = 0x0102
client_port = 40001
[[node.want]]
service = 0x1111
instance = 1
major = 1
ttl = 3
groups = [{ id = 1, events = [0x8001] }]
"#;

/// The configuration of the first node of a setup.
pub(crate) fn config_of(alloc: Global, setup: &str) -> Option<Config> {
    let setup = Setup::read(alloc, setup).ok()?;
    first_config(setup.nodes())
}

fn first_config(nodes: &[SetupNode]) -> Option<Config> {
    match nodes {
        [first, ..] => first.config.clone().ok(),
        [] => None,
    }
}

/// The first node of a setup, at its start.
pub(crate) fn started(alloc: Global, setup: &str) -> Option<Node<IntervalPool>> {
    let config = config_of(alloc, setup)?;
    Node::start(alloc, config, 10).ok()
}

/// Whether the first node of a setup gives the lines of all these rows. It owns the node, so that no test
/// does: a test that has to drop a node takes the prover far longer.
pub(crate) fn gives(alloc: Global, setup: &str, rows: &[Row]) -> bool {
    match started(alloc, setup) {
        Some(mut node) => first_wrong(alloc, &mut node, rows).is_none(),
        None => false,
    }
}
