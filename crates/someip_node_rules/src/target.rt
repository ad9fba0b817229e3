//! What is reached at an endpoint.

use sd_core::InstanceId;
use sd_session::Channel;

/// What is reached at an endpoint of a node.
#[derive(Clone, Copy, Debug, PartialEq, Eq)]
pub enum Target {
    /// Service Discovery, on a channel.
    Discovery(Channel),
    /// The node's client.
    Client,
    /// An instance that the node offers.
    Instance(InstanceId),
    /// Nothing.
    Nowhere,
}
