//! What is asked of a node's configuration.
ghost use Rattle.std.specs.Prelude.{◌≡◌};
ghost use Rattle.someip_node_rules.specs.forms.Setups.{client_endpoint, client_rules, own_endpoint};

use someip_node_rules::Config;
use someip_rpc::ClientRules;
use std::net::SocketAddrV4;

/// A port of the node.
pub(crate) fn own_endpoint(config: &Config, port: u16) -> SocketAddrV4
    ensures { result ≡ own_endpoint config.now port }
{
    SocketAddrV4::new(config.address, port)
}

/// The endpoint of the node's client.
pub(crate) fn client_endpoint(config: &Config) -> SocketAddrV4
    ensures { result ≡ client_endpoint config.now }
{
    own_endpoint(config, config.client_port)
}

/// The settings of the node's client.
pub(crate) fn client_rules(config: &Config) -> ClientRules
    ensures { result ≡ client_rules config.now }
{
    ClientRules {
        client: config.client_id,
        endpoint: client_endpoint(config),
        message_limit: config.common.message_limit,
        call_timeout_ms: config.common.call_timeout_ms,
    }
}
