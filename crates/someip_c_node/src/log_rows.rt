//! What the setup of a log says of its nodes. The contracts say what `true` tells, and nothing of `false`,
//! for which it is given up.
ghost use Rattle.std.specs.Prelude.{◌≡◌, true, ◌∷◌, map, string_bytes};
ghost use Rattle.someip_world_setup_keys.specs.Made.{config_view};
ghost use Rattle.someip_c_node.specs.LogSetups.{HasMadeRows, liar_row, liar_rows, made_row, own_row};

use crate::endpoint::Endpoint;
use crate::same_config::is_same_config;
use someip_node_rules::Config;
use someip_world_setup::SetupNode;
use std::net::Ipv4Addr;

/// Whether the nodes are the one of a name, with a delay and a configuration, and liars.
pub(crate) fn has_rows(
    nodes: &[SetupNode],
    name: &[u8],
    delay: u32,
    names: &[String],
    peers: &[Endpoint],
    config: &Config,
) -> bool
    ensures { result ≡ true → HasMadeRows name.now delay (map string_bytes names.now) peers.now config.now nodes.now }
{
    let [node, liars @ ..] = nodes else {
        return false;
    };
    if !is_own(node, name, delay) || !is_same_config(&node.config, config) {
        return false;
    }
    are_liars(liars, config.common.initial_min_ms, names, peers)
}

/// Whether a node has a name and a delay, and is no liar.
fn is_own(node: &SetupNode, name: &[u8], delay: u32) -> bool
    ensures { result ≡ true → made_row node.now ≡ own_row name.now delay node.now.config }
{
    node.name.as_bytes() == name && node.delay == delay && !node.is_liar
}

/// Whether nodes are the liars of names, at the addresses of peers.
fn are_liars(nodes: &[SetupNode], delay: u32, names: &[String], peers: &[Endpoint]) -> bool
    ensures { result ≡ true → map made_row nodes.now ≡ liar_rows delay (map string_bytes names.now) peers.now }
{
    match (nodes, names, peers) {
        ([], _, []) => true,
        ([node, nodes @ ..], [name, names @ ..], [peer, peers @ ..]) => {
            is_liar(node, delay, name.as_bytes(), peer) && are_liars(nodes, delay, names, peers)
        }
        _ => false,
    }
}

/// Whether a node is the liar of a name, at the address of a peer.
fn is_liar(node: &SetupNode, delay: u32, name: &[u8], peer: &Endpoint) -> bool
    ensures { result ≡ true → made_row node.now ≡ liar_row delay name.now peer.now }
{
    if node.config.address != Ipv4Addr::from_octets(peer.address) {
        return false;
    }
    node.name.as_bytes() == name && node.delay == delay && node.is_liar
}
