//! Peers that no log can have.
ghost use Rattle.std.specs.Prelude.{◌≡◌, ◌≤◌, false, length, IfErr, OnOk};
ghost use Rattle.someip_world_setup_keys.specs.Clashes.{has_repeat};
ghost use Rattle.someip_c_node.specs.LogSetups.{IsFaultOfPeers, address_of, have_equal_addresses, is_at, is_taken};

use crate::endpoint::Endpoint;
use crate::outcome::Outcome;
use someip_node_rules::Config;
use someip_tables::hashed::is_same_address;
use std::net::Ipv4Addr;

/// The most peers: a setup has at most 64 nodes, and one of them is the node.
const MOST_PEERS: usize = 63;

/// Refuses more peers than fit, as `OutOfRange`, and those that have equal addresses, as `Clash`.
pub(crate) fn refuse_peers(config: &Config, peers: &[Endpoint]) -> Result<(), Outcome>
    ensures ok { OnOk result ((length peers.now ≤ 63) × (have_equal_addresses config.now peers.now ≡ false)) }
    ensures err { IfErr result (IsFaultOfPeers config.now peers.now) }
{
    if MOST_PEERS < peers.len() {
        return Err(Outcome::OutOfRange);
    }
    if have_equal_addresses(config, peers) {
        return Err(Outcome::Clash);
    }
    Ok(())
}

/// Whether a peer is at the address of the group, or of the node, or of another peer.
fn have_equal_addresses(config: &Config, peers: &[Endpoint]) -> bool
    ensures { result ≡ have_equal_addresses config.now peers.now }
{
    is_taken(&config.common.group, peers) || is_taken(&config.address, peers) || has_repeat(peers)
}

/// Whether one of the peers is at an address.
fn is_taken(address: &Ipv4Addr, peers: &[Endpoint]) -> bool
    ensures { result ≡ is_taken address.now peers.now }
{
    peers.iter().any(|peer| is_at(address, peer))
}

/// Whether a peer is at an address.
fn is_at(address: &Ipv4Addr, peer: &Endpoint) -> bool
    ensures { result ≡ is_at address.now peer.now }
{
    is_same_address(address, &Ipv4Addr::from_octets(peer.address))
}

/// Whether two peers are at one address.
fn has_repeat(peers: &[Endpoint]) -> bool
    ensures { result ≡ has_repeat (λ peer. is_at (address_of peer)) peers.now }
{
    match peers {
        [peer, others @ ..] => {
            is_taken(&Ipv4Addr::from_octets(peer.address), others) || has_repeat(others)
        }
        [] => false,
    }
}
