//! Values that may not be the same, and tables that a liar may not have.
ghost use Rattle.std.specs.Prelude.{◌≡◌, ◌||◌, map, bytes_eq, string_bytes, IfOk};
ghost use Rattle.std.specs.List.{list_any};
ghost use Rattle.std.specs.Option.{is_some};
ghost use Rattle.someip_world_setup_keys.specs.Values.{listed_view, offer_view, want_view, node_view, parts_view};
ghost use Rattle.someip_world_setup_keys.specs.Clashes as clash;
ghost use Rattle.someip_world_setup_keys.specs.Refusals.{RefusesClash};

use crate::error::SetupError;
use crate::gathered::{addresses, ids, methods, offered, ports, wanted};
use crate::parts::{Listed, NodeParts, OfferParts, SetupParts, WantParts};
use crate::repeats::has_repeat;
use std::alloc::{AllocError, Global};
use std::net::Ipv4Addr;

/// Whether one of the nodes has a name.
fn is_named(nodes: &[NodeParts], name: &str) -> bool
    ensures { result ≡ list_any (λ n. bytes_eq name.now (string_bytes n.name)) nodes.now }
{
    nodes.iter().any(|n| name == n.name.as_str())
}

/// Whether two nodes have one name.
fn has_equal_names(nodes: &[NodeParts]) -> bool
    ensures { result ≡ clash.has_equal_names (map node_view nodes.now) }
{
    for i in 0..nodes.len() {
        if is_named(&nodes[i + 1..], nodes[i].name.as_str()) {
            return true;
        }
    }
    false
}

/// Whether two nodes have one address, or one has that of the multicast group.
fn has_equal_addresses(
    alloc: Global,
    group: Ipv4Addr,
    nodes: &[NodeParts],
) -> Result<bool, AllocError>
    ensures { IfOk result (λ b. b ≡ clash.has_equal_addresses group (map node_view nodes.now)) }
{
    has_repeat(alloc, &addresses(alloc, group, nodes)?)
}

/// Whether a node has a port twice, or that of Service Discovery.
fn has_equal_ports(alloc: Global, node: &NodeParts) -> Result<bool, AllocError>
    ensures { IfOk result (λ b. b ≡ clash.has_equal_ports (node_view node.now)) }
{
    has_repeat(alloc, &ports(alloc, node)?)
}

/// Whether one of the nodes has a port twice, or that of Service Discovery.
fn have_equal_ports(alloc: Global, nodes: &[NodeParts]) -> Result<bool, AllocError>
    ensures { IfOk result (λ b. b ≡ list_any clash.has_equal_ports (map node_view nodes.now)) }
{
    for node in nodes {
        if has_equal_ports(alloc, node)? {
            return Ok(true);
        }
    }
    Ok(false)
}

/// Whether an instance is offered twice.
fn has_equal_offers(alloc: Global, nodes: &[NodeParts]) -> Result<bool, AllocError>
    ensures { IfOk result (λ b. b ≡ clash.has_equal_offers (map node_view nodes.now)) }
{
    has_repeat(alloc, &offered(alloc, nodes)?)
}

/// Whether a node wants an instance twice.
fn has_equal_wants(alloc: Global, node: &NodeParts) -> Result<bool, AllocError>
    ensures { IfOk result (λ b. b ≡ clash.has_equal_wants (node_view node.now)) }
{
    has_repeat(alloc, &wanted(alloc, node)?)
}

/// Whether one of the nodes wants an instance twice.
fn have_equal_wants(alloc: Global, nodes: &[NodeParts]) -> Result<bool, AllocError>
    ensures { IfOk result (λ b. b ≡ list_any clash.has_equal_wants (map node_view nodes.now)) }
{
    for node in nodes {
        if has_equal_wants(alloc, node)? {
            return Ok(true);
        }
    }
    Ok(false)
}

/// Whether an ID stands twice among those that belong to one of a list.
fn have_equal_members(alloc: Global, lists: &[Listed]) -> Result<bool, AllocError>
    ensures { IfOk result (λ b. b ≡ list_any clash.has_equal_members (map listed_view lists.now)) }
{
    for list in lists {
        if has_repeat(alloc, &list.members)? {
            return Ok(true);
        }
    }
    Ok(false)
}

/// Whether an ID stands twice in a list, or among those that belong to one of it.
fn has_equal_ids(alloc: Global, lists: &[Listed]) -> Result<bool, AllocError>
    ensures { IfOk result (λ b. b ≡ clash.has_equal_ids (map listed_view lists.now)) }
{
    if has_repeat(alloc, &ids(alloc, lists)?)? {
        return Ok(true);
    }
    have_equal_members(alloc, lists)
}

/// Whether an ID stands twice in an offer.
fn has_equal_ids_offered(alloc: Global, offer: &OfferParts) -> Result<bool, AllocError>
    ensures { IfOk result (λ b. b ≡ clash.has_equal_ids_offered (offer_view offer.now)) }
{
    if has_repeat(alloc, &methods(alloc, offer)?)? {
        return Ok(true);
    }
    has_equal_ids(alloc, &offer.events)
}

/// Whether an ID stands twice in one of the offers.
fn have_equal_ids_offered(alloc: Global, offers: &[OfferParts]) -> Result<bool, AllocError>
    ensures { IfOk result (λ b. b
        ≡ list_any clash.has_equal_ids_offered (map offer_view offers.now)) }
{
    for offer in offers {
        if has_equal_ids_offered(alloc, offer)? {
            return Ok(true);
        }
    }
    Ok(false)
}

/// Whether an ID stands twice in a want.
fn has_equal_ids_wanted(alloc: Global, want: &WantParts) -> Result<bool, AllocError>
    ensures { IfOk result (λ b. b ≡ clash.has_equal_ids_wanted (want_view want.now)) }
{
    has_equal_ids(alloc, &want.groups)
}

/// Whether an ID stands twice in one of the wants.
fn have_equal_ids_wanted(alloc: Global, wants: &[WantParts]) -> Result<bool, AllocError>
    ensures { IfOk result (λ b. b ≡ list_any clash.has_equal_ids_wanted (map want_view wants.now)) }
{
    for want in wants {
        if has_equal_ids_wanted(alloc, want)? {
            return Ok(true);
        }
    }
    Ok(false)
}

/// Whether an ID stands twice in an offer or in a want of a node.
fn has_equal_ids_of(alloc: Global, node: &NodeParts) -> Result<bool, AllocError>
    ensures { IfOk result (λ b. b ≡ clash.has_equal_ids_of (node_view node.now)) }
{
    if have_equal_ids_offered(alloc, &node.offers)? {
        return Ok(true);
    }
    have_equal_ids_wanted(alloc, &node.wants)
}

/// Whether an ID stands twice in an offer or in a want of one of the nodes.
fn have_equal_ids_of(alloc: Global, nodes: &[NodeParts]) -> Result<bool, AllocError>
    ensures { IfOk result (λ b. b ≡ list_any clash.has_equal_ids_of (map node_view nodes.now)) }
{
    for node in nodes {
        if has_equal_ids_of(alloc, node)? {
            return Ok(true);
        }
    }
    Ok(false)
}

/// Whether an instance is offered twice, or wanted twice by a node.
fn has_equal_instances(alloc: Global, nodes: &[NodeParts]) -> Result<bool, AllocError>
    ensures { IfOk result (λ b. b ≡ (clash.has_equal_offers (map node_view nodes.now)
        || list_any clash.has_equal_wants (map node_view nodes.now))) }
{
    if has_equal_offers(alloc, nodes)? {
        return Ok(true);
    }
    have_equal_wants(alloc, nodes)
}

/// Whether a node is a liar that offers an instance.
fn has_liar_offers(node: &NodeParts) -> bool
    ensures { result ≡ clash.has_liar_offers (node_view node.now) }
{
    node.is_liar && !node.offers.is_empty()
}

/// Whether a node is a liar that wants an instance.
fn has_liar_wants(node: &NodeParts) -> bool
    ensures { result ≡ clash.has_liar_wants (node_view node.now) }
{
    node.is_liar && !node.wants.is_empty()
}

/// The key of the first table that a liar may not have: node by node, `offer` before `want`.
fn liar_table(nodes: &[NodeParts]) -> Option<&'static str>
    ensures { is_some result ≡ list_any clash.has_liar_tables (map node_view nodes.now) }
{
    for node in nodes {
        if has_liar_offers(node) {
            return Some("offer");
        }
        if has_liar_wants(node) {
            return Some("want");
        }
    }
    None
}

/// Refuses values that may not be the same, and then tables that a liar may not have, each kind over the whole
/// setup before the next.
pub fn refuse_clashes(alloc: Global, parts: &SetupParts) -> Result<(), SetupError>
    ensures { RefusesClash (clash.has_clash (parts_view parts.now)) result }
{
    let nodes = &parts.nodes;
    if has_equal_names(nodes) {
        return Err(SetupError::Clash("name"));
    }
    if has_equal_addresses(alloc, parts.common.group, nodes)? {
        return Err(SetupError::Clash("address"));
    }
    if have_equal_ports(alloc, nodes)? {
        return Err(SetupError::Clash("port"));
    }
    if has_equal_instances(alloc, nodes)? {
        return Err(SetupError::Clash("instance"));
    }
    if have_equal_ids_of(alloc, nodes)? {
        return Err(SetupError::Clash("id"));
    }
    if let Some(key) = liar_table(nodes) {
        return Err(SetupError::Clash(key));
    }
    Ok(())
}
