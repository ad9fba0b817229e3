//! What may not stand twice, as lists.
ghost use Rattle.std.specs.Prelude.{◌≡◌, ◌++◌, map, IfOk, OnOk};
ghost use Rattle.std.specs.List.{flat_map};
ghost use Rattle.someip_world_setup_keys.specs.Values.{listed_view, offer_view, node_view};
ghost use Rattle.someip_world_setup_keys.specs.Clashes.{taken_addresses, taken_ports, offered_id, offered_by, wanted_by};

use crate::parts::{Listed, NodeParts, OfferParts};
use sd_core::InstanceId;
use someip_node_rules::Config;
use std::alloc::{AllocError, Global};
use std::net::Ipv4Addr;

/// The address of the multicast group, and then those of the nodes.
pub(crate) fn addresses(
    alloc: Global,
    group: Ipv4Addr,
    nodes: &[NodeParts],
) -> Result<Vec<Ipv4Addr>, AllocError>
    ensures { IfOk result (λ v. v.items ≡ taken_addresses group (map node_view nodes.now)) }
{
    let mut addresses = Vec::new(alloc);
    addresses.push(group)?;
    for node in nodes {
        addresses.push(node.address)?;
    }
    Ok(addresses)
}

/// The port of Service Discovery, that of a node's client, and those of its offers.
pub(crate) fn ports(alloc: Global, node: &NodeParts) -> Result<Vec<u16>, AllocError>
    ensures { IfOk result (λ v. v.items ≡ taken_ports (node_view node.now)) }
{
    let mut ports = Vec::new(alloc);
    ports.push(Config::DISCOVERY_PORT)?;
    ports.push(node.client_port)?;
    add_ports(&mut ports, &node.offers)?;
    Ok(ports)
}

/// Adds the ports of offers.
fn add_ports(ports: &mut Vec<u16>, offers: &[OfferParts]) -> Result<(), AllocError>
    ensures { OnOk result (ports.new.items
        ≡ ports.old.items ++ map (λ o. o.port) (map offer_view offers.now)) }
{
    for offer in offers {
        ports.push(offer.port)?;
    }
    Ok(())
}

/// The instances that nodes offer.
pub(crate) fn offered(alloc: Global, nodes: &[NodeParts]) -> Result<Vec<InstanceId>, AllocError>
    ensures { IfOk result (λ v. v.items ≡ flat_map offered_by (map node_view nodes.now)) }
{
    let mut instances = Vec::new(alloc);
    for node in nodes {
        add_offered(&mut instances, &node.offers)?;
    }
    Ok(instances)
}

/// Adds the instances of offers.
fn add_offered(instances: &mut Vec<InstanceId>, offers: &[OfferParts]) -> Result<(), AllocError>
    ensures { OnOk result (instances.new.items
        ≡ instances.old.items ++ map offered_id (map offer_view offers.now)) }
{
    for offer in offers {
        instances.push(offer.id)?;
    }
    Ok(())
}

/// The instances that a node wants.
pub(crate) fn wanted(alloc: Global, node: &NodeParts) -> Result<Vec<InstanceId>, AllocError>
    ensures { IfOk result (λ v. v.items ≡ wanted_by (node_view node.now)) }
{
    let mut instances = Vec::new(alloc);
    for want in &node.wants {
        instances.push(want.id)?;
    }
    Ok(instances)
}

/// The methods of an offer, and then its oneways.
pub(crate) fn methods(alloc: Global, offer: &OfferParts) -> Result<Vec<u16>, AllocError>
    ensures { IfOk result (λ v. v.items ≡ offer.now.methods.items ++ offer.now.oneways.items) }
{
    let mut methods = Vec::new(alloc);
    methods.extend_from_slice(&offer.methods)?;
    methods.extend_from_slice(&offer.oneways)?;
    Ok(methods)
}

/// The IDs of a list.
pub(crate) fn ids(alloc: Global, lists: &[Listed]) -> Result<Vec<u16>, AllocError>
    ensures { IfOk result (λ v. v.items ≡ map (λ l. l.id) (map listed_view lists.now)) }
{
    let mut ids = Vec::new(alloc);
    for list in lists {
        ids.push(list.id)?;
    }
    Ok(ids)
}
