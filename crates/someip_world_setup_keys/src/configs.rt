//! From what a setup says to the configurations of its nodes.
ghost use Rattle.std.specs.Prelude.{◌≡◌, map, IfOk};
ghost use Rattle.someip_world_setup_keys.specs.Values.{listed_view, offer_view, want_view, node_view};
ghost use Rattle.someip_world_setup_keys.specs.Made.{keys_of_set, plain_entries, set_of, lists_of, offer_made, want_made, offers_made, wants_made, config_made, offered_view, wanted_view, config_view};

use crate::parts::{Listed, NodeParts, OfferParts, WantParts};
use sd_core::InstanceId;
use someip_node_rules::{Common, Config, OfferedService, WantedService};
use someip_rpc::ServiceRules;
use std::alloc::{AllocError, Global};
use std::collections::{BTreeMap, BTreeSet};
use std::net::{Ipv4Addr, SocketAddrV4};

/// The set of some IDs.
fn id_set(alloc: Global, ids: &[u16]) -> Result<BTreeSet<u16>, AllocError>
    ensures { IfOk result (λ s. s.keys ≡ set_of ids.now) }
{
    let mut set = BTreeSet::new(alloc);
    for id in ids {
        set.insert(*id)?;
    }
    Ok(set)
}

/// IDs, each with the set of its others.
fn id_map(alloc: Global, lists: &[Listed]) -> Result<BTreeMap<u16, BTreeSet<u16>>, AllocError>
    ensures { IfOk result (λ m. plain_entries keys_of_set m.entries ≡ lists_of (map listed_view lists.now)) }
{
    let mut map = BTreeMap::new(alloc);
    for list in lists {
        map.insert(list.id, id_set(alloc, &list.members)?)?;
    }
    Ok(map)
}

/// An offer of a node at an address.
fn offered(
    alloc: Global,
    address: Ipv4Addr,
    offer: &OfferParts,
) -> Result<OfferedService, AllocError>
    ensures { IfOk result (λ o. offered_view o ≡ offer_made address (offer_view offer.now)) }
{
    let methods = id_set(alloc, &offer.methods)?;
    let oneways = id_set(alloc, &offer.oneways)?;
    let events = id_map(alloc, &offer.events)?;
    let rules = ServiceRules {
        service: offer.id.service,
        instance: offer.id.instance,
        major: offer.major,
        endpoint: SocketAddrV4::new(address, offer.port),
        methods,
        oneways,
        events,
    };
    Ok(OfferedService {
        rules,
        minor: offer.minor,
        ttl: offer.ttl,
        subscribers: offer.subscribers,
    })
}

/// The offers of a node at an address.
fn offer_map(
    alloc: Global,
    address: Ipv4Addr,
    offers: &[OfferParts],
) -> Result<BTreeMap<InstanceId, OfferedService>, AllocError>
    ensures { IfOk result (λ m. plain_entries offered_view m.entries ≡ offers_made address (map offer_view offers.now)) }
{
    let mut map = BTreeMap::new(alloc);
    for offer in offers {
        map.insert(offer.id, offered(alloc, address, offer)?)?;
    }
    Ok(map)
}

/// A want of a node.
fn wanted(alloc: Global, want: &WantParts) -> Result<WantedService, AllocError>
    ensures { IfOk result (λ w. wanted_view w ≡ want_made (want_view want.now)) }
{
    let groups = id_map(alloc, &want.groups)?;
    Ok(WantedService {
        major: want.major,
        ttl: want.ttl,
        groups,
    })
}

/// The wants of a node.
fn want_map(
    alloc: Global,
    wants: &[WantParts],
) -> Result<BTreeMap<InstanceId, WantedService>, AllocError>
    ensures { IfOk result (λ m. plain_entries wanted_view m.entries ≡ wants_made (map want_view wants.now)) }
{
    let mut map = BTreeMap::new(alloc);
    for want in wants {
        map.insert(want.id, wanted(alloc, want)?)?;
    }
    Ok(map)
}

/// The configuration of a node.
pub fn config(alloc: Global, common: Common, node: &NodeParts) -> Result<Config, AllocError>
    ensures { IfOk result (λ c. config_view c ≡ config_made common (node_view node.now)) }
{
    let offers = offer_map(alloc, node.address, &node.offers)?;
    let wants = want_map(alloc, &node.wants)?;
    Ok(Config {
        common,
        address: node.address,
        client_id: node.client_id,
        client_port: node.client_port,
        offers,
        wants,
    })
}
