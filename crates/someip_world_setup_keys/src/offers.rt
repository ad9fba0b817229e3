//! The offers of a node.
ghost use Rattle.std.specs.Prelude.{map};
ghost use Rattle.toml.specs.View.{view};
ghost use Rattle.someip_world_setup_keys.specs.Keys.{IsAsFound};
ghost use Rattle.someip_world_setup_keys.specs.Lists.{found_at_each};
ghost use Rattle.someip_world_setup_keys.specs.SaidByKeys.{methods_at, groups_at, events_at, offers_at, said_event, said_offer};
ghost use Rattle.someip_world_setup_keys.specs.Values.{listed_view, offer_view};

use crate::error::SetupError;
use crate::key_numbers::{count_or, id_at, integer, major_at, port_at, short, ttl_at, word_or};
use crate::lists::ids;
use crate::parts::{Listed, OfferParts};
use crate::tables::{integers_at, integers_or_none, tables_or_none};
use sd_core::InstanceId;
use std::alloc::Global;
use toml::Value;

/// The methods at a key, up to 7FFF.
fn methods_at(alloc: Global, table: &Value, key: &'static str) -> Result<Vec<u16>, SetupError>
    ensures { IsAsFound (λ v. v.items) result (methods_at key.now (view table.now)) }
{
    ids(alloc, integers_or_none(table, key)?, key, 0, 0x7fff)
}

/// The eventgroups of an event, from 1 to FFFE, one at least.
fn eventgroups(alloc: Global, table: &Value) -> Result<Vec<u16>, SetupError>
    ensures { IsAsFound (λ v. v.items) result (groups_at (view table.now)) }
{
    let groups = ids(alloc, integers_at(table, "groups")?, "groups", 1, 0xfffe)?;
    if groups.is_empty() {
        return Err(SetupError::OutOfRange("groups"));
    }
    Ok(groups)
}

/// An event, from 8000 to FFFE, with its eventgroups.
fn event(alloc: Global, table: &Value) -> Result<Listed, SetupError>
    ensures { IsAsFound listed_view result (said_event (view table.now)) }
{
    let id = short("id", integer(table, "id")?, 0x8000, 0xfffe)?;
    let members = eventgroups(alloc, table)?;
    Ok(Listed { id, members })
}

/// The events of an offer.
fn events(alloc: Global, tables: &[Value]) -> Result<Vec<Listed>, SetupError>
    ensures { IsAsFound (λ v. map listed_view v.items) result (found_at_each said_event (map view tables.now)) }
{
    let mut events = Vec::new(alloc);
    for table in tables {
        events.push(event(alloc, table)?)?;
    }
    Ok(events)
}

/// The events of the table of an offer.
fn events_at(alloc: Global, table: &Value) -> Result<Vec<Listed>, SetupError>
    ensures { IsAsFound (λ v. map listed_view v.items) result (events_at (view table.now)) }
{
    events(alloc, tables_or_none(table, "events")?)
}

/// An offer.
fn offer(alloc: Global, table: &Value) -> Result<OfferParts, SetupError>
    ensures { IsAsFound offer_view result (said_offer (view table.now)) }
{
    let service = id_at(table, "service")?;
    let instance = id_at(table, "instance")?;
    let major = major_at(table)?;
    let minor = word_or(table, "minor", 0, 0, 0xffff_fffe)?;
    let ttl = ttl_at(table)?;
    let port = port_at(table, "port")?;
    let methods = methods_at(alloc, table, "methods")?;
    let oneways = methods_at(alloc, table, "oneways")?;
    let events = events_at(alloc, table)?;
    let subscribers = count_or(table, "subscribers", 16)?;
    Ok(OfferParts {
        id: InstanceId { service, instance },
        major,
        minor,
        ttl,
        port,
        methods,
        oneways,
        events,
        subscribers,
    })
}

/// The offers of a list.
fn offers(alloc: Global, tables: &[Value]) -> Result<Vec<OfferParts>, SetupError>
    ensures { IsAsFound (λ v. map offer_view v.items) result (found_at_each said_offer (map view tables.now)) }
{
    let mut offers = Vec::new(alloc);
    for table in tables {
        offers.push(offer(alloc, table)?)?;
    }
    Ok(offers)
}

/// The offers of a node.
pub(crate) fn offers_at(alloc: Global, table: &Value) -> Result<Vec<OfferParts>, SetupError>
    ensures { IsAsFound (λ v. map offer_view v.items) result (offers_at (view table.now)) }
{
    offers(alloc, tables_or_none(table, "offer")?)
}
