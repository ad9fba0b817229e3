//! The wants of a node.
ghost use Rattle.std.specs.Prelude.{map};
ghost use Rattle.toml.specs.View.{view};
ghost use Rattle.someip_world_setup_keys.specs.Keys.{IsAsFound};
ghost use Rattle.someip_world_setup_keys.specs.Lists.{found_at_each};
ghost use Rattle.someip_world_setup_keys.specs.SaidByKeys.{group_events, said_eventgroup, said_want, wants_at};
ghost use Rattle.someip_world_setup_keys.specs.Values.{listed_view, want_view};

use crate::error::SetupError;
use crate::key_numbers::{id_at, major_at, ttl_at};
use crate::lists::ids;
use crate::parts::{Listed, WantParts};
use crate::tables::{integers_at, tables_or_none};
use sd_core::InstanceId;
use std::alloc::Global;
use toml::Value;

/// The events of an eventgroup, from 8000 to FFFE.
fn group_events(alloc: Global, table: &Value) -> Result<Vec<u16>, SetupError>
    ensures { IsAsFound (λ v. v.items) result (group_events (view table.now)) }
{
    ids(
        alloc,
        integers_at(table, "events")?,
        "events",
        0x8000,
        0xfffe,
    )
}

/// An eventgroup, from 1 to FFFE, with its events.
fn eventgroup(alloc: Global, table: &Value) -> Result<Listed, SetupError>
    ensures { IsAsFound listed_view result (said_eventgroup (view table.now)) }
{
    let id = id_at(table, "id")?;
    let members = group_events(alloc, table)?;
    Ok(Listed { id, members })
}

/// The eventgroups of a want.
fn groups(alloc: Global, tables: &[Value]) -> Result<Vec<Listed>, SetupError>
    ensures { IsAsFound (λ v. map listed_view v.items) result (found_at_each said_eventgroup (map view tables.now)) }
{
    let mut groups = Vec::new(alloc);
    for table in tables {
        groups.push(eventgroup(alloc, table)?)?;
    }
    Ok(groups)
}

/// A want.
fn want(alloc: Global, table: &Value) -> Result<WantParts, SetupError>
    ensures { IsAsFound want_view result (said_want (view table.now)) }
{
    let service = id_at(table, "service")?;
    let instance = id_at(table, "instance")?;
    let major = major_at(table)?;
    let ttl = ttl_at(table)?;
    let groups = groups(alloc, tables_or_none(table, "groups")?)?;
    Ok(WantParts {
        id: InstanceId { service, instance },
        major,
        ttl,
        groups,
    })
}

/// The wants of a list.
fn wants(alloc: Global, tables: &[Value]) -> Result<Vec<WantParts>, SetupError>
    ensures { IsAsFound (λ v. map want_view v.items) result (found_at_each said_want (map view tables.now)) }
{
    let mut wants = Vec::new(alloc);
    for table in tables {
        wants.push(want(alloc, table)?)?;
    }
    Ok(wants)
}

/// The wants of a node.
pub(crate) fn wants_at(alloc: Global, table: &Value) -> Result<Vec<WantParts>, SetupError>
    ensures { IsAsFound (λ v. map want_view v.items) result (wants_at (view table.now)) }
{
    wants(alloc, tables_or_none(table, "want")?)
}
