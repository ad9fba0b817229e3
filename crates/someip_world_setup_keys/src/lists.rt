//! Lists of IDs, of events and of eventgroups.
ghost use Rattle.std.specs.Prelude.{map};
ghost use Rattle.toml.specs.View.{view};
ghost use Rattle.someip_world_setup_keys.specs.Keys.{IsAsFound};
ghost use Rattle.someip_world_setup_keys.specs.Lists.{id_of, ids_of};

use crate::error::SetupError;
use crate::key_numbers::short;
use std::alloc::Global;
use toml::Value;

/// The ID that an element of a list is.
fn element(value: &Value, key: &'static str, low: u16, high: u16) -> Result<u16, SetupError>
    ensures { IsAsFound (λ n. n) result (id_of low high (view value.now)) }
{
    match value.as_integer() {
        Some(number) => short(key, number, low, high),
        None => Err(SetupError::WrongKind(key)),
    }
}

/// The IDs of a list, from `low` to `high` each.
pub(crate) fn ids(
    alloc: Global,
    list: &[Value],
    key: &'static str,
    low: u16,
    high: u16,
) -> Result<Vec<u16>, SetupError>
    ensures { IsAsFound (λ v. v.items) result (ids_of low high (map view list.now)) }
{
    let mut ids = Vec::new(alloc);
    for value in list {
        ids.push(element(value, key, low, high)?)?;
    }
    Ok(ids)
}
