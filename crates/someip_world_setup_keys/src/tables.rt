//! The lists at the keys of a table.
ghost use Rattle.std.specs.Prelude.{◌≡◌, map, option_map};
ghost use Rattle.std.specs.List.{list_all};
ghost use Rattle.toml.specs.View.{view};
ghost use Rattle.someip_world_setup_keys.specs.Keys.{IsAsFound};
ghost use Rattle.someip_world_setup_keys.specs.KnownKeys.{listed_at};
ghost use Rattle.someip_world_setup_keys.specs.Lists.{as_list, is_table, is_integer, tables_of, integers_of, tables_at, tables_or_none, integers_at, integers_or_none};

use crate::error::SetupError;
use toml::Value;

/// The elements of an array.
fn elements(value: &Value) -> Option<&[Value]>
    ensures { option_map (λ s. map view s.now) result ≡ as_list (view value.now) }
{
    match value.as_array() {
        Some(list) => Some(list),
        None => None,
    }
}

/// Whether each element is a table.
fn are_tables(list: &[Value]) -> bool
    ensures { result ≡ list_all is_table (map view list.now) }
{
    is_each_table(list)
}

/// The same of values.
fn is_each_table(list: &[Value]) -> bool
    ensures { result ≡ list_all (λ v. is_table (view v)) list.now }
{
    list.iter().all(|v| v.is_table())
}

/// Whether each element is an integer.
fn are_integers(list: &[Value]) -> bool
    ensures { result ≡ list_all is_integer (map view list.now) }
{
    is_each_integer(list)
}

/// The same of values.
fn is_each_integer(list: &[Value]) -> bool
    ensures { result ≡ list_all (λ v. is_integer (view v)) list.now }
{
    list.iter().all(|v| v.is_integer())
}

/// The tables of a list.
fn tables_of<'a>(value: &'a Value, key: &'static str) -> Result<&'a [Value], SetupError>
    ensures { IsAsFound (λ s. map view s.now) result (tables_of (view value.now)) }
{
    let Some(list) = elements(value) else {
        return Err(SetupError::WrongKind(key));
    };
    if are_tables(list) {
        Ok(list)
    } else {
        Err(SetupError::WrongKind(key))
    }
}

/// The integers of a list, as values.
fn integers_of<'a>(value: &'a Value, key: &'static str) -> Result<&'a [Value], SetupError>
    ensures { IsAsFound (λ s. map view s.now) result (integers_of (view value.now)) }
{
    let Some(list) = elements(value) else {
        return Err(SetupError::WrongKind(key));
    };
    if are_integers(list) {
        Ok(list)
    } else {
        Err(SetupError::WrongKind(key))
    }
}

/// The tables at a key that is needed.
pub(crate) fn tables_at<'a>(table: &'a Value, key: &'static str) -> Result<&'a [Value], SetupError>
    ensures { IsAsFound (λ s. map view s.now) result (tables_at key.now (view table.now)) }
{
    match table.get(key) {
        Some(value) => tables_of(value, key),
        None => Err(SetupError::Missing(key)),
    }
}

/// The tables at a key, or none.
pub(crate) fn tables_or_none<'a>(
    table: &'a Value,
    key: &'static str,
) -> Result<&'a [Value], SetupError>
    ensures { IsAsFound (λ s. map view s.now) result (tables_or_none key.now (view table.now)) }
{
    match table.get(key) {
        Some(value) => tables_of(value, key),
        None => Ok(&[]),
    }
}

/// The integers at a key that is needed, as values.
pub(crate) fn integers_at<'a>(
    table: &'a Value,
    key: &'static str,
) -> Result<&'a [Value], SetupError>
    ensures { IsAsFound (λ s. map view s.now) result (integers_at key.now (view table.now)) }
{
    match table.get(key) {
        Some(value) => integers_of(value, key),
        None => Err(SetupError::Missing(key)),
    }
}

/// The integers at a key, as values, or none.
pub(crate) fn integers_or_none<'a>(
    table: &'a Value,
    key: &'static str,
) -> Result<&'a [Value], SetupError>
    ensures { IsAsFound (λ s. map view s.now) result (integers_or_none key.now (view table.now)) }
{
    match table.get(key) {
        Some(value) => integers_of(value, key),
        None => Ok(&[]),
    }
}

/// The elements of the list at a key, or none where there is no list.
pub(crate) fn listed_at<'a>(table: &'a Value, key: &str) -> &'a [Value]
    ensures { map view result.now ≡ listed_at key.now (view table.now) }
{
    let Some(value) = table.get(key) else {
        return &[];
    };
    match elements(value) {
        Some(list) => list,
        None => &[],
    }
}
