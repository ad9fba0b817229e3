//! Keys that the format does not have.
ghost use Rattle.std.specs.Prelude.{◌≡◌, false, List, Some, map, string_bytes, IfErr, OnOk};
ghost use Rattle.std.specs.List.{list_any, find};
ghost use Rattle.std.specs.Option.{option_map};
ghost use Rattle.std.specs.BTreeMap.{keys};
ghost use Rattle.toml.specs.Data.{Data};
ghost use Rattle.toml.specs.View.{view};
ghost use Rattle.someipctl_show.specs.types.Faults.{FirstHasUnknown, IsUnknownAmong, IsUnknownIn, TellsTable, TellsUnknown};
ghost use Rattle.someipctl_show.specs.types.Tables.{file_keys, table_keys, is_unknown, has_unknown, has_unknown_key, message_tables, number_of};

use crate::types::error::TypesError;
use crate::types::key_error::KeyError;
use someip_texts::{is_one_of, lesser};
use std::alloc::Global;
use toml::{Table, Value};

/// The keys that the file may have.
const FILE_KEYS: [&str; 2] = ["message", "types"];

/// The keys that a table of messages may have.
const TABLE_KEYS: [&str; 5] = ["service", "method", "type", "shape", "name"];

/// Whether a key is none of these.
fn is_unknown(key: &str, known: &[&str]) -> bool
    ensures { result ≡ is_unknown (map (λ k. k.now) known.now) key.now }
{
    !is_one_of(key, known)
}

/// The least of the keys that a table may not have.
fn unknown_member<'a>(members: &'a Table, known: &[&str]) -> Option<&'a String>
    ensures { option_map (λ key. key.now) result
        ≡ find (λ key. is_unknown (map (λ k. k.now) known.now) (string_bytes key)) (keys members.now) }
{
    members.keys().find(|key| is_unknown(key.as_str(), known))
}

/// The least key of a table that is none of these. What is no table has none.
pub fn first_unknown<'a>(table: &'a Value, known: &[&str]) -> Option<&'a str>
    ensures { IsUnknownIn (map (λ k. k.now) known.now) (view table.now) (option_map (λ key. key.now) result) }
{
    let Some(members) = table.as_table() else {
        return None;
    };
    match unknown_member(members, known) {
        Some(key) => Some(key.as_str()),
        None => None,
    }
}

/// The least unknown key of the tables.
fn unknown_of(tables: &[Value]) -> Option<&str>
    ensures { IsUnknownAmong (map view tables.now) (option_map (λ key. key.now) result) }
{
    let mut least = None;
    for table in tables {
        least = lesser(least, first_unknown(table, &TABLE_KEYS));
    }
    least
}

/// The number of the first table that has a key.
fn number_of(tables: &[Value], key: &str) -> Option<usize>
    ensures { result ≡ number_of key.now (map view tables.now) }
{
    for (i, table) in tables.iter().enumerate() {
        if table.get(key).is_some() {
            return Some(i + 1);
        }
    }
    None
}

/// Refuses a file that has an unknown key.
fn refuse_unknown_of_file(alloc: Global, tree: &Value) -> Result<(), TypesError>
    ensures ok { OnOk result (has_unknown file_keys (view tree.now) ≡ false) }
    ensures err { (ds : List Data) → IfErr result (TellsUnknown (view tree.now) ds) }
{
    match first_unknown(tree, &FILE_KEYS) {
        Some(key) => {
            let key = String::from_str(alloc, key)?;
            Err(TypesError::File(KeyError::UnknownKey(key)))
        }
        None => Ok(()),
    }
}

/// Refuses tables of which one has an unknown key: the least is told, and the first table that has it.
fn refuse_unknown_of_tables(alloc: Global, tables: &[Value]) -> Result<(), TypesError>
    ensures ok { OnOk result (list_any (has_unknown table_keys) (map view tables.now) ≡ false) }
    ensures err { IfErr result (TellsTable (FirstHasUnknown (map view tables.now))) }
{
    let Some(key) = unknown_of(tables) else {
        return Ok(());
    };
    let Some(number) = number_of(tables, key) else {
        return Ok(());
    };
    let key = String::from_str(alloc, key)?;
    Err(TypesError::Message(number, KeyError::UnknownKey(key)))
}

/// Refuses a file with these tables that has an unknown key, of its own or in a table.
pub(crate) fn refuse_unknown(
    alloc: Global,
    tree: &Value,
    tables: &[Value],
) -> Result<(), TypesError>
    requires { message_tables (view tree.now) ≡ Some (map view tables.now) }
    ensures ok { OnOk result (has_unknown_key (view tree.now) ≡ false) }
    ensures err { IfErr result (TellsUnknown (view tree.now) (map view tables.now)) }
{
    refuse_unknown_of_file(alloc, tree)?;
    refuse_unknown_of_tables(alloc, tables)
}
