//! The tables of a types file.
//!
//! What clashes is told last, after unknown keys: two tables are compared once each of them is good.
ghost use Rattle.std.specs.Prelude.{◌≡◌, ◌≤◌, Some, None, map, option_map, IfOk, IfErr, OnErr};
ghost use Rattle.std.specs.List.{list_all};
ghost use Rattle.toml.specs.View.{view};
ghost use Rattle.someipctl_show.specs.types.Faults.{FailsAt, FirstFails, HasFault, ShapeTold, TellsTable, in_message};
ghost use Rattle.someipctl_show.specs.types.Keys.{IsAsSaid, IsOnly};
ghost use Rattle.someipctl_show.specs.types.Says.{SaysEach, SaysTable, left_after};
ghost use Rattle.someipctl_show.specs.types.Names.{most_written};
ghost use Rattle.someipctl_show.specs.types.Tables.{as_list, is_table, message_tables};
ghost use Rattle.someipctl_show.specs.types.Views.{typed_view, types_view};

use crate::types::error::TypesError;
use crate::types::key_error::KeyError;
use crate::types::keys::{id_at, kind_at, label_at, shape_at};
use crate::types::names::Names;
use crate::types::typed_message::TypedMessage;
use someip_payload::NamedShapes;
use std::alloc::Global;
use toml::Value;

/// The tables at the key `message`, or none.
pub(crate) fn message_tables(tree: &Value) -> Result<&[Value], TypesError>
    ensures ok { IfOk result (λ list. message_tables (view tree.now) ≡ Some (map view list.now)) }
    ensures none { OnErr result (message_tables (view tree.now) ≡ None) }
    ensures err { IfErr result (HasFault (view tree.now)) }
{
    let Some(value) = tree.get("message") else {
        return Ok(&[]);
    };
    match elements(value) {
        Some(list) if are_tables(list) => Ok(list),
        _ => Err(TypesError::File(KeyError::WrongKind("message"))),
    }
}

/// The elements of an array.
fn elements(value: &Value) -> Option<&[Value]>
    ensures { option_map (λ s. map view s.now) result ≡ as_list (view value.now) }
{
    match value.as_array() {
        Some(list) => Some(list),
        None => None,
    }
}

/// Whether each element is a table.
fn are_tables(list: &[Value]) -> bool
    ensures { result ≡ list_all is_table (map view list.now) }
{
    is_each_table(list)
}

/// The same of values.
fn is_each_table(list: &[Value]) -> bool
    ensures { result ≡ list_all (λ v. is_table (view v)) list.now }
{
    list.iter().all(|v| v.is_table())
}

/// What tables say, in their order, by what names stand for.
pub(crate) fn typed_messages(
    alloc: Global,
    names: &Names,
    tables: &[Value],
) -> Result<Vec<TypedMessage>, TypesError>
    requires { names.now.left ≤ most_written }
    ensures ok { IfOk result (λ v. IsOnly (SaysEach names.now.shapes names.now.left (map view tables.now))
        (types_view v.items)) }
    ensures err { IfErr result (TellsTable (FirstFails names.now.shapes names.now.left (map view tables.now))) }
{
    let mut messages = Vec::new(alloc);
    let mut left = names.left;
    for (i, table) in tables.iter().enumerate() {
        match typed_message(alloc, &names.shapes, left, table) {
            Ok((message, rest)) => {
                messages.push(message)?;
                left = rest;
            }
            Err(error) => return Err(in_message(i + 1, error)),
        }
    }
    Ok(messages)
}

/// What is told of the table with a number.
fn in_message(number: usize, error: KeyError) -> TypesError
    ensures { result ≡ in_message number error }
{
    match error {
        KeyError::OutOfMemory => TypesError::OutOfMemory,
        error => TypesError::Message(number, error),
    }
}

/// What a table says, where so many shapes may be written out for names, and how many may be after it.
fn typed_message(
    alloc: Global,
    names: &NamedShapes,
    left: u64,
    table: &Value,
) -> Result<(TypedMessage, u64), KeyError>
    requires { left ≤ most_written }
    ensures said { IsAsSaid (λ x. typed_view x.0) result (SaysTable names.now left (view table.now))
        (FailsAt names.now left (view table.now)) }
    ensures left { IfOk result (λ x. x.1 ≡ left_after names.now left (view table.now)) }
    ensures told { IfErr result (ShapeTold names.now left (view table.now)) }
{
    let service = id_at(table, "service")?;
    let method = id_at(table, "method")?;
    let kind = kind_at(table)?;
    let (shape, rest) = shape_at(alloc, names, left, table)?;
    let name = label_at(alloc, table)?;
    let message = TypedMessage {
        service,
        method,
        kind,
        shape,
        name,
    };
    Ok((message, rest))
}
