//! The nodes.
//!
//! A liar with an empty list of offers or wants has no such table, as an empty list is like an absent key
//! in the whole setup.
ghost use Rattle.std.specs.Prelude.{◌≡◌, true, codes, map, IfOk};
ghost use Rattle.someip_node_rules.specs.forms.GoodConfigs.{is_good_common};
ghost use Rattle.toml.specs.View.{view};
ghost use Rattle.someip_world_setup_keys.specs.Keys.{IsAsFound, number_within};
ghost use Rattle.someip_world_setup_keys.specs.Lists.{found_at_each};
ghost use Rattle.someip_world_setup_keys.specs.SaidByKeys.{said_node, node_tables, said_setup};
ghost use Rattle.someip_world_setup_keys.specs.Values.{node_view, parts_view};

use crate::addresses::address_at;
use crate::commons::common;
use crate::error::SetupError;
use crate::flags::flag_or;
use crate::key_numbers::{integer, port_at, short, word_or};
use crate::names::name_at;
use crate::offers::offers_at;
use crate::parts::{NodeParts, SetupParts};
use crate::tables::tables_at;
use crate::wants::wants_at;
use std::alloc::Global;
use toml::Value;

/// The Client ID of a node.
fn client_id_at(table: &Value) -> Result<u16, SetupError>
    ensures { IsAsFound (λ n. n) result (number_within (codes "client_id") 0 0xFFFF (view table.now)) }
{
    short("client_id", integer(table, "client_id")?, 0, 0xffff)
}

/// A node, whose delay lies between two times.
fn node(alloc: Global, table: &Value, least: u32, most: u32) -> Result<NodeParts, SetupError>
    ensures { IsAsFound node_view result (said_node least most (view table.now)) }
{
    let name = name_at(alloc, table)?;
    let address = address_at(table, "address")?;
    let client_id = client_id_at(table)?;
    let client_port = port_at(table, "client_port")?;
    let delay = word_or(table, "delay", i64::from(least), least, most)?;
    let is_liar = flag_or(table, "liar", false)?;
    let offers = offers_at(alloc, table)?;
    let wants = wants_at(alloc, table)?;
    Ok(NodeParts {
        name,
        address,
        client_id,
        client_port,
        delay,
        is_liar,
        offers,
        wants,
    })
}

/// The nodes of a list, each with a delay between two times.
fn nodes(
    alloc: Global,
    tables: &[Value],
    least: u32,
    most: u32,
) -> Result<Vec<NodeParts>, SetupError>
    ensures { IsAsFound (λ v. map node_view v.items) result (found_at_each (said_node least most) (map view tables.now)) }
{
    let mut nodes = Vec::new(alloc);
    for table in tables {
        nodes.push(node(alloc, table, least, most)?)?;
    }
    Ok(nodes)
}

/// The tables of the nodes, from 1 to 64.
fn node_tables(tree: &Value) -> Result<&[Value], SetupError>
    ensures { IsAsFound (λ s. map view s.now) result (node_tables (view tree.now)) }
{
    let tables = tables_at(tree, "node")?;
    if tables.is_empty() || 64 < tables.len() {
        return Err(SetupError::OutOfRange("node"));
    }
    Ok(tables)
}

/// What a tree says.
pub fn parts_of(alloc: Global, tree: &Value) -> Result<SetupParts, SetupError>
    ensures said { IsAsFound parts_view result (said_setup (view tree.now)) }
    ensures good { IfOk result (λ p. is_good_common p.common ≡ true) }
{
    let common = common(tree)?;
    let tables = node_tables(tree)?;
    let nodes = nodes(alloc, tables, common.initial_min_ms, common.initial_max_ms)?;
    Ok(SetupParts { common, nodes })
}
