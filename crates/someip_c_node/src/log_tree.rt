//! The tree of the setup of a log: that of the node's own setup, with other nodes.
//!
//! No contract says what it is. Its text is read again before it is given, as `logging` has it.
use crate::endpoint::Endpoint;
use std::alloc::{AllocError, Global};
use std::net::Ipv4Addr;
use toml::{Table, Value};

/// The tree of a text, with the nodes of the log.
pub(crate) fn log_tree(
    alloc: Global,
    text: &str,
    name: &[u8],
    delay: u32,
    names: &[String],
    peers: &[Endpoint],
) -> Result<Table, AllocError> {
    let Ok(mut tree) = toml::table_from_str(alloc, text) else {
        return Err(AllocError);
    };
    let mut nodes = nodes_of(alloc, &tree, name, delay)?;
    for (name, peer) in names.iter().zip(peers) {
        nodes.push(liar(alloc, name, peer)?)?;
    }
    set(alloc, &mut tree, "node", Value::Array(nodes))?;
    Ok(tree)
}

/// The nodes of a name, with a delay: there is one.
fn nodes_of(
    alloc: Global,
    tree: &Table,
    name: &[u8],
    delay: u32,
) -> Result<Vec<Value>, AllocError> {
    let mut found = Vec::new(alloc);
    if let Some(Value::Array(nodes)) = tree.get("node") {
        for node in nodes {
            if let Value::Table(table) = node {
                if is_named(table, name) {
                    let mut copy = table.clone()?;
                    set(alloc, &mut copy, "delay", Value::Integer(i64::from(delay)))?;
                    found.push(Value::Table(copy))?;
                }
            }
        }
    }
    Ok(found)
}

/// Whether a table has a name.
fn is_named(table: &Table, name: &[u8]) -> bool {
    match table.get("name") {
        Some(Value::String(text)) => text.as_bytes() == name,
        _ => false,
    }
}

/// A liar at the address of a peer.
fn liar(alloc: Global, name: &String, peer: &Endpoint) -> Result<Value, AllocError> {
    let address = Ipv4Addr::from_octets(peer.address);
    let mut table = Table::new(alloc);
    set(alloc, &mut table, "name", Value::String(name.clone()?))?;
    set(
        alloc,
        &mut table,
        "address",
        Value::String(format!(in alloc; "{address}")?),
    )?;
    set(alloc, &mut table, "client_id", Value::Integer(0))?;
    set(alloc, &mut table, "client_port", Value::Integer(1))?;
    set(alloc, &mut table, "liar", Value::Boolean(true))?;
    Ok(Value::Table(table))
}

/// Puts a value to a key of a table.
fn set(alloc: Global, table: &mut Table, key: &str, value: Value) -> Result<(), AllocError> {
    let key = String::from_str(alloc, key)?;
    match table.insert(key, value) {
        Ok(_) => Ok(()),
        Err(_) => Err(AllocError),
    }
}
