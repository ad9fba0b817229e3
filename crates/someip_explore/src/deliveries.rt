//! The deliveries of what was sent.
ghost use Rattle.std.specs.Prelude.{◌≡◌, ◌++◌, ◌||◌, IfOk, OnOk, map};
ghost use Rattle.std.specs.List.{flat_map};
ghost use Rattle.someip_node_rules.specs.rules.Handling.{same_address};
ghost use Rattle.someip_world_schedule.specs.declared.step.Step.TheVariants.{Deliver};
ghost use Rattle.someip_world_rules.specs.Datagrams.{datagram_in};
ghost use Rattle.someip_explore.specs.Moves.{delivery_to, deliveries_from, deliveries_in, may_take, numbers_to};

use crate::numbers::number_after;
use someip_node_rules::Config;
use someip_tables::is_same_key;
use someip_world::{Line, NodeName, SetupNode, Step};
use someip_world_rules::Datagram;
use std::alloc::{AllocError, Global};
use std::net::Ipv4Addr;

/// The step that delivers a datagram to the node of a name.
fn delivery(alloc: Global, number: u64, node: &str) -> Result<Step, AllocError>
    ensures { IfOk result (λ step. step ≡ Deliver number node.now) }
{
    match NodeName::read(alloc, node)? {
        Some(node) => Ok(Step::Deliver { number, node }),
        // A setup and a step have names of nodes alone.
        None => Err(AllocError),
    }
}

/// Adds the deliveries of all datagrams to a node.
pub(crate) fn put_deliveries(
    alloc: Global,
    sent: usize,
    node: &NodeName,
    choices: &mut Vec<Step>,
) -> Result<(), AllocError>
    ensures { OnOk result (choices.new.items
        ≡ choices.old.items ++ map (λ number. Deliver number node.now) (numbers_to sent)) }
{
    for done in 0..sent {
        choices.push(delivery(alloc, done as u64 + 1, node.as_str())?)?;
    }
    Ok(())
}

/// Whether a datagram that was sent to an address may be delivered to a node.
fn is_addressed(config: &Config, to: Ipv4Addr) -> bool
    ensures { result ≡ (same_address to config.now.address
        || same_address to config.now.common.group) }
{
    is_same_key(&to, &config.address) || is_same_key(&to, &config.common.group)
}

/// Whether a datagram may be delivered to a node that is no liar.
fn may_take(datagram: Datagram<'_>, node: &SetupNode) -> bool
    ensures { result ≡ may_take
        (record { from = datagram.entry.from; to = datagram.entry.to; bytes = datagram.entry.bytes.now }) node.now }
{
    !node.is_liar && is_addressed(&node.config, *datagram.to.ip())
}

/// Adds the delivery of a datagram to a node, if it may be delivered there.
fn put_delivery(
    alloc: Global,
    number: usize,
    datagram: Datagram<'_>,
    node: &SetupNode,
    choices: &mut Vec<Step>,
) -> Result<(), AllocError>
    ensures { OnOk result (choices.new.items ≡ choices.old.items ++ delivery_to number
        (record { from = datagram.entry.from; to = datagram.entry.to; bytes = datagram.entry.bytes.now }) node.now) }
{
    if may_take(datagram, node) {
        choices.push(delivery(alloc, number as u64, node.name.as_str())?)?;
    }
    Ok(())
}

/// Adds the deliveries of a datagram to all nodes to which it may be delivered.
fn put_to_all(
    alloc: Global,
    nodes: &[SetupNode],
    number: usize,
    datagram: Datagram<'_>,
    choices: &mut Vec<Step>,
) -> Result<(), AllocError>
    ensures { OnOk result (choices.new.items ≡ choices.old.items ++ flat_map (delivery_to number
        (record { from = datagram.entry.from; to = datagram.entry.to; bytes = datagram.entry.bytes.now })) nodes.now) }
{
    for node in nodes {
        put_delivery(alloc, number, datagram, node, choices)?;
    }
    Ok(())
}

/// Adds the deliveries of the datagram that a line tells of, if it tells of one. It has a number.
fn put_told(
    alloc: Global,
    nodes: &[SetupNode],
    number: usize,
    line: &Line,
    choices: &mut Vec<Step>,
) -> Result<(), AllocError>
    ensures { OnOk result (choices.new.items
        ≡ choices.old.items ++ deliveries_in nodes.now number (datagram_in line.now)) }
{
    match line.datagram() {
        Some(datagram) => put_to_all(alloc, nodes, number, datagram, choices),
        None => Ok(()),
    }
}

/// Adds the deliveries of all datagrams to all nodes to which they may be delivered.
pub(crate) fn put_all_deliveries(
    alloc: Global,
    nodes: &[SetupNode],
    lines: &[Line],
    choices: &mut Vec<Step>,
) -> Result<(), AllocError>
    ensures { OnOk result (choices.new.items
        ≡ choices.old.items ++ deliveries_from nodes.now 1 lines.now) }
{
    let mut number = 1;
    for line in lines {
        put_told(alloc, nodes, number, line, choices)?;
        number = number_after(number, line);
    }
    Ok(())
}
