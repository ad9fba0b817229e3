//! What became of the datagrams of a run.

use crate::chart::rows::Rows;
use someip_world::{Line, SetupNode, Step};
use someip_world_rules::place_of;
use std::alloc::{AllocError, Global};
use std::collections::{BTreeMap, BTreeSet};

/// A datagram that was sent. They are numbered from 1 by their places.
#[derive(Clone, Copy)]
pub(crate) struct Sent {
    /// The place of its line among those of the trace.
    pub(crate) line: usize,
    /// The place of the node that sent it.
    pub(crate) node: usize,
    /// Its row.
    pub(crate) row: usize,
}

/// How a datagram was delivered.
#[derive(Clone, Copy)]
pub(crate) enum Fate {
    /// For the first time, and none that its sender sent after it came before.
    Arrived,
    /// After one that its sender sent after it.
    Overtaken,
    /// Not for the first time to this node.
    Repeated,
}

/// A delivery of a datagram.
#[derive(Clone, Copy)]
pub(crate) struct Delivery {
    /// The place of the datagram among those that were sent.
    pub(crate) place: usize,
    /// The datagram.
    pub(crate) sent: Sent,
    /// The place of the node that it was delivered to.
    pub(crate) node: usize,
    /// The row of the step that did.
    pub(crate) row: usize,
    /// How it came.
    pub(crate) fate: Fate,
}

/// What was delivered so far; nodes and datagrams are known by their places.
#[derive(Drop)]
struct Delivered {
    /// Each datagram that came to a node, with that node.
    came: BTreeSet<(usize, usize)>,
    /// Of what came from one node to another, the datagram that was sent last.
    newest: BTreeMap<(usize, usize), usize>,
}

impl Delivered {
    /// How a datagram of a sender comes to a node now.
    fn add(&mut self, place: usize, sender: usize, node: usize) -> Result<Fate, AllocError> {
        if !self.came.insert((place, node))? {
            return Ok(Fate::Repeated);
        }
        match self.newest.get(&(sender, node)) {
            Some(newest) if place < *newest => Ok(Fate::Overtaken),
            _ => {
                self.newest.insert((sender, node), place)?;
                Ok(Fate::Arrived)
            }
        }
    }
}

/// The datagrams that the lines of a trace tell of.
pub(crate) fn sent_in(alloc: Global, rows: &Rows, lines: &[Line]) -> Result<Vec<Sent>, AllocError> {
    let mut sent = Vec::new(alloc);
    for (index, line) in lines.iter().enumerate() {
        if line.datagram().is_some() {
            sent.push(Sent {
                line: index,
                node: line.node,
                row: rows.of_line(index),
            })?;
        }
    }
    Ok(sent)
}

/// The deliveries that steps do, in order.
pub(crate) fn deliveries_in(
    alloc: Global,
    nodes: &[SetupNode],
    steps: &[Step],
    rows: &Rows,
    sent: &[Sent],
) -> Result<Vec<Delivery>, AllocError> {
    let mut deliveries = Vec::new(alloc);
    let mut delivered = Delivered {
        came: BTreeSet::new(alloc),
        newest: BTreeMap::new(alloc),
    };
    for (index, step) in steps.iter().enumerate() {
        if let Some((place, datagram, node)) = delivered_by(step, nodes, sent) {
            let fate = delivered.add(place, datagram.node, node)?;
            deliveries.push(Delivery {
                place,
                sent: datagram,
                node,
                row: rows.of_step(index),
                fate,
            })?;
        }
    }
    Ok(deliveries)
}

/// The datagram that a step delivers, and the node to which: both by their places.
fn delivered_by(step: &Step, nodes: &[SetupNode], sent: &[Sent]) -> Option<(usize, Sent, usize)> {
    let Step::Deliver { number, node } = step else {
        return None;
    };
    let place = usize::try_from(*number).ok()?.checked_sub(1)?;
    let datagram = sent.get(place).copied()?;
    let node = place_of(nodes, node.as_str())?;
    Some((place, datagram, node))
}

/// The places of the datagrams that some step delivers.
pub(crate) fn delivered_places(
    alloc: Global,
    deliveries: &[Delivery],
) -> Result<BTreeSet<usize>, AllocError> {
    let mut places = BTreeSet::new(alloc);
    for delivery in deliveries {
        places.insert(delivery.place)?;
    }
    Ok(places)
}
