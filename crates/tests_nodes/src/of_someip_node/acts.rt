//! What is done with a node, as plain data, so that a table can hold it beside the lines that come.
//!
//! The tests of a node are tables of plain data: a row is what is done with a node (`Act`) and the lines
//! that come, and one function applies a row. A test that makes ten calls of a node in a row, each with
//! `?`, takes the prover longer than ten minutes, and a table a second. Each call of a node stands alone in
//! a function without a contract, so that what a node promises meets no branch, and one function owns the
//! node, so that no test has to drop one.
use sd_core::{Eventgroup, InstanceId};
use someip_node::{Node, NodeError, Output};
use someip_rpc::{CallKind, Reply};
use someip_tp::IntervalPool;
use std::alloc::{AllocError, Global};
use std::fmt::Display;
use std::net::{Ipv4Addr, SocketAddrV4};

/// A host, where 0 is the multicast group and n the address 192.168.0.n, and a port.
#[derive(Clone, Copy)]
pub(crate) struct Port(pub(crate) u8, pub(crate) u16);

impl Port {
    /// Its endpoint.
    pub(crate) fn endpoint(self) -> SocketAddrV4 {
        let address = if self.0 == 0 {
            Ipv4Addr::new(239, 0, 0, 1)
        } else {
            Ipv4Addr::new(192, 168, 0, self.0)
        };
        SocketAddrV4::new(address, self.1)
    }
}

/// What is done with a node: a call of it. Datagrams and payloads are in hex.
#[derive(Clone, Copy)]
pub(crate) enum Act {
    /// A datagram comes from a port to a port.
    Datagram(Port, Port, &'static str),
    /// So many milliseconds pass.
    Tick(u64),
    /// It is asked in how many milliseconds a tick next gives something, and answers this.
    NextDue(Option<u64>),
    /// A method of an instance is called.
    Call(CallKind, InstanceId, u16, &'static str),
    /// The request under a token is answered.
    Answer(u64, Reply, &'static str),
    /// An event of an instance is published.
    Publish(InstanceId, u16, &'static str),
    /// An event of an eventgroup is published to one port.
    PublishTo(Eventgroup, Port, u16, &'static str),
    /// An eventgroup is wished.
    Subscribe(Eventgroup),
    /// The wish of an eventgroup is taken back.
    Unsubscribe(Eventgroup),
    /// The offer of an instance is stopped.
    StopOffer(InstanceId),
    /// The node is started again with a delay.
    Restart(u32),
}

impl Act {
    /// The datagram or the payload, in hex.
    fn hex(self) -> &'static str {
        match self {
            Act::Datagram(_, _, hex)
            | Act::Call(_, _, _, hex)
            | Act::Answer(_, _, hex)
            | Act::Publish(_, _, hex)
            | Act::PublishTo(_, _, _, hex) => hex,
            _ => "",
        }
    }

    /// What a node answers, where the datagram or the payload is these bytes.
    fn outputs(
        self,
        alloc: Global,
        node: &mut Node<IntervalPool>,
        bytes: &[u8],
    ) -> Result<Vec<Output>, NodeError> {
        match self {
            Act::Datagram(from, to, _) => node.on_datagram(from.endpoint(), to.endpoint(), bytes),
            Act::Tick(ms) => node.tick(ms),
            Act::NextDue(_) => Ok(Vec::new(alloc)),
            Act::Call(kind, of, method, _) => node.call(kind, of, method, bytes),
            Act::Answer(token, reply, _) => node.answer(token, reply, bytes),
            Act::Publish(of, event, _) => node.publish(of, event, bytes),
            Act::PublishTo(of, to, event, _) => {
                node.publish_to(of.instance, of.id, to.endpoint(), event, bytes)
            }
            Act::Subscribe(eventgroup) => node.subscribe(eventgroup),
            Act::Unsubscribe(eventgroup) => node.unsubscribe(eventgroup),
            Act::StopOffer(instance) => node.stop_offer(instance),
            Act::Restart(delay) => restarted(alloc, node, delay),
        }
    }
}

fn restarted(
    alloc: Global,
    node: &mut Node<IntervalPool>,
    delay: u32,
) -> Result<Vec<Output>, NodeError> {
    match node.restart(delay) {
        Ok(()) => Ok(Vec::new(alloc)),
        Err(refusal) => Err(refusal),
    }
}

/// What is done, and the lines that the node gives for it.
pub(crate) type Row = (Act, &'static str);

/// The number of the first of these rows for which a node does not give the lines beside it.
pub(crate) fn first_wrong(
    alloc: Global,
    node: &mut Node<IntervalPool>,
    rows: &[Row],
) -> Option<usize> {
    for (index, (act, lines)) in rows.iter().enumerate() {
        if comes_out(alloc, node, *act, lines) != Some(true) {
            return Some(index);
        }
    }
    None
}

/// Whether a node gives these lines for what is done to it; none where memory is wanting, or the hex is
/// none.
pub(crate) fn comes_out(
    alloc: Global,
    node: &mut Node<IntervalPool>,
    act: Act,
    lines: &str,
) -> Option<bool> {
    match act {
        Act::NextDue(due) => Some(node.next_due() == due),
        _ => gives_lines(alloc, node, act, lines),
    }
}

fn gives_lines(
    alloc: Global,
    node: &mut Node<IntervalPool>,
    act: Act,
    lines: &str,
) -> Option<bool> {
    let bytes = hex::decode(alloc, act.hex()).ok()?;
    Some(is_told(alloc, &act.outputs(alloc, node, &bytes), lines))
}

/// Whether an answer is told by these lines: those of the outputs, or the name of the refusal.
pub(crate) fn is_told(alloc: Global, answer: &Result<Vec<Output>, NodeError>, lines: &str) -> bool {
    match answer {
        Ok(outputs) => rest_after_all(alloc, outputs, lines) == Some(""),
        Err(refusal) => match lines.strip_prefix("refused ") {
            Some(line) => rest_after(alloc, refusal, line) == Some(""),
            None => false,
        },
    }
}

/// The lines after those of all these outputs, if theirs come first.
fn rest_after_all<'a>(alloc: Global, outputs: &[Output], lines: &'a str) -> Option<&'a str> {
    let mut rest = lines;
    for output in outputs {
        rest = rest_after(alloc, output, rest)?;
    }
    Some(rest)
}

/// The lines after the line of this, if that comes first.
fn rest_after<'a, D: Display>(alloc: Global, told: &D, lines: &'a str) -> Option<&'a str> {
    let line = told.to_string(alloc).ok()?;
    let rest = lines.strip_prefix(line.as_str())?;
    rest.strip_prefix('\n')
}
