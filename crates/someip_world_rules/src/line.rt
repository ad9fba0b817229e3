//! The lines of a trace.
ghost use Rattle.std.specs.Prelude.{◌≡◌, MatchOption, None, Some};
ghost use Rattle.someip_world_rules.specs.Datagrams.{datagram_in};

use someip_node_rules::{NodeError, Output};
use std::net::SocketAddrV4;

/// What a line of a trace tells.
#[derive(Drop)]
pub enum Told {
    /// The node, or the liar, gave this.
    Gave(Output),
    /// The node refused what the step asked of it, and is as it was.
    Refused(NodeError),
}

/// A line of a trace: what a node or a liar gave in a step.
#[derive(Drop)]
pub struct Line {
    /// The step's index, counted from 1.
    pub step: usize,
    /// The place of the node, or of the liar, in the setup, counted from 0.
    pub node: usize,
    /// What is told. The datagrams of a run have numbers: those that its lines tell count from 1.
    pub told: Told,
}

/// A datagram that was sent, as a line tells of it.
#[derive(Clone, Copy)]
pub struct Datagram<'a> {
    /// The endpoint from which it was sent.
    pub from: SocketAddrV4,
    /// The endpoint to which it was sent. A node sends to the endpoint of another, to the multicast endpoint of
    /// Service Discovery, and, among liars, to whatever endpoint a liar's Offer or Subscribe named, or a datagram
    /// of a liar came from. A liar sends to any.
    pub to: SocketAddrV4,
    /// Its bytes.
    pub bytes: &'a [u8],
}

impl Line {
    /// The datagram that the line tells of, if it tells of one.
    pub fn datagram(&self) -> Option<Datagram<'_>>
        ensures { MatchOption result (datagram_in self.now ≡ None)
            (λ d. datagram_in self.now
            ≡ Some (record { from = d.from; to = d.to; bytes = d.bytes.now })) }
    {
        match &self.told {
            Told::Gave(Output::Sent { from, to, bytes }) => Some(Datagram {
                from: *from,
                to: *to,
                bytes: bytes.as_slice(),
            }),
            _ => None,
        }
    }
}
