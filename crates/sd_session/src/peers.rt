//! Which peers were seen, and which of them began again.
//!
//! The table of peers keeps its limit, and its value has it: a caller cannot ask it with another.
ghost use Rattle.std.specs.Prelude.{◌≡◌, ◌≤◌, ◌||◌, is_some, nat_lt};
ghost use Rattle.std.specs.FinMap as finite;
ghost use Rattle.someip_tables.specs.Endpoints.{address_cmp};
ghost use Rattle.someip_tables.specs.Tables.{map_of};
ghost use Rattle.sd_session.specs.Peers.{Saw, last_on, with_stamp, shows_reboot, told_by};
ghost use Rattle.sd_session.specs.Peers.{stamps_after, stamps_or_none};

use crate::error::SessionError;
use crate::stamp::{Channel, Stamp};
use std::alloc::Global;
use std::collections::BTreeMap;
use std::marker::Model;
use std::net::Ipv4Addr;

/// What a message tells of its sender.
#[derive(Clone, Copy, Debug, PartialEq, Eq)]
pub enum Seen {
    /// The sender goes on, or is new.
    Same,
    /// The sender began again: what was learned from it ends.
    Rebooted,
}

/// The last stamp that a peer sent on each channel, if there is one.
#[derive(Clone, Copy)]
struct Stamps {
    multicast: Option<Stamp>,
    unicast: Option<Stamp>,
}

/// A peer without messages.
const NO_STAMPS: Stamps = Stamps {
    multicast: None,
    unicast: None,
};

/// The peers that were seen, each with the last stamp of its two channels.
#[derive(Drop)]
pub struct PeerTable {
    limit: usize,
    peers: BTreeMap<Ipv4Addr, Stamps>,
}

impl Model for PeerTable {
    ghost use Rattle.std.specs.Prelude.{◌≤◌};
    ghost use Rattle.std.specs.FinMap as finite;
    ghost use Rattle.someip_tables.specs.Endpoints.{address_cmp};
    ghost use Rattle.someip_tables.specs.Tables.{map_of};
    ghost use Rattle.sd_session.specs.Peers.{Peers, coded_peers};

    ghost Value = { Peers };

    ghost coded = { coded_peers };

    ghost view = { λ t. record { limit = t.limit; held = map_of address_cmp t.peers.entries } };

    ghost invariant = { λ t. finite.len (map_of address_cmp t.peers.entries) ≤ t.limit };
}

impl PeerTable {
    /// A table that holds at most so many peers, and none yet. It takes no memory.
    pub fn new(alloc: Global, limit: usize) -> PeerTable
        ensures { result ≡ record { limit = limit; held = finite.empty } }
    {
        PeerTable {
            limit,
            peers: BTreeMap::new(alloc),
        }
    }

    /// Enters a message of a peer, and says whether it shows that the peer began again: its Reboot
    /// flag went from 0 to 1 on this channel, or stayed 1 and the session did not rise. Then both
    /// channels of the peer are forgotten, and the message is the first of its channel (SOME/IP
    /// Service Discovery Protocol, "Detection of reboots").
    ///
    /// `PeersFull` where the peer is new and the table holds its limit. A peer that the table holds
    /// takes no memory.
    pub fn saw(
        &mut self,
        peer: Ipv4Addr,
        channel: Channel,
        session: u16,
        reboot: bool,
    ) -> Result<Seen, SessionError>
        ensures saw { Saw self.old.limit peer channel (record { session = session; reboot = reboot })
            self.old.held result self.new.held }
        ensures limit { self.new.limit ≡ self.old.limit }
    {
        let stamp = Stamp { session, reboot };
        enter(&mut self.peers, self.limit, peer, channel, stamp)
    }

    /// How many peers there are: no more than the table's limit.
    pub fn len(&self) -> usize
        ensures count { result ≡ finite.len self.now.held }
        ensures few { result ≤ self.now.limit }
    {
        self.peers.len()
    }

    /// Forgets all peers. It takes no memory.
    pub fn clear(&mut self)
        ensures { self.new ≡ record { limit = self.old.limit; held = finite.empty } }
    {
        self.peers.clear();
    }
}

/// What the messages of a peer tell whose last stamps these are, once one more came; and its stamps
/// then.
fn judge(stamps: Stamps, channel: Channel, stamp: Stamp) -> (Seen, Stamps)
    ensures seen { result.0 ≡ told_by channel stamp stamps }
    ensures after { result.1 ≡ stamps_after channel stamp stamps }
{
    if began_again(last_on(stamps, channel), stamp) {
        (Seen::Rebooted, with_stamp(NO_STAMPS, channel, stamp))
    } else {
        (Seen::Same, with_stamp(stamps, channel, stamp))
    }
}

fn began_again(last: Option<Stamp>, stamp: Stamp) -> bool
    ensures { result ≡ shows_reboot last stamp }
{
    match last {
        None => false,
        Some(last) => stamp.reboot && (!last.reboot || stamp.session <= last.session),
    }
}

fn last_on(stamps: Stamps, channel: Channel) -> Option<Stamp>
    ensures { result ≡ last_on channel stamps }
{
    match channel {
        Channel::Multicast => stamps.multicast,
        Channel::Unicast => stamps.unicast,
    }
}

fn with_stamp(stamps: Stamps, channel: Channel, stamp: Stamp) -> Stamps
    ensures { result ≡ with_stamp channel stamp stamps }
{
    match channel {
        Channel::Multicast => Stamps {
            multicast: Some(stamp),
            unicast: stamps.unicast,
        },
        Channel::Unicast => Stamps {
            multicast: stamps.multicast,
            unicast: Some(stamp),
        },
    }
}

/// Enters a message in a table that may hold so many peers.
fn enter(
    peers: &mut BTreeMap<Ipv4Addr, Stamps>,
    limit: usize,
    peer: Ipv4Addr,
    channel: Channel,
    stamp: Stamp,
) -> Result<Seen, SessionError>
    ensures { Saw limit peer channel stamp (map_of address_cmp peers.old.entries) result
        (map_of address_cmp peers.new.entries) }
{
    let known = peers.get(&peer).copied();
    if !has_room(known, peers.len(), limit) {
        return Err(SessionError::PeersFull);
    }
    let (seen, stamps) = judge(stamps_or_none(known), channel, stamp);
    match peers.insert(peer, stamps) {
        Ok(_) => Ok(seen),
        Err(_) => Err(SessionError::OutOfMemory),
    }
}

/// Whether there is room for a peer among so many: it is known, or they are fewer than the limit.
fn has_room(known: Option<Stamps>, peers: usize, limit: usize) -> bool
    ensures { result ≡ is_some known || nat_lt peers limit }
{
    known.is_some() || peers < limit
}

fn stamps_or_none(known: Option<Stamps>) -> Stamps
    ensures { result ≡ stamps_or_none known }
{
    match known {
        None => NO_STAMPS,
        Some(stamps) => stamps,
    }
}
