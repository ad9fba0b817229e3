//! What is known of the servers of a recording.
ghost use Rattle.std.specs.Prelude.{◌≡◌, ◌≢◌, ◌≤◌, IfOk, OnErr, None, not, true};
ghost use Rattle.std.specs.FinMap as finite;
ghost use Rattle.someip_tables.specs.Retained.{retain};
ghost use Rattle.someip_tables.specs.Tables.{map_of};
ghost use Rattle.audit_sd.specs.servers.ServerKeys.{server_cmp};
ghost use Rattle.audit_sd.specs.servers.ServerRules.{ended, ended_state, is_not_offered, is_of, is_offered};
ghost use Rattle.audit_sd.specs.servers.ServerRules.{is_same_served, is_told, offered_at, told_of_version, was_told};
ghost use Rattle.audit_sd.specs.servers.ServerTables.{after_message, after_offer, after_stop, changed_if, judged_of};
ghost use Rattle.audit_index.specs.Owners.{WantsRoom};
ghost use Rattle.audit_sd.specs.servers.ServerTables.{IsOfSender, owners_of, waits_for_none};
ghost use Rattle.audit_sd.specs.servers.ServerTables.{no_servers, tells_full, told_by, without_sender};

use crate::servers::finding::Finding;
use crate::servers::key::ServerKey;
use crate::servers::message::ServerMessage;
use crate::servers::offer::{Served, ServerOffer};
use crate::servers::server::{Server, ServerState};
use audit_index::OwnedTable;
use someip_tables::hashed::Room;
use someip_tables::{Deadline, Moment};
use std::alloc::{AllocError, Global};
use std::marker::Model;
use std::net::Ipv4Addr;

/// What is known of the servers of a recording: of each its newest Offer, and whether that has ended.
#[derive(Drop)]
pub struct ServerBook {
    room: Room,
    known: OwnedTable<ServerKey, Server>,
}

impl Model for ServerBook {
    ghost use Rattle.std.specs.Prelude.{◌≤◌};
    ghost use Rattle.std.specs.FinMap as finite;
    ghost use Rattle.someip_tables.specs.Tables.{map_of};
    ghost use Rattle.audit_sd.specs.servers.ServerKeys.{server_cmp};
    ghost use Rattle.audit_sd.specs.servers.ServerTables.{ServerTable, coded_servers};

    ghost Value = { ServerTable };

    ghost coded = { coded_servers };

    ghost view = { λ b. record {
      limit = b.room.limit;
      known = map_of server_cmp b.known;
      told_full = b.room.told_full;
    } };

    ghost invariant = { λ b. finite.len (map_of server_cmp b.known) ≤ b.room.limit };
}

impl ServerBook {
    /// A book that holds at most so many servers, and none yet. It takes no memory.
    pub fn new(alloc: Global, limit: usize) -> ServerBook
        ensures { result ≡ no_servers limit }
    {
        ServerBook {
            room: Room::new(limit),
            known: OwnedTable::new(alloc),
        }
    }

    /// Takes note of an Offer: its server is offered until its TTL has passed, in place of what was known of
    /// it. Says whether it shows that the book is full, which is told once in the life of a book. Memory is
    /// taken for a new server, or a new sender, alone, and what is refused for want of it leaves the book as it was.
    pub fn offered(&mut self, now: Moment, offer: ServerOffer) -> Result<bool, AllocError>
        ensures told { IfOk result (λ full. full ≡ tells_full offer self.old) }
        ensures after { IfOk result (λ _. self.new ≡ after_offer now offer self.old) }
        ensures err { OnErr result (self.new ≡ self.old) }
        ensures grows { OnErr result (WantsRoom owners_of waits_for_none offer.server
            (finite.get self.old.known offer.server) (offered_at now offer)) }
    {
        let is_held = self.known.get(&offer.server).is_some();
        if !self.room.may_hold(is_held, self.known.len()) {
            let is_first = !self.room.told_full;
            self.room.told_full = true;
            return Ok(is_first);
        }
        self.known.insert(offer.server, offered_at(now, &offer))?;
        Ok(false)
    }

    /// A StopOffer ended an offer at a server. The server has ended, where that is what its newest Offer
    /// offers. It takes no memory.
    pub fn stopped(&mut self, key: &ServerKey, served: Served)
        ensures { self.new ≡ after_stop key.now served self.old }
    {
        stop(&mut self.known, key, served);
    }

    /// Forgets the servers whose newest Offer is of a sender that began again. It looks at these alone, and
    /// takes no memory.
    pub fn forget(&mut self, sender: Ipv4Addr)
        ensures { self.new ≡ without_sender sender self.old }
    {
        forget(&mut self.known, sender);
    }

    /// Takes note of a message, and says what it shows of its server. Of a server of which nothing is known
    /// nothing is told. It takes no memory.
    pub fn heard(&mut self, now: Moment, message: &ServerMessage) -> Option<Finding>
        ensures told { result ≡ told_by now message.now self.old }
        ensures after { self.new ≡ after_message now message.now self.old }
    {
        hear(&mut self.known, now, message)
    }

    /// Of how many servers something is known: no more than the book's limit.
    pub fn len(&self) -> usize
        ensures count { result ≡ finite.len self.now.known }
        ensures few { result ≤ self.now.limit }
    {
        self.known.len()
    }
}

/// A server once an Offer of it came.
fn offered_at(now: Moment, offer: &ServerOffer) -> Server
    ensures { result ≡ offered_at now offer.now }
{
    Server {
        served: offer.served,
        sender: offer.sender,
        state: ServerState::Offered(Deadline::after_ttl(now, offer.ttl)),
    }
}

/// A StopOffer ended an offer at a server.
fn stop(known: &mut OwnedTable<ServerKey, Server>, key: &ServerKey, served: Served)
    ensures { map_of server_cmp known.new ≡ changed_if (is_same_served served) ended key.now
        (finite.get (map_of server_cmp known.old) key.now) (map_of server_cmp known.old) }
{
    let Some(server) = known.get(key) else {
        return;
    };
    if is_same_served(served, &server) {
        keep(known, key, ended(&server));
    }
}

/// Whether the newest Offer of a server offers this.
fn is_same_served(served: Served, server: &Server) -> bool
    ensures { result ≡ is_same_served served server.now }
{
    served == server.served
}

/// A server that has ended.
fn ended(server: &Server) -> Server
    ensures { result ≡ ended server.now }
{
    Server {
        served: server.served,
        sender: server.sender,
        state: ended_state(server.state),
    }
}

/// The state of a server that has ended: a REQUEST that was told stays told.
fn ended_state(state: ServerState) -> ServerState
    ensures { result ≡ ended_state state }
{
    match state {
        ServerState::Told => ServerState::Told,
        ServerState::Offered(_) | ServerState::Ended => ServerState::Ended,
    }
}

/// A message comes, to a server or from it.
fn hear(
    known: &mut OwnedTable<ServerKey, Server>,
    now: Moment,
    message: &ServerMessage,
) -> Option<Finding>
    ensures told { result
        ≡ judged_of now message.now (finite.get (map_of server_cmp known.old) message.now.server) }
    ensures after { map_of server_cmp known.new ≡ changed_if (is_not_offered now message.now) was_told
        message.now.server (finite.get (map_of server_cmp known.old) message.now.server)
        (map_of server_cmp known.old) }
{
    let server = known.get(&message.server)?;
    if is_not_offered(now, message, &server) {
        keep(known, &message.server, was_told(&server));
        return Some(Finding::NotOffered);
    }
    told_of_version(now, message, &server)
}

/// Puts a server in place of what is known of it, with the same sender. It takes no memory.
fn keep(known: &mut OwnedTable<ServerKey, Server>, key: &ServerKey, server: Server)
    requires { IsOfSender server.sender (finite.get (map_of server_cmp known.now) key.now) }
    ensures { map_of server_cmp known.new
        ≡ finite.insert (map_of server_cmp known.old) key.now server }
{
    let _ = known.insert(*key, server);
}

/// Whether a message is a REQUEST to a server that has ended, and none was told since.
fn is_not_offered(now: Moment, message: &ServerMessage, server: &Server) -> bool
    ensures { result ≡ is_not_offered now message.now server.now }
{
    message.is_request && !is_offered(now, server.state) && !is_told(server.state)
}

/// Whether a server is offered.
fn is_offered(now: Moment, state: ServerState) -> bool
    ensures { result ≡ is_offered now state }
{
    match state {
        ServerState::Offered(until) => !until.has_passed(now),
        ServerState::Ended | ServerState::Told => false,
    }
}

/// Whether a REQUEST to a server that has ended was told.
fn is_told(state: ServerState) -> bool
    ensures { result ≡ is_told state }
{
    matches!(state, ServerState::Told)
}

/// A server that has ended, and a REQUEST to it was told.
fn was_told(server: &Server) -> Server
    ensures { result ≡ was_told server.now }
{
    Server {
        served: server.served,
        sender: server.sender,
        state: ServerState::Told,
    }
}

/// What a message shows by its Interface Version.
fn told_of_version(now: Moment, message: &ServerMessage, server: &Server) -> Option<Finding>
    ensures { result ≡ told_of_version now message.now server.now }
{
    let expected = server.served.major;
    if is_offered(now, server.state) && message.interface != expected {
        Some(Finding::Interface { expected })
    } else {
        None
    }
}

/// Forgets the servers of a sender.
fn forget(known: &mut OwnedTable<ServerKey, Server>, sender: Ipv4Addr)
    ensures { map_of server_cmp known.new
        ≡ retain (map_of server_cmp known.old) (λ _ server. not (is_of sender server)) }
{
    known.forget(sender);
}
