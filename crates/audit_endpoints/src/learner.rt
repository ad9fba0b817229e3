//! What is learnt of the endpoints of a recording, where nothing else of it is audited.
ghost use Rattle.std.specs.Prelude.{◌≡◌, IfOk, OnErr, OnOk, map, true};
ghost use Rattle.sd_wire.specs.contents.Values.{view_read};
ghost use Rattle.sd_wire.specs.decoding.Program.{reading};
ghost use Rattle.someip_wire.specs.View.{view_item};
ghost use Rattle.audit_endpoints.specs.Learning.{is_looked_at_or_full, learnt_in, learnt_of, learnt_of_item, learnt_of_payload};
ghost use Rattle.audit_endpoints.specs.Learning.{named_by, once_named_by};
ghost use Rattle.audit_endpoints.specs.DiscoveryMessages.{is_at_discovery};
ghost use Rattle.audit_endpoints.specs.WatchedEndpoints.{watch_begun};

use crate::discovery::{is_at_discovery, is_sd, read_payload};
use crate::entries::named_endpoint;
use crate::watched::{WatchRules, Watched};
use sd_wire::ReadEntry;
use someip_tables::hashed::Origin;
use someip_wire::{Message, Messages, WireError};
use std::alloc::{AllocError, Global};
use std::marker::Model;
use std::net::SocketAddrV4;

/// Learns the endpoints that the Offers and Subscribes of a recording name, and says which datagrams are
/// looked at: as an audit does, but that each is once no more endpoints may be learnt.
#[derive(Drop)]
pub struct Learner {
    watched: Watched,
}

impl Model for Learner {
    ghost use Rattle.audit_endpoints.specs.WatchedEndpoints.{Watch, coded_watch};

    ghost Value = { Watch };

    ghost coded = { coded_watch };

    ghost view = { λ l. l.watched };
}

impl Learner {
    /// Before anything was learnt. At most so many endpoints are.
    pub fn new(alloc: Global, watch: &WatchRules<'_>, limit: usize) -> Result<Learner, AllocError>
        ensures { IfOk result (λ learner. learner ≡ watch_begun watch.now.ports.now watch.now.learns limit) }
    {
        Ok(Learner {
            watched: Watched::new(alloc, watch, limit)?,
        })
    }

    /// Whether a datagram is looked at.
    pub fn looks_at(&self, origin: &Origin) -> bool
        ensures { result ≡ is_looked_at_or_full self.now origin.now }
    {
        self.watched.is_full() || self.watched.looks_at(origin)
    }

    /// Whether an endpoint was named where no more may be learnt.
    pub fn is_full(&self) -> bool
        ensures { result ≡ self.now.told_full }
    {
        self.watched.is_full()
    }

    /// Learns what a datagram names. Memory runs out only for one from or to the port of Service
    /// Discovery, and then nothing is promised of what was learnt.
    pub fn saw(&mut self, alloc: Global, origin: &Origin, datagram: &[u8]) -> Result<(), AllocError>
        ensures learnt { OnOk result (self.new ≡ learnt_in origin.now datagram.now self.old) }
        ensures memory { OnErr result (is_at_discovery origin.now ≡ true) }
    {
        if !is_at_discovery(origin) {
            return Ok(());
        }
        for item in Messages::new(datagram) {
            self.watched.learn_item(alloc, origin, &item)?;
        }
        Ok(())
    }
}

impl Watched {
    /// Learns what an item of a datagram names.
    fn learn_item(
        &mut self,
        alloc: Global,
        origin: &Origin,
        item: &Result<Message<'_>, WireError>,
    ) -> Result<(), AllocError>
        ensures { OnOk result (self.new ≡ learnt_of_item origin.now (view_item item.now) self.old) }
    {
        match item {
            Ok(message) => {
                if !is_sd(origin, &message.header) {
                    return Ok(());
                }
                self.learn_payload(alloc, message.payload)
            }
            Err(_) => Ok(()),
        }
    }

    /// Learns what the payload of a message of Service Discovery names.
    fn learn_payload(&mut self, alloc: Global, payload: &[u8]) -> Result<(), AllocError>
        ensures { OnOk result (self.new ≡ learnt_of_payload (reading payload.now) self.old) }
    {
        match read_payload(alloc, payload)? {
            Ok(read) => self.learn_entries(&read.entries),
            Err(_) => Ok(()),
        }
    }

    /// Learns what entries name.
    fn learn_entries(&mut self, entries: &[ReadEntry]) -> Result<(), AllocError>
        ensures { OnOk result (self.new ≡ learnt_of (map view_read entries.now) self.old) }
    {
        for entry in entries {
            self.learn_entry(entry)?;
        }
        Ok(())
    }

    /// Learns what an entry names.
    fn learn_entry(&mut self, entry: &ReadEntry) -> Result<(), AllocError>
        ensures { OnOk result (self.new ≡ once_named_by (named_by (view_read entry.now)) self.old) }
    {
        if let Some(endpoint) = named_by(entry) {
            self.learn(endpoint)?;
        }
        Ok(())
    }
}

/// The endpoint that an entry names.
fn named_by(entry: &ReadEntry) -> Option<SocketAddrV4>
    ensures { result ≡ named_by (view_read entry.now) }
{
    match entry {
        ReadEntry::Good(entry) => named_endpoint(&entry.head, entry.udp_endpoint()),
        ReadEntry::BadRun(_) => None,
    }
}
