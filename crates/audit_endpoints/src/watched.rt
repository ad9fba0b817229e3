//! At which ports and endpoints datagrams are looked at.
ghost use Rattle.std.specs.Prelude.{◌≡◌, IfOk, OnErr, nat_lt, true};
ghost use Rattle.std.specs.FinMap as finite;
ghost use Rattle.someip_tables.specs.Endpoints.{endpoint_cmp};
ghost use Rattle.someip_tables.specs.Tables.{map_of};
ghost use Rattle.audit_endpoints.specs.WatchedEndpoints.{is_asked, is_looked_at, is_passed_over};
ghost use Rattle.audit_endpoints.specs.WatchedEndpoints.{needs_memory, once_named, told_of_endpoint, watch_begun};

use crate::discovery::is_at_discovery;
use crate::finding::Finding;
use someip_tables::hashed::{KeySet, Origin, Room};
use std::alloc::{AllocError, Global};
use std::marker::Model;
use std::net::SocketAddrV4;

/// The endpoints that were learnt.
type Learnt = KeySet<SocketAddrV4>;

/// Which datagrams are looked at beside those from and to the port of Service Discovery.
#[derive(Clone, Copy)]
pub struct WatchRules<'a> {
    /// Those from or to one of these ports.
    pub ports: &'a [u16],
    /// Whether also those from or to an endpoint that an Offer or a Subscribe named before.
    pub learns: bool,
}

/// At which ports and endpoints datagrams are looked at beside the port of Service Discovery: at these
/// ports, and at the endpoints that were learnt.
#[derive(Drop)]
pub struct Watched {
    ports: Vec<u16>,
    learns: bool,
    room: Room,
    learnt: Learnt,
}

impl Model for Watched {
    ghost use Rattle.someip_tables.specs.Endpoints.{endpoint_cmp};
    ghost use Rattle.someip_tables.specs.Tables.{map_of};
    ghost use Rattle.audit_endpoints.specs.WatchedEndpoints.{Watch, coded_watch};

    ghost Value = { Watch };

    ghost coded = { coded_watch };

    ghost view = { λ w. record {
      ports = w.ports.items;
      learns = w.learns;
      limit = w.room.limit;
      learnt = map_of endpoint_cmp w.learnt;
      told_full = w.room.told_full;
    } };
}

impl Watched {
    /// Before anything was learnt.
    pub fn new(alloc: Global, rules: &WatchRules<'_>, limit: usize) -> Result<Watched, AllocError>
        ensures { IfOk result (λ watched. watched ≡ watch_begun rules.now.ports.now rules.now.learns limit) }
    {
        Ok(Watched {
            ports: rules.ports.to_vec(alloc)?,
            learns: rules.learns,
            room: Room::new(limit),
            learnt: KeySet::new(alloc),
        })
    }

    /// Whether a datagram is looked at.
    pub fn looks_at(&self, origin: &Origin) -> bool
        ensures { result ≡ is_looked_at self.now origin.now }
    {
        is_at_discovery(origin) || self.is_asked(origin)
    }

    /// Whether it is by the ports, or by the endpoints.
    fn is_asked(&self, origin: &Origin) -> bool
        ensures { result ≡ is_asked self.now origin.now }
    {
        self.ports.contains(&origin.from.port())
            || self.ports.contains(&origin.to.port())
            || self.learnt.contains(&origin.from)
            || self.learnt.contains(&origin.to)
    }

    /// Whether it was told that no more may be learnt.
    pub fn is_full(&self) -> bool
        ensures { result ≡ self.now.told_full }
    {
        self.room.told_full
    }

    /// Learns an endpoint that an Offer or a Subscribe names, or says once that no more may be learnt.
    pub fn learn(&mut self, endpoint: SocketAddrV4) -> Result<Option<Finding>, AllocError>
        ensures told { IfOk result (λ told. told ≡ told_of_endpoint endpoint self.old) }
        ensures after { IfOk result (λ told. self.new ≡ once_named endpoint self.old) }
        ensures err { OnErr result (self.new ≡ self.old) }
        ensures grows { OnErr result (needs_memory endpoint self.old ≡ true) }
    {
        if self.passes_over(&endpoint) {
            return Ok(None);
        }
        if !has_room(&self.learnt, self.room.limit) {
            return Ok(self.room.tell_full(Finding::Full));
        }
        self.learnt.insert(endpoint)?;
        Ok(None)
    }

    /// Whether an endpoint is passed over.
    fn passes_over(&self, endpoint: &SocketAddrV4) -> bool
        ensures { result ≡ is_passed_over endpoint.now self.now }
    {
        !self.learns || self.learnt.contains(endpoint)
    }
}

/// Whether there is room for one more.
fn has_room(learnt: &Learnt, limit: usize) -> bool
    ensures { result ≡ nat_lt (finite.len (map_of endpoint_cmp learnt.now)) limit }
{
    learnt.len() < limit
}
