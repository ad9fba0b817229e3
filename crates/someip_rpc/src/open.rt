//! The requests that wait for their answer.
ghost use Rattle.std.specs.Prelude.{◌≡◌, OnOk, OnErr};
ghost use Rattle.std.specs.FinMap as finite;

use crate::request::Asked;
use slab::Slab;
use std::alloc::{AllocError, Global};
use std::collections::BTreeMap;
use std::marker::Model;

/// A request that waits, with the number of its token.
#[derive(Clone, Copy)]
struct Held {
    token: u64,
    request: Asked,
}

/// The requests that wait for their answer, each under the number of its token. Contracts see that
/// map; its body is a slab, and an index from tokens to the slab's keys.
#[derive(Drop)]
pub(crate) struct OpenRequests {
    index: BTreeMap<u64, usize>,
    held: Slab<Held>,
}

impl Model for OpenRequests {
    ghost use Rattle.std.specs.Ordering.{nat_cmp};
    ghost use Rattle.someip_tables.specs.Tables.{map_of};
    ghost use Rattle.someip_rpc.specs.Requests.{OpenRequests, coded_open};
    ghost use Rattle.someip_rpc.specs.OpenSlab.{Indexes, requests_of};

    ghost Value = { OpenRequests };

    ghost coded = { coded_open };

    ghost view = { λ o. map_of nat_cmp (requests_of o.held o.index.entries) };

    ghost invariant = { λ o. Indexes o.index o.held };
}

impl OpenRequests {
    /// No request. It takes no memory.
    pub(crate) fn new(alloc: Global) -> OpenRequests
        ensures { result ≡ finite.empty }
    {
        OpenRequests {
            index: BTreeMap::new(alloc),
            held: Slab::new(alloc),
        }
    }

    /// How many requests wait.
    pub(crate) fn len(&self) -> usize
        ensures { result ≡ finite.len self.now }
    {
        self.index.len()
    }

    /// The request that waits under a token.
    pub(crate) fn get(&self, token: u64) -> Option<Asked>
        ensures { result ≡ finite.get self.now token }
    {
        match self.index.get(&token) {
            None => None,
            Some(key) => self.held.get(*key).map(|held| held.request),
        }
    }

    /// Lets a request wait under a new token.
    pub(crate) fn insert(&mut self, token: u64, request: Asked) -> Result<(), AllocError>
        ensures ok { OnOk result (self.new ≡ finite.insert self.old token request) }
        ensures err { OnErr result (self.new ≡ self.old) }
    {
        self.held.reserve(1)?;
        let key = self.held.vacant_key();
        self.index.insert(token, key)?;
        self.held.insert_reserved(Held { token, request });
        Ok(())
    }

    /// Takes a request out. It takes no memory.
    pub(crate) fn remove(&mut self, token: u64)
        ensures { self.new ≡ finite.remove self.old token }
    {
        if let Some(key) = self.index.remove(&token) {
            self.held.try_remove(key);
        }
    }

    /// Forgets all requests. It takes no memory.
    pub(crate) fn clear(&mut self)
        ensures { self.new ≡ finite.empty }
    {
        self.index.clear();
        self.held.clear();
    }
}
