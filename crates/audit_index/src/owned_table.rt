//! A table of what addresses own.
ghost use Rattle.std.specs.Prelude.{◌≡◌, OnErr, OnOk, not};
ghost use Rattle.std.specs.FinMap as finite;
ghost use Rattle.someip_tables.specs.Retained.{retain};
ghost use Rattle.someip_tables.specs.Tables.{map_of};
ghost use Rattle.someip_tables.specs.hashed.Dues.{IsFirstDue};
ghost use Rattle.audit_index.specs.Owners.{WantsRoom, is_owned};

use crate::index::Index;
use crate::owned::Owned;
use crate::owners::{forget, own, put, take_out};
use someip_tables::Key;
use someip_tables::hashed::{Due, DueTable};
use std::alloc::{AllocError, Global};
use std::hash::Hash;
use std::marker::Model;
use std::net::Ipv4Addr;

/// A table of values that wait for a moment each, or for none, and that addresses own. A key is found by its
/// hash, and what an address owns in order.
#[derive(Drop)]
pub struct OwnedTable<K: Key + Hash, V: Owned<K>> {
    table: DueTable<K, V>,
    owned: Index<Ipv4Addr, K>,
}

impl<K: Key + Hash, V: Owned<K>> Model for OwnedTable<K, V> {
    ghost use Rattle.std.specs.Prelude.{List};
    ghost use Rattle.someip_tables.specs.Endpoints.{address_cmp};
    ghost use Rattle.someip_tables.specs.Tables.{map_of};
    ghost use Rattle.audit_index.specs.Owners.{AreOwned};
    ghost use Rattle.audit_index.specs.Slots.{stands};

    ghost Value = { List (K × V) };

    ghost view = { λ m. m.table };

    ghost invariant = { λ m. AreOwned V.owners (stands address_cmp K.cmp m.owned) (map_of K.cmp m.table) };
}

impl<K: Key + Hash, V: Owned<K>> OwnedTable<K, V> {
    /// An empty table. It takes no memory.
    pub fn new(alloc: Global) -> OwnedTable<K, V>
        ensures { map_of K.cmp result ≡ finite.empty }
    {
        OwnedTable {
            table: DueTable::new(alloc),
            owned: Index::new(alloc),
        }
    }

    /// How many keys have a value.
    pub fn len(&self) -> usize
        ensures { result ≡ finite.len (map_of K.cmp self.now) }
    {
        self.table.len()
    }

    /// The value of a key.
    pub fn get(&self, key: &K) -> Option<V>
        ensures { result ≡ finite.get (map_of K.cmp self.now) key.now }
    {
        self.table.get(key)
    }

    /// Puts a value under a key, in place of an earlier one. What is refused because memory ran out
    /// leaves the table as it was, and memory is taken only where the key is new, others own the value, or it
    /// waits for a moment for which it did not.
    pub fn insert(&mut self, key: K, value: V) -> Result<(), AllocError>
        ensures ok { OnOk result
            (map_of K.cmp self.new ≡ finite.insert (map_of K.cmp self.old) key value) }
        ensures err { OnErr result (self.new ≡ self.old) }
        ensures grows { OnErr result (WantsRoom V.owners V.moment key
            (finite.get (map_of K.cmp self.old) key) value) }
    {
        let owners = value.owners(&key);
        own(&mut self.owned, key, owners)?;
        put(&mut self.table, &mut self.owned, key, value, owners)
    }

    /// Takes a key out. It takes no memory.
    pub fn remove(&mut self, key: &K)
        ensures { map_of K.cmp self.new ≡ finite.remove (map_of K.cmp self.old) key.now }
    {
        take_out(&mut self.table, &mut self.owned, key);
    }

    /// Takes out all that an address owns. It looks at this alone, and takes no memory.
    pub fn forget(&mut self, address: Ipv4Addr)
        ensures { map_of K.cmp self.new
            ≡ retain (map_of K.cmp self.old) (λ key value. not (is_owned V.owners address key value)) }
    {
        forget(&mut self.table, &mut self.owned, address);
    }

    /// The key whose moment comes first, by moment and then by key, if one waits for any. It looks at
    /// this alone.
    pub fn first_due(&self) -> Option<Due<K>>
        ensures { IsFirstDue V.moment (map_of K.cmp self.now) result }
    {
        self.table.first_due()
    }
}
