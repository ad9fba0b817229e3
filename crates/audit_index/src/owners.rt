//! What addresses own, in order beside a table.
ghost use Rattle.std.specs.Prelude.{◌≡◌, ◌≤◌, ◌⊎◌, ◌||◌, OnErr, OnOk, length, not, true, false};
ghost use Rattle.std.specs.FinMap as finite;
ghost use Rattle.std.specs.Ordering.{eq_by_cmp};
ghost use Rattle.someip_tables.specs.Endpoints.{address_cmp};
ghost use Rattle.someip_tables.specs.Retained.{retain};
ghost use Rattle.someip_tables.specs.Tables.{map_of};
ghost use Rattle.someip_tables.specs.hashed.Dues.{WantsMemory};
ghost use Rattle.audit_index.specs.Owners.{AreOwned, AreOwnedBut, IsLeftAlone, IsLess, is_owned};
ghost use Rattle.audit_index.specs.Slots.{stands};

use crate::index::Index;
use crate::owned::Owned;
use someip_tables::hashed::DueTable;
use someip_tables::{Key, is_same_key};
use std::alloc::AllocError;
use std::hash::Hash;
use std::net::Ipv4Addr;

/// Puts a key in for its owners.
pub(crate) fn own<K: Key>(
    owned: &mut Index<Ipv4Addr, K>,
    key: K,
    owners: (Ipv4Addr, Ipv4Addr),
) -> Result<(), AllocError>
    ensures first { OnOk result (stands address_cmp K.cmp owned.new owners.0 key ≡ true) }
    ensures second { OnOk result (stands address_cmp K.cmp owned.new owners.1 key ≡ true) }
    ensures kept { (address : Ipv4Addr) (other : K) → stands address_cmp K.cmp owned.old address other ≡ true
        → stands address_cmp K.cmp owned.new address other ≡ true }
    ensures grows { OnErr result ((stands address_cmp K.cmp owned.old owners.0 key ≡ false)
        ⊎ (stands address_cmp K.cmp owned.old owners.1 key ≡ false)) }
{
    owned.put(owners.0, key)?;
    owned.put(owners.1, key)?;
    Ok(())
}

/// Takes a key out for its owners.
fn disown<K: Key>(owned: &mut Index<Ipv4Addr, K>, key: K, owners: (Ipv4Addr, Ipv4Addr))
    ensures others { IsLeftAlone K.cmp key (stands address_cmp K.cmp owned.old) (stands address_cmp K.cmp owned.new) }
    ensures fewer { length owned.new ≤ length owned.old }
{
    owned.remove(owners.0, key);
    owned.remove(owners.1, key);
}

/// Takes a key out for earlier owners, where they own it no more.
fn disown_earlier<K: Key>(
    owned: &mut Index<Ipv4Addr, K>,
    key: K,
    earlier: (Ipv4Addr, Ipv4Addr),
    owners: (Ipv4Addr, Ipv4Addr),
)
    ensures others { IsLeftAlone K.cmp key (stands address_cmp K.cmp owned.old) (stands address_cmp K.cmp owned.new) }
    ensures first { stands address_cmp K.cmp owned.old owners.0 key ≡ true
        → stands address_cmp K.cmp owned.new owners.0 key ≡ true }
    ensures second { stands address_cmp K.cmp owned.old owners.1 key ≡ true
        → stands address_cmp K.cmp owned.new owners.1 key ≡ true }
{
    disown_unless(owned, key, earlier.0, owners);
    disown_unless(owned, key, earlier.1, owners);
}

/// Takes a key out for an address, unless it is one of these owners.
fn disown_unless<K: Key>(
    owned: &mut Index<Ipv4Addr, K>,
    key: K,
    address: Ipv4Addr,
    owners: (Ipv4Addr, Ipv4Addr),
)
    ensures others { IsLeftAlone K.cmp key (stands address_cmp K.cmp owned.old) (stands address_cmp K.cmp owned.new) }
    ensures first { stands address_cmp K.cmp owned.old owners.0 key ≡ true
        → stands address_cmp K.cmp owned.new owners.0 key ≡ true }
    ensures second { stands address_cmp K.cmp owned.old owners.1 key ≡ true
        → stands address_cmp K.cmp owned.new owners.1 key ≡ true }
{
    if !is_owner(&owners, &address) {
        owned.remove(address, key);
    }
}

/// Whether an address is one of these owners.
fn is_owner(owners: &(Ipv4Addr, Ipv4Addr), address: &Ipv4Addr) -> bool
    ensures { result ≡ (eq_by_cmp address_cmp owners.now.0 address.now || eq_by_cmp address_cmp owners.now.1 address.now) }
{
    is_same_key(&owners.0, address) || is_same_key(&owners.1, address)
}

/// Puts a value under a key that is there for its owners, and takes it out for those that own it no more.
pub(crate) fn put<K: Key + Hash, V: Owned<K>>(
    table: &mut DueTable<K, V>,
    owned: &mut Index<Ipv4Addr, K>,
    key: K,
    value: V,
    owners: (Ipv4Addr, Ipv4Addr),
) -> Result<(), AllocError>
    requires these { owners ≡ V.owners key value }
    requires first { stands address_cmp K.cmp owned.old owners.0 key ≡ true }
    requires second { stands address_cmp K.cmp owned.old owners.1 key ≡ true }
    requires owned { AreOwned V.owners (stands address_cmp K.cmp owned.old) (map_of K.cmp table.old) }
    ensures ok { OnOk result (map_of K.cmp table.new ≡ finite.insert (map_of K.cmp table.old) key value) }
    ensures err { OnErr result (table.new ≡ table.old) }
    ensures grows { OnErr result (WantsMemory V.moment (finite.get (map_of K.cmp table.old) key) (V.moment value)) }
    ensures owned { AreOwned V.owners (stands address_cmp K.cmp owned.new) (map_of K.cmp table.new) }
{
    let earlier = table.get(&key);
    table.insert(key, value)?;
    if let Some(earlier) = earlier {
        disown_earlier(owned, key, earlier.owners(&key), owners);
    }
    Ok(())
}

/// Takes a key out.
pub(crate) fn take_out<K: Key + Hash, V: Owned<K>>(
    table: &mut DueTable<K, V>,
    owned: &mut Index<Ipv4Addr, K>,
    key: &K,
)
    requires { AreOwned V.owners (stands address_cmp K.cmp owned.old) (map_of K.cmp table.old) }
    ensures taken { map_of K.cmp table.new ≡ finite.remove (map_of K.cmp table.old) key.now }
    ensures owned { AreOwned V.owners (stands address_cmp K.cmp owned.new) (map_of K.cmp table.new) }
{
    let earlier = table.get(key);
    table.remove(key);
    if let Some(earlier) = earlier {
        disown(owned, *key, earlier.owners(key));
    }
}

/// Takes out all that an address owns.
pub(crate) fn forget<K: Key + Hash, V: Owned<K>>(
    table: &mut DueTable<K, V>,
    owned: &mut Index<Ipv4Addr, K>,
    address: Ipv4Addr,
)
    requires { AreOwned V.owners (stands address_cmp K.cmp owned.old) (map_of K.cmp table.old) }
    ensures left { map_of K.cmp table.new
        ≡ retain (map_of K.cmp table.old) (λ key value. not (is_owned V.owners address key value)) }
    ensures owned { AreOwned V.owners (stands address_cmp K.cmp owned.new) (map_of K.cmp table.new) }
{
    while let Some(key) = owned.take(address) {
        let_go(table, owned, &address, &key);
    }
}

/// A key that is no longer there for an address is taken out, if the address owns its value.
fn let_go<K: Key + Hash, V: Owned<K>>(
    table: &mut DueTable<K, V>,
    owned: &mut Index<Ipv4Addr, K>,
    address: &Ipv4Addr,
    key: &K,
)
    requires { AreOwnedBut V.owners address.now key.now (stands address_cmp K.cmp owned.old) (map_of K.cmp table.old) }
    ensures left { IsLess V.owners address.now (map_of K.cmp table.old) (map_of K.cmp table.new) }
    ensures owned { AreOwned V.owners (stands address_cmp K.cmp owned.new) (map_of K.cmp table.new) }
    ensures fewer { length owned.new ≤ length owned.old }
{
    let Some(value) = table.get(key) else {
        return;
    };
    let owners = value.owners(key);
    if is_owner(&owners, address) {
        table.remove(key);
        disown(owned, *key, owners);
    }
}
