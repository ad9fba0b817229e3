//! Tables with a limit.
ghost use Rattle.std.specs.Prelude.{◌≡◌, IfOk, OnErr, OnOk, is_some, true, ◌&&◌, ◌||◌, nat_lt, if◌then◌else◌};
ghost use Rattle.std.specs.FinMap as finite;
ghost use Rattle.std.specs.Map.Iter.{ShowsInOrder, deref_pair};
ghost use Rattle.std.specs.Option.{unwrap_or};
ghost use Rattle.someip_tables.specs.Tables.{map_of};
ghost use Rattle.someip_tables.specs.hashed.Rooms.{may_hold, told_when_full};
ghost use Rattle.audit_stats.specs.Tables.{after_change, after_takes, change_takes, counted, empty_held, full_told, has_room, held_by, told_of};

use crate::counts::Counts;
use someip_tables::Key;
use someip_tables::hashed::Room;
use std::alloc::{AllocError, Global};
use std::collections::{BTreeMap, btree_map};
use std::marker::Model;

/// Values under keys, in order, of which there are at most so many. That there is no room for a key is told once.
#[derive(Drop)]
pub(crate) struct Table<K: Key, V: Drop> {
    alloc: Global,
    room: Room,
    held: BTreeMap<K, V>,
}

impl<K: Key, V: Drop> Model for Table<K, V> {
    ghost use Rattle.audit_stats.specs.Tables.{Entries};

    ghost Value = { Entries K V };

    ghost view = { λ t. record {
      limit = t.room.limit;
      entries = t.held.entries;
      told_full = t.room.told_full;
    } };
}

impl<K: Key, V: Drop> Table<K, V> {
    /// A table of at most so many keys, and none yet. It takes no memory.
    pub(crate) fn new(alloc: Global, limit: usize) -> Table<K, V>
        ensures { held_by K.cmp result ≡ empty_held limit }
    {
        Table {
            alloc,
            room: Room::new(limit),
            held: BTreeMap::new(alloc),
        }
    }

    /// Whether a key has room: it is held, or fewer are than may be. It is looked for where there is no room for one
    /// more.
    pub(crate) fn has_room(&self, key: &K) -> bool
        ensures { result ≡ has_room key.now (held_by K.cmp self.now) }
    {
        has_room(&self.room, &self.held, key)
    }

    /// Tells that the table is full, once.
    pub(crate) fn tell_full<F: Copy>(&mut self, full: F) -> Option<F>
        ensures told { result ≡ told_when_full full self.old.told_full }
        ensures after { held_by K.cmp self.new ≡ full_told (held_by K.cmp self.old) }
    {
        self.room.tell_full(full)
    }

    /// Whether it was told that the table is full.
    pub(crate) fn told_full(&self) -> bool
        ensures { result ≡ self.now.told_full }
    {
        self.room.told_full
    }

    /// Counts a change under a key, if there is room for it, and tells whether there is. What is refused for want of
    /// memory leaves the table as it was.
    pub(crate) fn count<C: Copy>(&mut self, key: K, change: C) -> Result<bool, AllocError>
    where
        V: Counts<C>,
        ensures room { IfOk result (λ room. room ≡ has_room key (held_by K.cmp self.old)) }
        ensures ok { IfOk result (λ room. held_by K.cmp self.new ≡ (if room
            then counted V.none V.after key change (held_by K.cmp self.old) else held_by K.cmp self.old)) }
        ensures err { OnErr result (held_by K.cmp self.new ≡ held_by K.cmp self.old) }
        ensures grows { OnErr result (after_takes V.takes key change (held_by K.cmp self.old) ≡ true) }
    {
        count(&mut self.held, self.room.limit, self.alloc, key, change)
    }

    /// Counts a change under a key, if there is room for it, and else tells once that the table is full. What is
    /// refused for want of memory leaves the table as it was.
    pub(crate) fn came<C: Copy, F: Copy>(
        &mut self,
        key: K,
        change: C,
        full: F,
    ) -> Result<Option<F>, AllocError>
    where
        V: Counts<C>,
        ensures told { IfOk result (λ told. told ≡ told_of full key (held_by K.cmp self.old)) }
        ensures after { OnOk result (held_by K.cmp self.new
            ≡ after_change V.none V.after key change (held_by K.cmp self.old)) }
        ensures err { OnErr result (held_by K.cmp self.new ≡ held_by K.cmp self.old) }
        ensures grows { OnErr result (after_takes V.takes key change (held_by K.cmp self.old) ≡ true) }
    {
        if self.count(key, change)? {
            return Ok(None);
        }
        Ok(self.tell_full(full))
    }

    /// What is held, by rising key.
    pub(crate) fn iter(&self) -> btree_map::Iter<'_, K, V>
        ensures rest { result ≡ finite.entries (held_by K.cmp self.now).values }
        ensures runs { ShowsInOrder (deref_pair {K = K} {X = V}) }
    {
        self.held.iter()
    }
}

/// Whether a key has room: it is held, or fewer are than may be.
fn has_room<K: Key, V: Drop>(room: &Room, held: &BTreeMap<K, V>, key: &K) -> bool
    ensures { result ≡ (is_some (finite.get (map_of K.cmp held.now.entries) key.now)
        || nat_lt (finite.len (map_of K.cmp held.now.entries)) room.now.limit) }
{
    held.len() < room.limit || held.contains_key(key)
}

/// Counts a change under a key, if there is room for it, and tells whether there is. Only where the key is new the
/// room is looked at.
fn count<K: Key, C: Copy, V: Counts<C>>(
    held: &mut BTreeMap<K, V>,
    limit: usize,
    alloc: Global,
    key: K,
    change: C,
) -> Result<bool, AllocError>
    ensures room { IfOk result (λ room. room ≡ may_hold limit (map_of K.cmp held.old.entries) key) }
    ensures ok { IfOk result (λ room. map_of K.cmp held.new.entries
        ≡ (if room then finite.insert (map_of K.cmp held.old.entries) key
        (V.after change (unwrap_or (finite.get (map_of K.cmp held.old.entries) key) V.none))
        else map_of K.cmp held.old.entries)) }
    ensures err { OnErr result (map_of K.cmp held.new.entries ≡ map_of K.cmp held.old.entries) }
    ensures grows { OnErr result ((may_hold limit (map_of K.cmp held.old.entries) key
        && change_takes V.takes change (finite.get (map_of K.cmp held.old.entries) key)) ≡ true) }
{
    match held.get_mut(&key) {
        Some(value) => match value.count(change) {
            Ok(()) => Ok(true),
            Err(_) => Err(AllocError),
        },
        None => begin(held, limit, alloc, key, change),
    }
}

/// Counts the first change under a key, if there is room for one more, and tells whether there is.
fn begin<K: Key, C: Copy, V: Counts<C>>(
    held: &mut BTreeMap<K, V>,
    limit: usize,
    alloc: Global,
    key: K,
    change: C,
) -> Result<bool, AllocError>
    ensures room { IfOk result (λ room. room ≡ nat_lt (finite.len (map_of K.cmp held.old.entries)) limit) }
    ensures ok { IfOk result (λ room. map_of K.cmp held.new.entries
        ≡ (if room then finite.insert (map_of K.cmp held.old.entries) key (V.after change V.none)
        else map_of K.cmp held.old.entries)) }
    ensures err { OnErr result (map_of K.cmp held.new.entries ≡ map_of K.cmp held.old.entries) }
    ensures grows { OnErr result (nat_lt (finite.len (map_of K.cmp held.old.entries)) limit ≡ true) }
{
    if held.len() >= limit {
        return Ok(false);
    }
    let mut value = V::none(alloc);
    value.count(change)?;
    held.insert(key, value)?;
    Ok(true)
}
