//! What stands under keys, and the intervals of what ended.
ghost use Rattle.std.specs.Prelude.{◌≡◌, ◌≢◌, ◌++◌, if◌then◌else◌, IfOk, OnErr, OnOk};
ghost use Rattle.std.specs.FinMap as finite;
ghost use Rattle.someip_tables.specs.Waits.{HoldsFrom};
ghost use Rattle.someip_tables.specs.Lastings.{expired};
ghost use Rattle.someip_tables.specs.Tables.{map_of};
ghost use Rattle.audit_services.specs.Books.{after_expired, is_same, since_of, after_begun, after_ended, after_ended_at, after_renewed, begins_full, book_begun, book_of};
ghost use Rattle.audit_services.specs.Books.{told_begun, told_ended, told_ended_at, told_expired, told_moved};
ghost use Rattle.audit_services.specs.Histories.{book_after, full_by, told_by};
ghost use Rattle.audit_services.specs.Stays.{IsBegun, all_ended};

use crate::placed::Placed;
use crate::shown::Shown;
use crate::stay::{Ended, Since};
use crate::table::Table;
use crate::why::Why;
use someip_tables::hashed::Room;
use someip_tables::{Deadline, Key, Lasting, Moment, is_same_key};
use std::alloc::{AllocError, Global};
use std::marker::Model;

/// What stands under keys, each until its TTL has passed. What ends is told as an interval.
#[derive(Drop)]
pub struct Intervals<P: Key, K: Placed<P>, V: Key> {
    room: Room,
    table: Table<P, K, V>,
}

impl<P: Key, K: Placed<P>, V: Key> Model for Intervals<P, K, V> {
    ghost use Rattle.audit_services.specs.Books.{Kept};

    ghost Value = { Kept K V };

    ghost view = { λ b. record {
      limit = b.room.limit;
      entries = b.table;
      told_full = b.room.told_full;
    } };
}

impl<P: Key, K: Placed<P>, V: Key> Intervals<P, K, V> {
    /// Nothing stands, and as much may at once. It takes no memory.
    pub fn new(alloc: Global, limit: usize) -> Intervals<P, K, V>
        ensures { book_of K.cmp result ≡ book_begun limit }
    {
        Intervals {
            room: Room::new(limit),
            table: Table::new(alloc),
        }
    }

    /// Takes what is shown, and appends the intervals of what it ends. Says whether there is no room for a key, and
    /// that was not told before. Where memory runs out, nothing is promised.
    pub fn take(
        &mut self,
        alloc: Global,
        now: Moment,
        shown: Shown<P, K, V>,
        ended: &mut Vec<Ended<K, V>>,
    ) -> Result<bool, AllocError>
        ensures full { IfOk result (λ full. full ≡ full_by P.cmp K.cmp V.cmp K.places shown (book_of K.cmp self.old)) }
        ensures told { OnOk result (ended.new.items
            ≡ ended.old.items ++ told_by P.cmp K.cmp V.cmp K.places now shown (book_of K.cmp self.old)) }
        ensures after { OnOk result (book_of K.cmp self.new
            ≡ book_after P.cmp K.cmp V.cmp K.places now shown (book_of K.cmp self.old)) }
    {
        match shown {
            Shown::Nothing => {}
            Shown::KeyBegins(key, value, ttl) => return self.begin(now, key, value, ttl, ended),
            Shown::KeyEnds(key, why) => self.end(now, &key, why, ended)?,
            Shown::PlaceEnds(place, why) => self.end_at(alloc, now, place, why, ended)?,
            Shown::PlaceGoesOn(place, ttl) => self.renew(alloc, now, place, ttl)?,
        }
        Ok(false)
    }

    /// A value stands under a key until a TTL in seconds has passed. Where the same stood, it goes on; another value
    /// has moved, and its interval is appended. Where there is no room nothing is taken, and whether that is told
    /// for the first time is answered. Where memory runs out, a beginning of what is to be told was appended, and
    /// nothing else is promised.
    pub fn begin(
        &mut self,
        now: Moment,
        key: K,
        value: V,
        ttl: u32,
        ended: &mut Vec<Ended<K, V>>,
    ) -> Result<bool, AllocError>
        ensures full { IfOk result (λ full. full ≡ begins_full key (book_of K.cmp self.old)) }
        ensures told { OnOk result (ended.new.items ≡ ended.old.items ++ told_begun V.cmp now key value (book_of K.cmp self.old)) }
        ensures after { OnOk result (book_of K.cmp self.new ≡ after_begun V.cmp now key value ttl (book_of K.cmp self.old)) }
        ensures err { OnErr result (IsBegun ended.old.items ended.new.items (told_begun V.cmp now key value (book_of K.cmp self.old))) }
    {
        let stood = self.table.get(&key);
        if !self.room.may_hold(stood.is_some(), self.table.len()) {
            return Ok(self.room.tell_full(()).is_some());
        }
        let since = since_of(&stood, now, value);
        end_other(&mut self.table, now, &key, &value, ended)?;
        self.table.put(key, since, Deadline::after_ttl(now, ttl))?;
        Ok(false)
    }

    /// What stands under a key ends, if something does, and its interval is appended.
    pub fn end(
        &mut self,
        now: Moment,
        key: &K,
        why: Why,
        ended: &mut Vec<Ended<K, V>>,
    ) -> Result<(), AllocError>
        ensures told { OnOk result (ended.new.items ≡ ended.old.items ++ told_ended why now key.now (book_of K.cmp self.old)) }
        ensures after { OnOk result (book_of K.cmp self.new ≡ after_ended key.now (book_of K.cmp self.old)) }
        ensures err { OnErr result (ended.new.items ≡ ended.old.items) }
    {
        self.table.end(key, why, now.as_millis(), ended)
    }

    /// All that stands at a place ends, and the intervals are appended by rising key. It looks at these alone. Where
    /// memory runs out, a beginning of them was appended, and nothing else is promised.
    pub fn end_at(
        &mut self,
        alloc: Global,
        now: Moment,
        place: P,
        why: Why,
        ended: &mut Vec<Ended<K, V>>,
    ) -> Result<(), AllocError>
        ensures told { OnOk result (ended.new.items ≡ ended.old.items ++ told_ended_at P.cmp K.places why now place (book_of K.cmp self.old)) }
        ensures after { OnOk result (book_of K.cmp self.new ≡ after_ended_at P.cmp K.places place (book_of K.cmp self.old)) }
        ensures err { OnErr result (IsBegun ended.old.items ended.new.items (told_ended_at P.cmp K.places why now place (book_of K.cmp self.old))) }
    {
        self.table.end_at(alloc, place, why, now.as_millis(), ended)
    }

    /// All that stands at a place goes on until a TTL in seconds has passed. It looks at these alone.
    pub fn renew(
        &mut self,
        alloc: Global,
        now: Moment,
        place: P,
        ttl: u32,
    ) -> Result<(), AllocError>
        ensures { OnOk result (book_of K.cmp self.new ≡ after_renewed P.cmp K.places now place ttl (book_of K.cmp self.old)) }
    {
        self.table
            .renew_at(alloc, place, Deadline::after_ttl(now, ttl))
    }

    /// All whose deadline has come by a moment ends then, and the intervals are appended by rising key. Whoever goes
    /// over a recording asks with each deadline of [`Intervals::next_due`] in turn, up to the moment of each datagram
    /// and before it. Where memory runs out, a beginning of what is to be told was appended, and nothing else is
    /// promised.
    pub fn expire(
        &mut self,
        alloc: Global,
        at: Moment,
        ended: &mut Vec<Ended<K, V>>,
    ) -> Result<(), AllocError>
        ensures told { OnOk result (ended.new.items ≡ ended.old.items ++ told_expired at (book_of K.cmp self.old)) }
        ensures after { OnOk result (book_of K.cmp self.new ≡ after_expired at (book_of K.cmp self.old)) }
        ensures err { OnErr result (IsBegun ended.old.items ended.new.items (told_expired at (book_of K.cmp self.old))) }
    {
        self.table.expire(alloc, at, ended)
    }

    /// When something next expires, in milliseconds: the first deadline, if one passes.
    pub fn next_due(&self) -> Option<u64>
        ensures { HoldsFrom result (λ now. expired now (book_of K.cmp self.now).stays ≢ finite.empty) }
    {
        self.table.first_deadline()
    }

    /// Appends the intervals of all that still stands, by rising key.
    pub fn tell_open(&self, now: Moment, ended: &mut Vec<Ended<K, V>>) -> Result<(), AllocError>
        ensures ok { OnOk result (ended.new.items ≡ ended.old.items ++ all_ended Why.Open now (book_of K.cmp self.now).stays) }
        ensures err { OnErr result (IsBegun ended.old.items ended.new.items (all_ended Why.Open now (book_of K.cmp self.now).stays)) }
    {
        self.table.tell_open(now.as_millis(), ended)
    }
}

/// What stands under a key ends, if it has another value, and its interval is appended.
fn end_other<P: Key, K: Placed<P>, V: Key>(
    table: &mut Table<P, K, V>,
    now: Moment,
    key: &K,
    value: &V,
    ended: &mut Vec<Ended<K, V>>,
) -> Result<(), AllocError>
    ensures told { OnOk result (ended.new.items ≡ ended.old.items
        ++ told_moved V.cmp now key.now value.now (finite.get (map_of K.cmp table.old) key.now)) }
    ensures left { OnOk result (map_of K.cmp table.new
        ≡ (if is_same V.cmp value.now (finite.get (map_of K.cmp table.old) key.now)
        then map_of K.cmp table.old else finite.remove (map_of K.cmp table.old) key.now)) }
    ensures err { OnErr result (ended.new.items ≡ ended.old.items) }
{
    if is_same(&table.get(key), value) {
        return Ok(());
    }
    table.end(key, Why::Moved, now.as_millis(), ended)?;
    Ok(())
}

/// Since when a value stands: where the same stood, since then.
fn since_of<V: Key>(stood: &Option<Lasting<Since<V>>>, now: Moment, value: V) -> Since<V>
    ensures { result ≡ record { value = value; since = since_of V.cmp now value stood.now } }
{
    let since = match stood {
        Some(stay) if is_same_key(&stay.value.value, &value) => stay.value.since,
        _ => now.as_millis(),
    };
    Since { value, since }
}

/// Whether the same value stood.
fn is_same<V: Key>(stood: &Option<Lasting<Since<V>>>, value: &V) -> bool
    ensures { result ≡ is_same V.cmp value.now stood.now }
{
    match stood {
        Some(stay) => is_same_key(&stay.value.value, value),
        None => false,
    }
}
