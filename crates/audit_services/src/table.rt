//! What stands under keys, each at its places.
ghost use Rattle.std.specs.Prelude.{◌≡◌, ◌≢◌, [], ◌∷◌, ◌++◌, OnErr, OnOk, IfOk, filter, map, not, true, false, if◌then◌else◌};
ghost use Rattle.std.specs.FinMap as finite;
ghost use Rattle.std.specs.Ordering.{eq_by_cmp};
ghost use Rattle.std.specs.List.{list_any};
ghost use Rattle.std.specs.List.Sorted.{IsStrictlySortedBy};
ghost use Rattle.std.specs.Option.{option_map, option_to_list};
ghost use Rattle.someip_tables.specs.Tables.{map_of};
ghost use Rattle.audit_index.specs.Slots.{stands};
ghost use Rattle.someip_tables.specs.Changed.{each_changed};
ghost use Rattle.someip_tables.specs.Lastings.{expired, unexpired};
ghost use Rattle.someip_tables.specs.Retained.{retain};
ghost use Rattle.someip_tables.specs.Waits.{HoldsFrom};
ghost use Rattle.audit_services.specs.Places.{is_among};
ghost use Rattle.audit_services.specs.Stays.{HasJust, IsBegun, all_ended, ended_of, entries_at, lasting_until, without_keys};

use crate::placed::Placed;
use crate::stay::{Ended, Interval, Since};
use crate::why::Why;
use audit_index::Index;
use someip_tables::{Deadline, DeadlineMap, Key, Lasting, Moment, is_same_key};
use std::alloc::{AllocError, Global};
use std::collections::BTreeSet;
use std::marker::Model;

/// What stands under keys, with its deadlines in order, and the places at which the keys are.
#[derive(Drop)]
pub(crate) struct Table<P: Key, K: Placed<P>, V: Copy> {
    held: DeadlineMap<K, Since<V>>,
    at: Index<P, K>,
}

impl<P: Key, K: Placed<P>, V: Copy> Model for Table<P, K, V> {
    ghost use Rattle.std.specs.Prelude.{List};
    ghost use Rattle.someip_tables.specs.declared.lasting.Lasting.{Lasting};
    ghost use Rattle.someip_tables.specs.Tables.{map_of};
    ghost use Rattle.audit_index.specs.Slots.{stands};
    ghost use Rattle.audit_services.specs.Places.{ArePlaced};
    ghost use Rattle.audit_services.specs.declared.stay.Since.{Since};

    ghost Value = { List (K × Lasting (Since V)) };

    ghost view = { λ t. t.held };

    ghost invariant = { λ t. ArePlaced K.places (stands P.cmp K.cmp t.at) (map_of K.cmp t.held) };
}

impl<P: Key, K: Placed<P>, V: Copy> Table<P, K, V> {
    /// Nothing stands. It takes no memory.
    pub(crate) fn new(alloc: Global) -> Table<P, K, V>
        ensures { map_of K.cmp result ≡ finite.empty }
    {
        Table {
            held: DeadlineMap::new(alloc),
            at: Index::new(alloc),
        }
    }

    /// What stands under a key.
    pub(crate) fn get(&self, key: &K) -> Option<Lasting<Since<V>>>
        ensures { result ≡ finite.get (map_of K.cmp self.now) key.now }
    {
        self.held.get(key).copied()
    }

    /// Under how many keys something stands.
    pub(crate) fn len(&self) -> usize
        ensures { result ≡ finite.len (map_of K.cmp self.now) }
    {
        self.held.len()
    }

    /// When the first deadline passes, in milliseconds, if one does.
    pub(crate) fn first_deadline(&self) -> Option<u64>
        ensures { HoldsFrom result (λ now. expired now (map_of K.cmp self.now) ≢ finite.empty) }
    {
        self.held.first_deadline()
    }

    /// Puts a value under a key until a deadline, in place of an earlier one. What is refused for want of memory
    /// leaves what stands.
    pub(crate) fn put(&mut self, key: K, since: Since<V>, until: Deadline) -> Result<(), AllocError>
        ensures ok { OnOk result (map_of K.cmp self.new
            ≡ finite.insert (map_of K.cmp self.old) key (record { value = since; until = until })) }
        ensures err { OnErr result (self.new ≡ self.old) }
    {
        place(&mut self.at, key)?;
        self.held.insert(key, since, until)?;
        Ok(())
    }

    /// Ends what stands under a key, if something does, and appends its interval.
    pub(crate) fn end(
        &mut self,
        key: &K,
        why: Why,
        at: u64,
        ended: &mut Vec<Ended<K, V>>,
    ) -> Result<(), AllocError>
        ensures ok { OnOk result (ended.new.items ≡ ended.old.items
            ++ option_to_list (option_map (λ stay. ended_of why at (key.now, stay)) (finite.get (map_of K.cmp self.old) key.now))) }
        ensures left { OnOk result (map_of K.cmp self.new ≡ finite.remove (map_of K.cmp self.old) key.now) }
        ensures err { OnErr result (ended.new.items ≡ ended.old.items) }
    {
        let Some(stay) = self.held.remove(key) else {
            return Ok(());
        };
        displace(&mut self.at, *key);
        ended.push(ended_of(*key, &stay, why, at))?;
        Ok(())
    }

    /// Ends what stands under each of these keys, and appends the intervals. Where memory runs out, a beginning of
    /// them was appended, and nothing else is promised.
    pub(crate) fn end_all(
        &mut self,
        keys: &[K],
        why: Why,
        at: u64,
        ended: &mut Vec<Ended<K, V>>,
    ) -> Result<(), AllocError>
        requires { IsStrictlySortedBy K.cmp keys.now }
        ensures ok { OnOk result (ended.new.items ≡ ended.old.items
            ++ map (ended_of why at) (entries_at (map_of K.cmp self.old) keys.now)) }
        ensures left { OnOk result (map_of K.cmp self.new ≡ without_keys (map_of K.cmp self.old) keys.now) }
        ensures err { OnErr result (IsBegun ended.old.items ended.new.items
            (map (ended_of why at) (entries_at (map_of K.cmp self.old) keys.now))) }
    {
        for key in keys {
            self.end(key, why, at, ended)?;
        }
        Ok(())
    }
}

impl<P: Key, K: Placed<P>, V: Copy> Table<P, K, V> {
    /// Ends all at a place, by rising key, and appends the intervals. It looks at these alone.
    pub(crate) fn end_at(
        &mut self,
        alloc: Global,
        place: P,
        why: Why,
        at: u64,
        ended: &mut Vec<Ended<K, V>>,
    ) -> Result<(), AllocError>
        ensures ok { OnOk result (ended.new.items ≡ ended.old.items
            ++ all_ended why at (retain (map_of K.cmp self.old) (λ key _. is_among P.cmp place (K.places key)))) }
        ensures left { OnOk result (map_of K.cmp self.new
            ≡ retain (map_of K.cmp self.old) (λ key _. not (is_among P.cmp place (K.places key)))) }
        ensures err { OnErr result (IsBegun ended.old.items ended.new.items
            (all_ended why at (retain (map_of K.cmp self.old) (λ key _. is_among P.cmp place (K.places key))))) }
    {
        let keys = self.keys_at(alloc, place)?;
        self.end_all(&keys, why, at, ended)?;
        Ok(())
    }

    /// Keys by rise, among which are those under which something stands at a place, and no other under which
    /// something stands.
    fn keys_at(&self, alloc: Global, place: P) -> Result<Vec<K>, AllocError>
        ensures rises { IfOk result (λ keys. IsStrictlySortedBy K.cmp keys.items) }
        ensures just { IfOk result (λ keys. HasJust (map_of K.cmp self.now)
            (λ key _. is_among P.cmp place (K.places key)) keys.items) }
    {
        let keys = self.at.keys_at(alloc, place)?;
        let those = those_at(alloc, &keys, &place)?;
        Ok(those)
    }

    /// Ends all whose deadline has passed, by rising key, and appends the intervals.
    pub(crate) fn expire(
        &mut self,
        alloc: Global,
        at: Moment,
        ended: &mut Vec<Ended<K, V>>,
    ) -> Result<(), AllocError>
        ensures ok { OnOk result (ended.new.items ≡ ended.old.items
            ++ all_ended Why.Expired at (expired at (map_of K.cmp self.old))) }
        ensures left { OnOk result (map_of K.cmp self.new ≡ unexpired at (map_of K.cmp self.old)) }
        ensures err { OnErr result (IsBegun ended.old.items ended.new.items
            (all_ended Why.Expired at (expired at (map_of K.cmp self.old)))) }
    {
        let expired = self.held.expired_keys(alloc, at)?;
        let keys = listed(alloc, &expired)?;
        self.end_all(&keys, Why::Expired, at.as_millis(), ended)?;
        Ok(())
    }

    /// All at a place lasts until a deadline. It looks at these alone.
    pub(crate) fn renew_at(
        &mut self,
        alloc: Global,
        place: P,
        until: Deadline,
    ) -> Result<(), AllocError>
        ensures { OnOk result (map_of K.cmp self.new ≡ each_changed
            (λ key stay. if is_among P.cmp place (K.places key) then lasting_until until stay else stay)
            (map_of K.cmp self.old)) }
    {
        let keys = self.keys_at(alloc, place)?;
        self.renew_all(&keys, until)?;
        Ok(())
    }

    /// What stands under these keys lasts until a deadline.
    fn renew_all(&mut self, keys: &[K], until: Deadline) -> Result<(), AllocError>
        ensures { OnOk result ((key : K) → finite.get (map_of K.cmp self.new) key
            ≡ (if list_any (eq_by_cmp K.cmp key) keys.now
            then option_map (lasting_until until) (finite.get (map_of K.cmp self.old) key)
            else finite.get (map_of K.cmp self.old) key)) }
    {
        for key in keys {
            self.renew(key, until)?;
        }
        Ok(())
    }

    /// What stands under a key lasts until a deadline.
    fn renew(&mut self, key: &K, until: Deadline) -> Result<(), AllocError>
        ensures { OnOk result ((other : K) → finite.get (map_of K.cmp self.new) other
            ≡ (if eq_by_cmp K.cmp other key.now
            then option_map (lasting_until until) (finite.get (map_of K.cmp self.old) other)
            else finite.get (map_of K.cmp self.old) other)) }
    {
        let Some(stay) = self.get(key) else {
            return Ok(());
        };
        self.held.insert(*key, stay.value, until)?;
        Ok(())
    }

    /// Appends the intervals of all that stands, by rising key.
    pub(crate) fn tell_open(&self, at: u64, ended: &mut Vec<Ended<K, V>>) -> Result<(), AllocError>
        ensures ok { OnOk result (ended.new.items ≡ ended.old.items
            ++ all_ended Why.Open at (map_of K.cmp self.now)) }
        ensures err { OnErr result (IsBegun ended.old.items ended.new.items
            (all_ended Why.Open at (map_of K.cmp self.now))) }
    {
        for (key, stay) in self.held.iter() {
            ended.push(ended_of(*key, stay, Why::Open, at))?;
        }
        Ok(())
    }
}

/// The keys of a set, by rising key.
fn listed<K: Key>(alloc: Global, keys: &BTreeSet<K>) -> Result<Vec<K>, AllocError>
    ensures keys { IfOk result (λ list. list.items ≡ keys.now.keys) }
    ensures rises { IfOk result (λ list. IsStrictlySortedBy K.cmp list.items) }
{
    let mut list = Vec::new(alloc);
    for key in keys.iter() {
        list.push(*key)?;
    }
    Ok(list)
}

/// Those of the keys that are at a place.
fn those_at<P: Key, K: Placed<P>>(
    alloc: Global,
    keys: &[K],
    place: &P,
) -> Result<Vec<K>, AllocError>
    ensures { IfOk result (λ those. those.items
        ≡ filter (λ key. is_among P.cmp place.now (K.places key)) keys.now) }
{
    let mut those = Vec::new(alloc);
    for key in keys {
        push_if(&mut those, *key, is_at(key, place))?;
    }
    Ok(those)
}

/// Appends a key, if it is to be.
fn push_if<K: Key>(keys: &mut Vec<K>, key: K, is_wanted: bool) -> Result<(), AllocError>
    ensures { OnOk result (keys.new.items ≡ keys.old.items ++ (if is_wanted then key ∷ [] else [])) }
{
    if is_wanted {
        keys.push(key)?;
    }
    Ok(())
}

/// Whether a key is at a place.
fn is_at<P: Key, K: Placed<P>>(key: &K, place: &P) -> bool
    ensures { result ≡ is_among P.cmp place.now (K.places key.now) }
{
    let ((one, two), (three, four)) = key.places();
    is_same_key(&one, place)
        || (is_same_key(&two, place) || (is_same_key(&three, place) || is_same_key(&four, place)))
}

/// The interval of what stood under a key, once it ended.
fn ended_of<K: Key, V: Copy>(key: K, stay: &Lasting<Since<V>>, why: Why, at: u64) -> Ended<K, V>
    ensures { result ≡ ended_of why at (key, stay.now) }
{
    Ended {
        key,
        interval: Interval {
            value: stay.value.value,
            from: stay.value.since,
            until: at,
            why,
        },
    }
}

/// Puts a key in at its places.
fn place<P: Key, K: Placed<P>>(at: &mut Index<P, K>, key: K) -> Result<(), AllocError>
    ensures there { OnOk result ((stands P.cmp K.cmp at.new (K.places key).0.0 key ≡ true)
        × (stands P.cmp K.cmp at.new (K.places key).0.1 key ≡ true)
        × (stands P.cmp K.cmp at.new (K.places key).1.0 key ≡ true)
        × (stands P.cmp K.cmp at.new (K.places key).1.1 key ≡ true)) }
    ensures kept { (place : P) (other : K) → stands P.cmp K.cmp at.old place other ≡ true
        → stands P.cmp K.cmp at.new place other ≡ true }
{
    let ((one, two), (three, four)) = key.places();
    at.put(one, key)?;
    at.put(two, key)?;
    at.put(three, key)?;
    at.put(four, key)?;
    Ok(())
}

/// Takes a key out at its places.
fn displace<P: Key, K: Placed<P>>(at: &mut Index<P, K>, key: K)
    ensures { (place : P) (other : K) → eq_by_cmp K.cmp key other ≡ false
        → stands P.cmp K.cmp at.old place other ≡ true → stands P.cmp K.cmp at.new place other ≡ true }
{
    let ((one, two), (three, four)) = key.places();
    at.remove(one, key);
    at.remove(two, key);
    at.remove(three, key);
    at.remove(four, key);
}
