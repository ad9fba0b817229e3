//! The calls that wait for their answers.
ghost use Rattle.std.specs.Prelude.{◌≡◌, IfOk, None, OnErr, OnOk, is_some, ◌||◌, nat_lt};
ghost use Rattle.std.specs.FinMap as finite;
ghost use Rattle.someip_tables.specs.Tables.{map_of};
ghost use Rattle.someip_tables.specs.hashed.Rooms.{told_when_full};
ghost use Rattle.audit_stats.specs.Keys.{call_cmp};
ghost use Rattle.audit_stats.specs.Tables.{empty_held, full_told, has_room, held_by, with_held, without_held};

use crate::keys::Call;
use someip_tables::hashed::Room;
use std::alloc::{AllocError, Global};
use std::collections::HashMap;
use std::marker::Model;

/// Since when calls wait for their answers, in microseconds, of which there are at most so many. That there is no
/// room for a call is told once.
///
/// A call is found by its hash. The seed of the hashes is fixed: of calls that were made to have one hash, each look
/// goes over all.
#[derive(Drop)]
pub(crate) struct WaitTable {
    room: Room,
    held: HashMap<Call, u64>,
}

impl Model for WaitTable {
    ghost use Rattle.std.specs.Prelude.{ℕ};
    ghost use Rattle.audit_stats.specs.declared.keys.Call.{Call};
    ghost use Rattle.audit_stats.specs.Tables.{Entries};

    ghost Value = { Entries Call ℕ };

    ghost view = { λ t. record {
      limit = t.room.limit;
      entries = t.held.entries;
      told_full = t.room.told_full;
    } };
}

impl WaitTable {
    /// A table of at most so many calls, and none yet. It takes no memory.
    pub(crate) fn new(alloc: Global, limit: usize) -> WaitTable
        ensures { held_by call_cmp result ≡ empty_held limit }
    {
        WaitTable {
            room: Room::new(limit),
            held: HashMap::new(alloc),
        }
    }

    /// Whether a call has room: it is held, or fewer are than may be. It is looked for where there is no room for
    /// one more.
    pub(crate) fn has_room(&self, call: &Call) -> bool
        ensures { result ≡ has_room call.now (held_by call_cmp self.now) }
    {
        has_room(&self.room, &self.held, call)
    }

    /// Tells that the table is full, once.
    pub(crate) fn tell_full<F: Copy>(&mut self, full: F) -> Option<F>
        ensures told { result ≡ told_when_full full self.old.told_full }
        ensures after { held_by call_cmp self.new ≡ full_told (held_by call_cmp self.old) }
    {
        self.room.tell_full(full)
    }

    /// Whether it was told that the table is full.
    pub(crate) fn told_full(&self) -> bool
        ensures { result ≡ self.now.told_full }
    {
        self.room.told_full
    }

    /// Since when a call waits.
    pub(crate) fn get(&self, call: &Call) -> Option<u64>
        ensures { result ≡ finite.get (held_by call_cmp self.now).values call.now }
    {
        look(&self.held, call)
    }

    /// A call waits from a moment on, and no more since the one that is told. Memory is taken for a new call alone,
    /// and where it is refused nothing changes.
    pub(crate) fn put(&mut self, call: Call, now: u64) -> Result<Option<u64>, AllocError>
        ensures before { IfOk result
            (λ before. before ≡ finite.get (held_by call_cmp self.old).values call) }
        ensures ok { OnOk result (held_by call_cmp self.new ≡ with_held call now (held_by call_cmp self.old)) }
        ensures err { OnErr result (held_by call_cmp self.new ≡ held_by call_cmp self.old) }
        ensures grows { OnErr result (finite.get (held_by call_cmp self.old).values call ≡ None) }
    {
        hold(&mut self.held, call, now)
    }

    /// A call waits no more. It takes no memory.
    pub(crate) fn remove(&mut self, call: &Call)
        ensures { held_by call_cmp self.new ≡ without_held call.now (held_by call_cmp self.old) }
    {
        take_out(&mut self.held, call);
    }
}

/// Whether a call has room: it is held, or fewer are than may be.
fn has_room(room: &Room, held: &HashMap<Call, u64>, call: &Call) -> bool
    ensures { result ≡ (is_some (finite.get (map_of call_cmp held.now.entries) call.now)
        || nat_lt (finite.len (map_of call_cmp held.now.entries)) room.now.limit) }
{
    held.len() < room.limit || held.contains_key(call)
}

/// Since when a call waits.
fn look(held: &HashMap<Call, u64>, call: &Call) -> Option<u64>
    ensures { result ≡ finite.get (map_of call_cmp held.now.entries) call.now }
{
    held.get(call).copied()
}

/// A call waits from a moment on, and no more since the one that is told.
fn hold(held: &mut HashMap<Call, u64>, call: Call, now: u64) -> Result<Option<u64>, AllocError>
    ensures before { IfOk result
        (λ before. before ≡ finite.get (map_of call_cmp held.old.entries) call) }
    ensures ok { OnOk result (map_of call_cmp held.new.entries
        ≡ finite.insert (map_of call_cmp held.old.entries) call now) }
    ensures err { OnErr result (map_of call_cmp held.new.entries ≡ map_of call_cmp held.old.entries) }
    ensures grows { OnErr result (finite.get (map_of call_cmp held.old.entries) call ≡ None) }
{
    match held.insert(call, now) {
        Ok(before) => Ok(before),
        Err(_) => Err(AllocError),
    }
}

/// A call waits no more.
fn take_out(held: &mut HashMap<Call, u64>, call: &Call)
    ensures { map_of call_cmp held.new.entries ≡ finite.remove (map_of call_cmp held.old.entries) call.now }
{
    held.remove(call);
}
