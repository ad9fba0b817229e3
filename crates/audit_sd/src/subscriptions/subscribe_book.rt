//! The Subscribes of a recording that wait for their answer, and the answers that are owed.
ghost use Rattle.std.specs.Prelude.{◌≡◌, ◌≢◌, ◌≤◌, ◌&&◌, ◌||◌, IfOk, OnErr, None, not, true};
ghost use Rattle.std.specs.FinMap as finite;
ghost use Rattle.someip_tables.specs.Retained.{retain};
ghost use Rattle.someip_tables.specs.Tables.{map_of};
ghost use Rattle.someip_tables.specs.Waits.{HoldsFrom, due_by};
ghost use Rattle.someip_tables.specs.hashed.Rooms.{may_hold};
ghost use Rattle.audit_sd.specs.subscriptions.SubscriptionKeys.{subscription_cmp};
ghost use Rattle.std.specs.Option.{is_none};
ghost use Rattle.audit_sd.specs.subscriptions.OwedAnswers.{once_asked};
ghost use Rattle.audit_sd.specs.subscriptions.SubscribeRules.{is_of, told_of_answer, unasked_as, waits_until};
ghost use Rattle.audit_sd.specs.subscriptions.SubscribeTables.{FallsDue, after_due, after_entry};
ghost use Rattle.audit_sd.specs.subscriptions.SubscribeTables.{has_room, may_be_asked, needs_memory, no_subscribes};
ghost use Rattle.audit_sd.specs.subscriptions.SubscribeTables.{told_by, unasked_by, waiting_with, without};

use crate::subscriptions::entry::{Asked, EntryKind, SubscribeEntry};
use crate::subscriptions::finding::{Finding, Unanswered};
use crate::subscriptions::key::SubscriptionKey;
use crate::subscriptions::owed::{Owed, answer, ask, forgive};
use audit_index::OwnedTable;
use someip_tables::Moment;
use someip_tables::hashed::Room;
use std::alloc::{AllocError, Global};
use std::marker::Model;
use std::net::Ipv4Addr;

/// The Subscribes that wait for their answer, and the answers that are owed: a Subscribe waits for a while
/// alone, and is owed its answer also then. One that comes while another waits waits no longer, and is
/// owed an answer of its own.
///
/// Whoever goes over a recording asks of each entry first [`SubscribeBook::unasked`], and then
/// [`SubscribeBook::saw`].
#[derive(Drop)]
pub struct SubscribeBook {
    room: Room,
    answer_ms: u32,
    settled: Moment,
    waiting: OwnedTable<SubscriptionKey, Asked>,
    owed: OwnedTable<SubscriptionKey, Owed>,
}

impl Model for SubscribeBook {
    ghost use Rattle.std.specs.Prelude.{◌≤◌};
    ghost use Rattle.std.specs.FinMap as finite;
    ghost use Rattle.someip_tables.specs.Tables.{map_of};
    ghost use Rattle.audit_sd.specs.subscriptions.SubscriptionKeys.{subscription_cmp};
    ghost use Rattle.audit_sd.specs.subscriptions.SubscribeTables.{SubscribeTable, coded_subscribes};

    ghost Value = { SubscribeTable };

    ghost coded = { coded_subscribes };

    ghost view = { λ b. record {
      limit = b.room.limit;
      answer_ms = b.answer_ms;
      settled = b.settled;
      waiting = map_of subscription_cmp b.waiting;
      owed = map_of subscription_cmp b.owed;
      told_full = b.room.told_full;
    } };

    ghost invariant = { λ b. (finite.len (map_of subscription_cmp b.waiting) ≤ b.room.limit)
        × (finite.len (map_of subscription_cmp b.owed) ≤ b.room.limit) };
}

impl SubscribeBook {
    /// A book that holds at most so many subscriptions, and none yet. An answer may take so many
    /// milliseconds. Before `settled` none is told as unasked: its Subscribe may be before the recording.
    /// It takes no memory.
    pub fn new(alloc: Global, limit: usize, answer_ms: u32, settled: Moment) -> SubscribeBook
        ensures { result ≡ no_subscribes limit answer_ms settled }
    {
        SubscribeBook {
            room: Room::new(limit),
            answer_ms,
            settled,
            waiting: OwnedTable::new(alloc),
            owed: OwnedTable::new(alloc),
        }
    }

    /// What an entry is told as that nobody asked for: an Ack or a Nack, where every Subscribe of its
    /// subscription has had its answer. One whose Subscribe was told as unanswered is owed one still. Once
    /// the book was full, none is told: what was not taken may have asked for it.
    pub fn unasked(&self, now: Moment, entry: &SubscribeEntry) -> Option<Finding>
        ensures { result ≡ unasked_by now entry.now self.now }
    {
        if self.may_be_asked(now, &entry.key) {
            return None;
        }
        unasked_as(entry)
    }

    /// Takes note of an entry of an eventgroup, and says what it shows.
    ///
    /// A Subscribe waits for an Ack or a Nack of its subscription; where one waits already, that one goes
    /// on to wait, and the new one opens nothing. Each is owed one answer. Each Nack is told. What fell due
    /// before is asked for before, by [`SubscribeBook::due`]: what was not asked for waits. Memory is taken
    /// for a Subscribe alone that begins to wait, or is the first that an answer is owed to, and what is
    /// refused for want of it leaves the book as it was.
    pub fn saw(&mut self, now: Moment, entry: SubscribeEntry) -> Result<Option<Finding>, AllocError>
        ensures told { IfOk result (λ told. told ≡ told_by entry self.old) }
        ensures after { IfOk result (λ told. self.new ≡ after_entry now entry self.old) }
        ensures err { OnErr result (self.new ≡ self.old) }
        ensures grows { OnErr result (needs_memory entry self.old ≡ true) }
    {
        if matches!(entry.kind, EntryKind::Answer) {
            self.waiting.remove(&entry.key);
            answer(&mut self.owed, &entry.key);
            return Ok(told_of_answer(&entry));
        }
        if entry.ttl == 0 {
            return Ok(None);
        }
        if !has_room(&self.waiting, &self.owed, self.room, &entry.key) {
            return Ok(self.room.tell_full(Finding::Full));
        }
        take(
            &mut self.waiting,
            &mut self.owed,
            now,
            self.answer_ms,
            &entry,
        )?;
        Ok(None)
    }

    /// Ends the wait of the Subscribes of an address that began again, and of those that were sent to it:
    /// no answer is owed to them. It looks at these alone, and takes no memory.
    pub fn forget(&mut self, address: Ipv4Addr)
        ensures { self.new ≡ without address self.old }
    {
        forget(&mut self.waiting, address);
        forgive(&mut self.owed, address);
    }

    /// The Subscribe that waited too long first, by deadline and then by subscription, if one has. It
    /// waits no more then. Whoever goes over a recording asks until nothing is left, with the moment of
    /// each datagram and before it. It takes no memory.
    pub fn due(&mut self, now: Moment) -> Option<Unanswered>
        ensures told { FallsDue now self.old.waiting result }
        ensures after { self.new ≡ after_due result self.old }
    {
        let told = first_unanswered(&self.waiting, now);
        if let Some(unanswered) = told {
            self.waiting.remove(&unanswered.key);
        }
        told
    }

    /// When [`SubscribeBook::due`] next tells a Subscribe, in milliseconds: the first deadline, if one
    /// waits.
    pub fn next_due(&self) -> Option<u64>
        ensures { HoldsFrom result
            (λ now. due_by waits_until now self.now.waiting ≢ finite.empty) }
    {
        match self.waiting.first_due() {
            Some(due) => Some(due.at),
            None => None,
        }
    }

    /// How many Subscribes wait: no more than the book's limit.
    pub fn len(&self) -> usize
        ensures count { result ≡ finite.len self.now.waiting }
        ensures few { result ≤ self.now.limit }
    {
        self.waiting.len()
    }

    /// How many subscriptions an answer is owed to: no more than the book's limit.
    pub fn owed_len(&self) -> usize
        ensures count { result ≡ finite.len self.now.owed }
        ensures few { result ≤ self.now.limit }
    {
        self.owed.len()
    }

    /// Whether an answer may have been asked for: before the recording, by what was not taken, or by a
    /// Subscribe that is owed one.
    fn may_be_asked(&self, now: Moment, key: &SubscriptionKey) -> bool
        ensures { result ≡ may_be_asked now key.now self.now }
    {
        now.as_millis() < self.settled.as_millis()
            || self.room.told_full
            || self.owed.get(key).is_some()
    }
}

/// What is told of an answer.
fn told_of_answer(entry: &SubscribeEntry) -> Option<Finding>
    ensures { result ≡ told_of_answer entry.now }
{
    if entry.ttl == 0 {
        Some(Finding::Nack)
    } else {
        None
    }
}

/// What an entry is told as that nobody asked for.
fn unasked_as(entry: &SubscribeEntry) -> Option<Finding>
    ensures { result ≡ unasked_as entry.now.kind entry.now }
{
    match entry.kind {
        EntryKind::Subscribe => None,
        EntryKind::Answer if entry.ttl == 0 => Some(Finding::UnaskedNack),
        EntryKind::Answer => Some(Finding::UnaskedAck),
    }
}

/// Whether there is room for a Subscribe: it may wait, and its answer may be owed.
fn has_room(
    waiting: &OwnedTable<SubscriptionKey, Asked>,
    owed: &OwnedTable<SubscriptionKey, Owed>,
    room: Room,
    key: &SubscriptionKey,
) -> bool
    ensures { result ≡ (may_hold room.limit (map_of subscription_cmp waiting.now) key.now
        && may_hold room.limit (map_of subscription_cmp owed.now) key.now) }
{
    room.may_hold(waiting.get(key).is_some(), waiting.len())
        && room.may_hold(owed.get(key).is_some(), owed.len())
}

/// A Subscribe comes that there is room for: it waits, unless one of its subscription does, and is owed an
/// answer.
fn take(
    waiting: &mut OwnedTable<SubscriptionKey, Asked>,
    owed: &mut OwnedTable<SubscriptionKey, Owed>,
    now: Moment,
    answer_ms: u32,
    entry: &SubscribeEntry,
) -> Result<(), AllocError>
    ensures waits { IfOk result (λ _. map_of subscription_cmp waiting.new
        ≡ waiting_with now answer_ms entry.now (map_of subscription_cmp waiting.old)) }
    ensures owed { IfOk result (λ _. map_of subscription_cmp owed.new
        ≡ once_asked entry.now.key (map_of subscription_cmp owed.old)) }
    ensures none_waits { OnErr result
        (map_of subscription_cmp waiting.new ≡ map_of subscription_cmp waiting.old) }
    ensures none_owed { OnErr result (owed.new ≡ owed.old) }
    ensures grows { OnErr result
        ((is_none (finite.get (map_of subscription_cmp waiting.old) entry.now.key)
        || is_none (finite.get (map_of subscription_cmp owed.old) entry.now.key)) ≡ true) }
{
    let waited = waiting.get(&entry.key).is_some();
    wait(waiting, now, answer_ms, entry)?;
    if ask(owed, entry.key).is_ok() {
        return Ok(());
    }
    if !waited {
        waiting.remove(&entry.key);
    }
    Err(AllocError)
}

/// A Subscribe waits, unless one of its subscription does.
fn wait(
    waiting: &mut OwnedTable<SubscriptionKey, Asked>,
    now: Moment,
    answer_ms: u32,
    entry: &SubscribeEntry,
) -> Result<(), AllocError>
    ensures after { IfOk result (λ _. map_of subscription_cmp waiting.new
        ≡ waiting_with now answer_ms entry.now (map_of subscription_cmp waiting.old)) }
    ensures err { OnErr result (waiting.new ≡ waiting.old) }
    ensures grows { OnErr result
        (finite.get (map_of subscription_cmp waiting.old) entry.now.key ≡ None) }
{
    if waiting.get(&entry.key).is_some() {
        return Ok(());
    }
    waiting.insert(
        entry.key,
        Asked {
            origin: entry.origin,
            until: now.as_millis() + u64::from(answer_ms),
        },
    )
}

/// Ends the wait of what is of an address.
fn forget(waiting: &mut OwnedTable<SubscriptionKey, Asked>, address: Ipv4Addr)
    ensures { map_of subscription_cmp waiting.new
        ≡ retain (map_of subscription_cmp waiting.old) (λ key _. not (is_of address key)) }
{
    waiting.forget(address);
}

/// The Subscribe that waited too long first, if one has.
fn first_unanswered(waiting: &OwnedTable<SubscriptionKey, Asked>, now: Moment) -> Option<Unanswered>
    ensures { FallsDue now (map_of subscription_cmp waiting.now) result }
{
    let Some(due) = waiting.first_due() else {
        return None;
    };
    if now.as_millis() < due.at {
        return None;
    }
    match waiting.get(&due.key) {
        Some(asked) => Some(Unanswered {
            at: asked.until,
            key: due.key,
            origin: asked.origin,
        }),
        None => None,
    }
}
