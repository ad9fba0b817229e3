//! The subscriptions of a recording that stand.
ghost use Rattle.std.specs.Prelude.{◌≡◌, ◌≢◌, IfOk, OnErr, OnOk, nat_lt, true, false};
ghost use Rattle.std.specs.FinMap as finite;
ghost use Rattle.someip_tables.specs.Deadlines.{deadline_after};
ghost use Rattle.someip_tables.specs.Lastings.{NeedsMemory, expired};
ghost use Rattle.someip_tables.specs.Waits.{HoldsFrom};
ghost use Rattle.audit_sd.specs.receivers.ReceiverTables.{after_entry, after_event, begins_or_ends, ends, is_passed_over, is_stored, is_subscribed};
ghost use Rattle.audit_sd.specs.receivers.ReceiverTables.{told_by, told_of_event, without, without_expired};
ghost use Rattle.audit_sd.specs.receivers.ReceiverTables.{without_offer};

use crate::receivers::delivery::Delivery;
use crate::receivers::entry::{ReceiverEntry, WithdrawnOffer};
use crate::receivers::finding::Finding;
use crate::receivers::standing::Standing;
use crate::receivers::steps::{acknowledge, begins, is_silent, may_hold, moves, subscribe};
use crate::receivers::told_events::ToldEvents;
use crate::subscriptions::{EntryKind, SubscriptionKey};
use someip_tables::Moment;
use someip_tables::hashed::Room;
use std::alloc::{AllocError, Global};
use std::collections::BTreeSet;
use std::marker::Model;
use std::net::Ipv4Addr;

/// The subscriptions that stand, and the events that were told.
#[derive(Drop)]
pub struct ReceiverBook {
    room: Room,
    settled: Moment,
    standing: Standing,
    told: ToldEvents,
}

impl Model for ReceiverBook {
    ghost use Rattle.someip_tables.specs.Tables.{map_of};
    ghost use Rattle.audit_sd.specs.subscriptions.SubscriptionKeys.{subscription_cmp};
    ghost use Rattle.audit_sd.specs.receivers.ReceiverTables.{Receivers, coded_receivers};

    ghost Value = { Receivers };

    ghost coded = { coded_receivers };

    ghost view = { λ b. record {
      limit = b.room.limit;
      settled = b.settled;
      standing = map_of subscription_cmp b.standing;
      told = b.told;
      told_full = b.room.told_full;
    } };
}

impl ReceiverBook {
    /// A book that holds at most so many subscriptions, and was told of so many events, and none yet. It
    /// tells no event before a moment. It takes no memory.
    pub fn new(alloc: Global, limit: usize, settled: Moment) -> ReceiverBook
        ensures { result ≡ record {
          limit = limit;
          settled = settled;
          standing = finite.empty;
          told = finite.empty;
          told_full = false;
        } }
    {
        ReceiverBook {
            room: Room::new(limit),
            settled,
            standing: Standing::new(alloc),
            told: ToldEvents::new(alloc),
        }
    }

    /// Drops the subscriptions that have expired, and tells them, by rising key. Whoever goes over a
    /// recording calls it with the moment of each datagram: what was not dropped stands. It looks at these
    /// alone. It is refused for memory alone, which it takes only where there are any; then all is as it
    /// was.
    pub fn expire(
        &mut self,
        alloc: Global,
        now: Moment,
    ) -> Result<BTreeSet<SubscriptionKey>, AllocError>
        ensures told { IfOk result (λ ended. ended.keys
            ≡ finite.keys (expired now self.old.standing)) }
        ensures after { OnOk result (self.new ≡ without_expired now self.old) }
        ensures grows { OnErr result (expired now self.old.standing ≢ finite.empty) }
        ensures unchanged { OnErr result (self.new ≡ self.old) }
    {
        self.standing.expire(alloc, now)
    }

    /// Takes note of an entry of an eventgroup. It tells nothing but that the book is full.
    ///
    /// A Subscribe with an endpoint stands until its TTL has passed, and an Ack counts the TTL anew from
    /// itself. A StopSubscribe and a Nack end the subscription. Memory is taken for what is stored alone,
    /// and what is refused for want of it leaves the book as it was.
    pub fn saw(&mut self, now: Moment, entry: ReceiverEntry) -> Result<Option<Finding>, AllocError>
        ensures told { IfOk result (λ told. told ≡ told_by entry self.old) }
        ensures after { IfOk result (λ told. self.new ≡ after_entry now entry self.old) }
        ensures err { OnErr result (self.new ≡ self.old) }
        ensures stores { OnErr result (is_stored entry self.old ≡ true) }
        ensures grows { OnErr result
            (NeedsMemory (finite.get self.old.standing entry.key) (deadline_after now entry.ttl)) }
    {
        if entry.ttl == 0 {
            self.standing.remove(&entry.key);
            return Ok(None);
        }
        if matches!(entry.kind, EntryKind::Answer) {
            acknowledge(&mut self.standing, now, &entry)?;
            return Ok(None);
        }
        let Some(endpoint) = entry.endpoint else {
            return Ok(None);
        };
        if !may_hold(&self.standing, self.room, &entry) {
            return Ok(self.room.tell_full(Finding::Full));
        }
        subscribe(&mut self.standing, now, &entry, endpoint)?;
        self.told.untell(&entry.key, endpoint);
        Ok(None)
    }

    /// Ends the subscriptions to an offer that its server withdrew. It takes no memory, and looks at these
    /// alone, unless memory was refused before.
    pub fn withdraw(&mut self, offer: WithdrawnOffer)
        ensures { self.new ≡ without_offer offer self.old }
    {
        self.standing.withdraw(offer);
    }

    /// Ends the subscriptions of an address that began again, and those at it. It takes no memory, and looks
    /// at these alone, unless memory was refused before.
    pub fn forget(&mut self, address: Ipv4Addr)
        ensures { self.new ≡ without address self.old }
    {
        self.standing.forget(address);
    }

    /// Whether an entry ends what stood: a StopSubscribe, a Nack, or a Subscribe of a subscription that stands with
    /// another endpoint. It is asked for before [`ReceiverBook::saw`] takes note of the entry.
    pub fn ends(&self, entry: &ReceiverEntry) -> bool
        ensures { result ≡ ends entry.now self.now }
    {
        entry.ttl == 0 || moves(entry, self.standing.endpoint_of(&entry.key))
    }

    /// Whether an entry begins a subscription or ends one: a Subscribe with an endpoint of which none stands, or one
    /// with another endpoint; an Ack that finds none; a StopSubscribe or a Nack of one that stands. A renewal does
    /// neither. It is asked for before [`ReceiverBook::saw`] takes note of the entry.
    pub fn begins_or_ends(&self, entry: &ReceiverEntry) -> bool
        ensures { result ≡ begins_or_ends entry.now self.now.standing }
    {
        if entry.ttl == 0 {
            self.standing.contains(&entry.key)
        } else {
            begins(entry, self.standing.endpoint_of(&entry.key))
        }
    }

    /// Whether an event may go to its endpoint by a subscription. The book is as it was.
    pub fn is_subscribed(&mut self, delivery: &Delivery) -> bool
        ensures told { result ≡ is_subscribed delivery.now self.old.standing }
        ensures unchanged { self.new ≡ self.old }
    {
        self.standing.is_subscribed(delivery)
    }

    /// When a subscription next expires, in milliseconds, if one does. What was not dropped may have.
    pub fn next_expiry(&self) -> Option<u64>
        ensures { HoldsFrom result (λ now. expired now self.now.standing ≢ finite.empty) }
    {
        self.standing.next_expiry()
    }

    /// Says what an event shows that went to one endpoint: that this has no subscription, once for each
    /// event until a Subscribe comes for it. Memory is taken for an event that is told alone, and what is
    /// refused for want of it leaves the book as it was.
    pub fn event(&mut self, now: Moment, delivery: Delivery) -> Result<Option<Finding>, AllocError>
        ensures told { IfOk result (λ told. told ≡ told_of_event now delivery self.old) }
        ensures after { IfOk result (λ told. self.new ≡ after_event now delivery self.old) }
        ensures err { OnErr result (self.new ≡ self.old) }
        ensures grows { OnErr result (is_passed_over now delivery self.old ≡ false) }
        ensures room { OnErr result (nat_lt (finite.len self.old.told) self.old.limit ≡ true) }
    {
        if is_silent(self.room.told_full, now, self.settled) {
            return Ok(None);
        }
        if self.told.contains(&delivery) {
            return Ok(None);
        }
        if self.standing.is_subscribed(&delivery) {
            return Ok(None);
        }
        if self.told.len() >= self.room.limit {
            self.room.told_full = true;
            return Ok(Some(Finding::Full));
        }
        self.told.insert(delivery)?;
        Ok(Some(Finding::Unsubscribed))
    }
}
