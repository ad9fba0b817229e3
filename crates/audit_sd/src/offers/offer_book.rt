//! The offers of a recording that stand.
ghost use Rattle.std.specs.Prelude.{◌≡◌, ◌≢◌, ◌≤◌, IfOk, OnErr, Some, not, true, false};
ghost use Rattle.std.specs.FinMap as finite;
ghost use Rattle.someip_tables.specs.Retained.{retain};
ghost use Rattle.someip_tables.specs.Tables.{map_of};
ghost use Rattle.someip_tables.specs.Waits.{HoldsFrom, due_by};
ghost use Rattle.audit_index.specs.Owners.{WantsRoom};
ghost use Rattle.audit_sd.specs.offers.OfferKeys.{offer_cmp};
ghost use Rattle.audit_sd.specs.offers.OfferRules.{is_of, moved_by, offered_at, owners_of, passes_at};
ghost use Rattle.audit_sd.specs.offers.OfferTables.{FallsDue, after_due, after_entry, ended_by, is_offered_by};
ghost use Rattle.audit_sd.specs.offers.OfferTables.{is_stored, stopped, told_by, without_sender};

use crate::offers::entry::{OfferEntry, Standing};
use crate::offers::finding::{Expired, Finding};
use crate::offers::key::OfferKey;
use audit_index::OwnedTable;
use someip_tables::hashed::{Room, is_same_address, is_same_endpoint};
use someip_tables::{Deadline, Moment};
use std::alloc::{AllocError, Global};
use std::marker::Model;
use std::net::{Ipv4Addr, SocketAddrV4};

/// The offers that stand, each until its TTL has passed.
#[derive(Drop)]
pub struct OfferBook {
    room: Room,
    standing: OwnedTable<OfferKey, Standing>,
}

impl Model for OfferBook {
    ghost use Rattle.std.specs.Prelude.{◌≤◌};
    ghost use Rattle.std.specs.FinMap as finite;
    ghost use Rattle.someip_tables.specs.Tables.{map_of};
    ghost use Rattle.audit_sd.specs.offers.OfferKeys.{offer_cmp};
    ghost use Rattle.audit_sd.specs.offers.OfferTables.{OfferTable, coded_offers};

    ghost Value = { OfferTable };

    ghost coded = { coded_offers };

    ghost view = { λ b. record {
      limit = b.room.limit;
      standing = map_of offer_cmp b.standing;
      told_full = b.room.told_full;
    } };

    ghost invariant = { λ b. finite.len (map_of offer_cmp b.standing) ≤ b.room.limit };
}

impl OfferBook {
    /// A book that holds at most so many offers, and none yet. It takes no memory.
    pub fn new(alloc: Global, limit: usize) -> OfferBook
        ensures { result ≡ record { limit = limit; standing = finite.empty; told_full = false } }
    {
        OfferBook {
            room: Room::new(limit),
            standing: OwnedTable::new(alloc),
        }
    }

    /// Takes note of an Offer or a StopOffer, and says what it shows.
    ///
    /// An Offer stands until its TTL has passed, in place of one of the same key; where that was of
    /// another sender or had another endpoint, it moved. A StopOffer ends the offer of its sender, and
    /// says nothing. What fell due before is asked for before, by [`OfferBook::due`]: what was not
    /// asked for stands. Memory is taken for an Offer that is stored alone, and what is refused for want
    /// of it leaves the book as it was.
    pub fn saw(&mut self, now: Moment, entry: OfferEntry) -> Result<Option<Finding>, AllocError>
        ensures told { IfOk result (λ told. told ≡ told_by entry self.old) }
        ensures after { IfOk result (λ told. self.new ≡ after_entry now entry self.old) }
        ensures err { OnErr result (self.new ≡ self.old) }
        ensures stores { OnErr result (is_stored entry self.old ≡ true) }
        ensures grows { OnErr result ((endpoint : SocketAddrV4) → entry.endpoint ≡ Some endpoint
            → WantsRoom owners_of passes_at entry.key (finite.get self.old.standing entry.key)
            (offered_at now entry endpoint)) }
    {
        if entry.ttl == 0 {
            stop(&mut self.standing, &entry);
            return Ok(None);
        }
        let Some(endpoint) = entry.endpoint else {
            return Ok(None);
        };
        let is_held = self.standing.get(&entry.key).is_some();
        if !self.room.may_hold(is_held, self.standing.len()) {
            return Ok(self.room.tell_full(Finding::Full));
        }
        offer(&mut self.standing, now, &entry, endpoint)
    }

    /// The offer that a StopOffer ends: the one under its key, if that is of its own sender. It is asked for
    /// before [`OfferBook::saw`] takes note of the StopOffer.
    pub fn ended_by(&self, entry: &OfferEntry) -> Option<Standing>
        ensures { result ≡ ended_by entry.now self.now }
    {
        let offer = self.standing.get(&entry.key)?;
        if is_of(&offer, *entry.origin.from.ip()) {
            Some(offer)
        } else {
            None
        }
    }

    /// Ends the offers of a sender that began again. It looks at these alone, and takes no memory.
    pub fn forget(&mut self, sender: Ipv4Addr)
        ensures { self.new ≡ without_sender sender self.old }
    {
        forget(&mut self.standing, sender);
    }

    /// The offer that expires first, by deadline and then by key, if its deadline has come. It stands no
    /// more then. Whoever goes over a recording asks until nothing is left, with the moment of each
    /// datagram and before it. It takes no memory.
    pub fn due(&mut self, now: Moment) -> Option<Expired>
        ensures told { FallsDue now self.old.standing result }
        ensures after { self.new ≡ after_due result self.old }
    {
        let told = first_expired(&self.standing, now);
        if let Some(expired) = told {
            self.standing.remove(&expired.key);
        }
        told
    }

    /// When [`OfferBook::due`] next tells an offer, in milliseconds: the first deadline, if one passes.
    pub fn next_due(&self) -> Option<u64>
        ensures { HoldsFrom result
            (λ now. due_by passes_at now self.now.standing ≢ finite.empty) }
    {
        match self.standing.first_due() {
            Some(due) => Some(due.at),
            None => None,
        }
    }

    /// How many offers stand: no more than the book's limit.
    pub fn len(&self) -> usize
        ensures count { result ≡ finite.len self.now.standing }
        ensures few { result ≤ self.now.limit }
    {
        self.standing.len()
    }
}

/// An Offer stands in place of what stood under its key.
fn offer(
    offers: &mut OwnedTable<OfferKey, Standing>,
    now: Moment,
    entry: &OfferEntry,
    endpoint: SocketAddrV4,
) -> Result<Option<Finding>, AllocError>
    ensures told { IfOk result (λ told. told
        ≡ moved_by entry.now endpoint (finite.get (map_of offer_cmp offers.old) entry.now.key)) }
    ensures after { IfOk result (λ told. map_of offer_cmp offers.new
        ≡ finite.insert (map_of offer_cmp offers.old) entry.now.key (offered_at now entry.now endpoint)) }
    ensures err { OnErr result (offers.new ≡ offers.old) }
    ensures grows { OnErr result (WantsRoom owners_of passes_at entry.now.key
        (finite.get (map_of offer_cmp offers.old) entry.now.key) (offered_at now entry.now endpoint)) }
{
    let told = moved_by(entry, endpoint, offers.get(&entry.key));
    let standing = Standing {
        endpoint,
        origin: entry.origin,
        until: Deadline::after_ttl(now, entry.ttl),
    };
    offers.insert(entry.key, standing)?;
    Ok(told)
}

/// What is told of an Offer, by the offer that stands under its key.
fn moved_by(
    entry: &OfferEntry,
    endpoint: SocketAddrV4,
    standing: Option<Standing>,
) -> Option<Finding>
    ensures { result ≡ moved_by entry.now endpoint standing }
{
    let offer = standing?;
    if is_of(&offer, *entry.origin.from.ip()) && is_same_endpoint(&offer.endpoint, &endpoint) {
        None
    } else {
        Some(Finding::Moved)
    }
}

/// A StopOffer ends the offer under its key, if this is of its sender.
fn stop(offers: &mut OwnedTable<OfferKey, Standing>, entry: &OfferEntry)
    ensures { map_of offer_cmp offers.new ≡ stopped entry.now (map_of offer_cmp offers.old) }
{
    if is_offered_by(offers.get(&entry.key), *entry.origin.from.ip()) {
        offers.remove(&entry.key);
    }
}

/// Whether there is an offer, and it is of a sender.
fn is_offered_by(standing: Option<Standing>, sender: Ipv4Addr) -> bool
    ensures { result ≡ is_offered_by sender standing }
{
    match standing {
        Some(offer) => is_of(&offer, sender),
        None => false,
    }
}

/// Whether an offer is of a sender.
fn is_of(offer: &Standing, sender: Ipv4Addr) -> bool
    ensures { result ≡ is_of sender offer.now }
{
    is_same_address(offer.origin.from.ip(), &sender)
}

/// Ends the offers of a sender.
fn forget(offers: &mut OwnedTable<OfferKey, Standing>, sender: Ipv4Addr)
    ensures { map_of offer_cmp offers.new
        ≡ retain (map_of offer_cmp offers.old) (λ _ offer. not (is_of sender offer)) }
{
    offers.forget(sender);
}

/// The offer that expires first, if its deadline has come.
fn first_expired(offers: &OwnedTable<OfferKey, Standing>, now: Moment) -> Option<Expired>
    ensures { FallsDue now (map_of offer_cmp offers.now) result }
{
    let Some(due) = offers.first_due() else {
        return None;
    };
    if now.as_millis() < due.at {
        return None;
    }
    match offers.get(&due.key) {
        Some(offer) => Some(Expired {
            at: due.at,
            key: due.key,
            offer,
        }),
        None => None,
    }
}
