//! Laws of the definitions behind the contracts. Each is the contract of a function that does nothing:
//! it says what a recording shows of offers, whatever code keeps the book.
ghost use Rattle.std.specs.Prelude.{◌≡◌, ◌↔◌, ◌≤◌, ◌==◌, ℕ, Option, List, [], ◌∷◌, true, false, Some, None};
ghost use Rattle.std.specs.FinMap as finite;
ghost use Rattle.std.specs.declared.net.socket_addr.SocketAddrV4.{SocketAddrV4};
ghost use Rattle.someip_tables.specs.declared.deadline.Deadline.TheVariants.{At};
ghost use Rattle.someip_tables.specs.hashed.Rooms.{may_hold};
ghost use Rattle.audit_sd.specs.declared.offers.entry.OfferEntry.{OfferEntry};
ghost use Rattle.audit_sd.specs.declared.offers.entry.Standing.{Standing};
ghost use Rattle.audit_sd.specs.declared.offers.finding.Expired.{Expired};
ghost use Rattle.audit_sd.specs.declared.offers.finding.Finding.TheVariants.{Full, Moved};
ghost use Rattle.audit_sd.specs.declared.offers.key.OfferKey.{OfferKey};
ghost use Rattle.audit_sd.specs.offers.OfferRules.{has_expired, is_of, sender_of};
ghost use Rattle.audit_sd.specs.offers.OfferTables.{FallsDue, OfferTable, Offers, after_due, after_entry};
ghost use Rattle.audit_sd.specs.offers.OfferTables.{ended_by, told_by};
ghost use Rattle.audit_sd.specs.offers.OfferHistories.{Event, book_of, expiring_in, shown_by, standing_in};
ghost use Rattle.audit_sd.specs.offers.OfferHistories.{without_expired};
ghost use Rattle.audit_sd.specs.offers.OfferReasons.{IsStanding, Moves};
ghost use Rattle.audit_sd.specs.offers.OfferExamples.{begins_again, comes, endpoint, from_node, offer, offer_at};
ghost use Rattle.audit_sd.specs.offers.OfferExamples.{offer_nowhere, service, standing_at, stop};

/// Until when an offer stands, by example. Datagram 1 of node 1 offers the service at moment 100 for 3
/// seconds. The newest event is first.
pub fn offers_stand_until_their_ttl_has_passed()
    ensures stands { standing_in (comes 100 (offer 1 1 40000 3) ∷ []) (service 4096)
        ≡ Some (standing_at (endpoint 1 40000) (from_node 1 1) 3100) }
    ensures other_service { standing_in (comes 100 (offer 1 1 40000 3) ∷ []) (service 4097) ≡ None }
    ensures before { expiring_in (comes 100 (offer 1 1 40000 3) ∷ []) 3099 (service 4096) ≡ None }
    ensures at { expiring_in (comes 100 (offer 1 1 40000 3) ∷ []) 3100 (service 4096)
        ≡ Some (standing_at (endpoint 1 40000) (from_node 1 1) 3100) }
    // A renewal counts from its own moment, and its datagram is then named.
    ensures renewed_before { expiring_in
        (comes 2000 (offer 5 1 40000 3) ∷ comes 100 (offer 1 1 40000 3) ∷ []) 4999 (service 4096) ≡ None }
    ensures renewed_at { expiring_in
        (comes 2000 (offer 5 1 40000 3) ∷ comes 100 (offer 1 1 40000 3) ∷ []) 5000 (service 4096)
        ≡ Some (standing_at (endpoint 1 40000) (from_node 5 1) 5000) }
    // FFFFFF seconds never pass, one less do.
    ensures forever { expiring_in (comes 100 (offer 1 1 40000 0xFFFFFF) ∷ []) 99999999999 (service 4096)
        ≡ None }
    ensures longest { expiring_in (comes 0 (offer 1 1 40000 0xFFFFFE) ∷ []) 16777214000 (service 4096)
        ≡ Some (standing_at (endpoint 1 40000) (from_node 1 1) 16777214000) }
    // What expired is gone at the next event, and is told once.
    ensures gone { expiring_in (comes 4000 (offer 2 2 40000 0) ∷ comes 100 (offer 1 1 40000 3) ∷ [])
        5000 (service 4096) ≡ None }
{}

/// What ends an offer without a finding, by example: a StopOffer of its sender, from whatever port, and
/// its reboot; of another node neither.
pub fn stops_and_reboots_end_offers()
    ensures stopped { standing_in (comes 200 (stop 2 1) ∷ comes 100 (offer 1 1 40000 3) ∷ [])
        (service 4096) ≡ None }
    ensures not_by_another { expiring_in (comes 200 (stop 2 2) ∷ comes 100 (offer 1 1 40000 3) ∷ [])
        3100 (service 4096) ≡ Some (standing_at (endpoint 1 40000) (from_node 1 1) 3100) }
    ensures rebooted { standing_in (begins_again 200 1 ∷ comes 100 (offer 1 1 40000 3) ∷ [])
        (service 4096) ≡ None }
    ensures not_another { expiring_in (begins_again 200 2 ∷ comes 100 (offer 1 1 40000 3) ∷ [])
        3100 (service 4096) ≡ Some (standing_at (endpoint 1 40000) (from_node 1 1) 3100) }
{}

/// Which Offers show that an offer moved, by example: those of another node or with another endpoint
/// while it stands.
pub fn offers_move()
    ensures first { shown_by [] 100 (offer 1 1 40000 3) ≡ None }
    ensures renewed { shown_by (comes 100 (offer 1 1 40000 3) ∷ []) 200 (offer 2 1 40000 3) ≡ None }
    ensures other_port { shown_by (comes 100 (offer 1 1 40000 3) ∷ []) 200 (offer 2 1 40001 3)
        ≡ Some Moved }
    ensures other_node { shown_by (comes 100 (offer 1 1 40000 3) ∷ []) 200
        (offer_at 2 2 (endpoint 1 40000) 3) ≡ Some Moved }
    // It stands until the moment before its TTL has passed.
    ensures still_stands { shown_by (comes 100 (offer 1 1 40000 3) ∷ []) 3099 (offer 2 2 40000 3)
        ≡ Some Moved }
    ensures expired { shown_by (comes 100 (offer 1 1 40000 3) ∷ []) 3100 (offer 2 2 40000 3) ≡ None }
    ensures stopped { shown_by (comes 150 (stop 2 1) ∷ comes 100 (offer 1 1 40000 3) ∷ []) 200
        (offer 3 2 40000 3) ≡ None }
    // The new one stands: where the old one comes back, it moved again.
    ensures back { shown_by (comes 200 (offer 2 2 40000 3) ∷ comes 100 (offer 1 1 40000 3) ∷ []) 300
        (offer 3 1 40000 3) ≡ Some Moved }
    ensures goes_on { shown_by (comes 200 (offer 2 2 40000 3) ∷ comes 100 (offer 1 1 40000 3) ∷ []) 300
        (offer 3 2 40000 3) ≡ None }
    // A StopOffer shows nothing, nor does an Offer without an endpoint, which renews nothing either.
    ensures stop { shown_by (comes 100 (offer 1 1 40000 3) ∷ []) 200 (stop 2 2) ≡ None }
    ensures nowhere { shown_by (comes 100 (offer 1 1 40000 3) ∷ []) 200 (offer_nowhere 2 2 3) ≡ None }
    ensures not_renewed { expiring_in
        (comes 200 (offer_nowhere 2 1 3) ∷ comes 100 (offer 1 1 40000 3) ∷ []) 3100 (service 4096)
        ≡ Some (standing_at (endpoint 1 40000) (from_node 1 1) 3100) }
{}

/// A book that was never full, and was asked before each event for all that fell due, holds exactly the
/// offers that stand by the events so far, and tells of each entry what these show.
pub fn a_book_tells_what_the_events_show()
    ensures stands { (limit : ℕ) (events : List Event) (key : OfferKey)
        → (book_of limit events).told_full ≡ false
        → finite.get (book_of limit events).standing key ≡ standing_in events key }
    ensures told { (limit : ℕ) (events : List Event) (now : ℕ) (entry : OfferEntry)
        → (book_of limit (comes now entry ∷ events)).told_full ≡ false
        → told_by entry (without_expired now (book_of limit events)) ≡ shown_by events now entry }
{}

/// What falls due is told until nothing is left that has expired, each offer at its own deadline; what
/// has not expired is kept.
pub fn what_falls_due_is_told()
    ensures own { (now : ℕ) (offers : Offers) (told : Expired) → FallsDue now offers (Some told)
        → told.offer.until ≡ At told.at }
    ensures first { (now : ℕ) (offers : Offers) (told : Expired) (key : OfferKey) (offer : Standing)
        (at : ℕ) → FallsDue now offers (Some told) → finite.get offers key ≡ Some offer
        → offer.until ≡ At at → told.at ≤ at }
    ensures kept { (now : ℕ) (book : OfferTable) (told : Option Expired)
        → FallsDue now book.standing told
        → without_expired now (after_due told book) ≡ without_expired now book }
    ensures all { (now : ℕ) (book : OfferTable) → FallsDue now book.standing None
        → without_expired now book ≡ book }
{}

/// That a book is full is told once in its life.
pub fn full_is_told_once()
    ensures notes { (now : ℕ) (entry : OfferEntry) (book : OfferTable) → told_by entry book ≡ Some Full
        → (book.told_full ≡ false) × ((after_entry now entry book).told_full ≡ true) }
    ensures stays { (now : ℕ) (entry : OfferEntry) (book : OfferTable) → book.told_full ≡ true
        → (after_entry now entry book).told_full ≡ true }
    ensures tells { (entry : OfferEntry) (endpoint : SocketAddrV4) (book : OfferTable)
        → (entry.ttl == 0) ≡ false → entry.endpoint ≡ Some endpoint
        → may_hold book.limit book.standing entry.key ≡ false → book.told_full ≡ false
        → told_by entry book ≡ Some Full }
{}

/// An offer that expires and an Offer that moves one are told exactly where their reasons in plain words
/// hold: an offer stands exactly where its Offer is among the events and since then nothing ended it. A
/// StopOffer ends exactly the offer of its own sender that stands under its key.
pub fn each_finding_has_its_reason()
    ensures stands { (key : OfferKey) (offer : Standing) (events : List Event)
        → (standing_in events key ≡ Some offer) ↔ IsStanding key offer events }
    ensures expired { (now : ℕ) (key : OfferKey) (offer : Standing) (events : List Event)
        → (expiring_in events now key ≡ Some offer)
        ↔ (IsStanding key offer events × (has_expired now offer ≡ true)) }
    ensures moved { (now : ℕ) (entry : OfferEntry) (events : List Event)
        → (shown_by events now entry ≡ Some Moved) ↔ Moves now entry events }
    ensures ended { (limit now : ℕ) (entry : OfferEntry) (offer : Standing) (events : List Event)
        → (book_of limit events).told_full ≡ false
        → (ended_by entry (without_expired now (book_of limit events)) ≡ Some offer)
        ↔ (IsStanding entry.key offer events × (has_expired now offer ≡ false)
        × (is_of (sender_of entry) offer ≡ true)) }
{}
