//! Laws of the definitions behind the contracts. Each is the contract of a function that does nothing:
//! it says what a recording shows of subscriptions, whatever code keeps the book.
ghost use Rattle.std.specs.Prelude.{◌≡◌, ◌↔◌, ◌≤◌, ◌==◌, ℕ, nat_lt, List, [], ◌∷◌, true, false, Some, None};
ghost use Rattle.std.specs.FinMap as finite;
ghost use Rattle.std.specs.declared.net.socket_addr.SocketAddrV4.{SocketAddrV4};
ghost use Rattle.someip_tables.specs.declared.lasting.Lasting.{Lasting};
ghost use Rattle.someip_tables.specs.hashed.Rooms.{may_hold};
ghost use Rattle.audit_sd.specs.declared.subscriptions.entry.EntryKind.TheVariants.{Subscribe};
ghost use Rattle.audit_sd.specs.declared.subscriptions.key.SubscriptionKey.{SubscriptionKey};
ghost use Rattle.audit_sd.specs.declared.receivers.delivery.Delivery.{Delivery};
ghost use Rattle.audit_sd.specs.declared.receivers.entry.ReceiverEntry.{ReceiverEntry};
ghost use Rattle.audit_sd.specs.declared.receivers.finding.Finding.TheVariants.{Full, Unsubscribed};
ghost use Rattle.audit_sd.specs.receivers.ReceiverPlaces.{endpoint_in};
ghost use Rattle.audit_sd.specs.receivers.ReceiverRules.{goes_by};
ghost use Rattle.audit_sd.specs.receivers.ReceiverTables.{Receivers, Subscriptions, after_entry, after_event};
ghost use Rattle.audit_sd.specs.receivers.ReceiverTables.{begins_or_ends, ends, is_passed_over, is_subscribed, told_by};
ghost use Rattle.audit_sd.specs.receivers.ReceiverTables.{told_of_event, without_expired};
ghost use Rattle.audit_sd.specs.receivers.ReceiverHistories.{Event, Shown, book_after, book_of, shown_by};
ghost use Rattle.audit_sd.specs.receivers.ReceiverHistories.{standing_in};
ghost use Rattle.audit_sd.specs.receivers.ReceiverExamples.{answer, begins_again, comes, delivery, endpoint};
ghost use Rattle.audit_sd.specs.receivers.ReceiverExamples.{goes, stands, subscribe, subscription, withdraws};

/// Which subscriptions stand, by example. Node 1 subscribes at moment 100 for 3 seconds. The newest event
/// is first; a StopSubscribe that comes from node 2 shows the moment at its time.
pub fn subscriptions_stand()
    ensures subscribed { standing_in (comes 100 (subscribe 1 40000 3) ∷ []) (subscription 1)
        ≡ Some (stands 1 40000 3100) }
    ensures other_client { standing_in (comes 100 (subscribe 1 40000 3) ∷ []) (subscription 2) ≡ None }
    ensures before { standing_in (comes 3099 (subscribe 2 40000 0) ∷ comes 100 (subscribe 1 40000 3) ∷ [])
        (subscription 1) ≡ Some (stands 1 40000 3100) }
    ensures expired { standing_in (comes 3100 (subscribe 2 40000 0) ∷ comes 100 (subscribe 1 40000 3) ∷ [])
        (subscription 1) ≡ None }
    // The TTL counts from the Ack, once it came.
    ensures acked { standing_in (comes 150 (answer 1 5) ∷ comes 100 (subscribe 1 40000 3) ∷ [])
        (subscription 1) ≡ Some (stands 1 40000 5150) }
    ensures acked_without { standing_in (comes 150 (answer 1 5) ∷ []) (subscription 1) ≡ None }
    ensures nacked { standing_in (comes 150 (answer 1 0) ∷ comes 100 (subscribe 1 40000 3) ∷ [])
        (subscription 1) ≡ None }
    ensures stopped { standing_in (comes 150 (subscribe 1 40000 0) ∷ comes 100 (subscribe 1 40000 3) ∷ [])
        (subscription 1) ≡ None }
    ensures not_stopped { standing_in
        (comes 150 (subscribe 2 40000 0) ∷ comes 100 (subscribe 1 40000 3) ∷ []) (subscription 1)
        ≡ Some (stands 1 40000 3100) }
    ensures moved { standing_in (comes 150 (subscribe 1 40001 3) ∷ comes 100 (subscribe 1 40000 3) ∷ [])
        (subscription 1) ≡ Some (stands 1 40001 3150) }
    // A StopOffer of its instance ends it, and a reboot of either side.
    ensures withdrawn { standing_in (withdraws 150 1 ∷ comes 100 (subscribe 1 40000 3) ∷ [])
        (subscription 1) ≡ None }
    ensures other_instance { standing_in (withdraws 150 2 ∷ comes 100 (subscribe 1 40000 3) ∷ [])
        (subscription 1) ≡ Some (stands 1 40000 3100) }
    ensures client { standing_in (begins_again 150 1 ∷ comes 100 (subscribe 1 40000 3) ∷ [])
        (subscription 1) ≡ None }
    ensures server { standing_in (begins_again 150 9 ∷ comes 100 (subscribe 1 40000 3) ∷ [])
        (subscription 1) ≡ None }
    ensures another { standing_in (begins_again 150 2 ∷ comes 100 (subscribe 1 40000 3) ∷ [])
        (subscription 1) ≡ Some (stands 1 40000 3100) }
{}

/// By which subscriptions an event may go, by example: server, service and endpoint are equal.
pub fn events_go_by_subscriptions()
    ensures goes { goes_by (delivery 9 4096 1 40000) (subscription 1) (endpoint 1 40000) ≡ true }
    ensures other_port { goes_by (delivery 9 4096 1 40001) (subscription 1) (endpoint 1 40000) ≡ false }
    ensures other_node { goes_by (delivery 9 4096 2 40000) (subscription 1) (endpoint 1 40000) ≡ false }
    ensures other_service { goes_by (delivery 9 4097 1 40000) (subscription 1) (endpoint 1 40000)
        ≡ false }
    ensures other_server { goes_by (delivery 8 4096 1 40000) (subscription 1) (endpoint 1 40000) ≡ false }
    ensures another_client { goes_by (delivery 9 4096 1 40000) (subscription 2) (endpoint 1 40000)
        ≡ true }
{}

/// Which events are told, by example: those to an endpoint that is not subscribed, once until a Subscribe
/// comes for it. The book is settled at moment 50, and node 1 subscribes at moment 100 for 3 seconds.
pub fn events_are_told()
    ensures never { shown_by 50 [] 60 (delivery 9 4096 1 40000) ≡ Some Unsubscribed }
    ensures not_settled { shown_by 50 [] 49 (delivery 9 4096 1 40000) ≡ None }
    ensures settled { shown_by 50 [] 50 (delivery 9 4096 1 40000) ≡ Some Unsubscribed }
    ensures once { shown_by 50 (goes 60 (delivery 9 4096 1 40000) ∷ []) 70 (delivery 9 4096 1 40000)
        ≡ None }
    ensures other_port { shown_by 50 (goes 60 (delivery 9 4096 1 40000) ∷ []) 70
        (delivery 9 4096 1 40001) ≡ Some Unsubscribed }
    ensures before { shown_by 50 (goes 40 (delivery 9 4096 1 40000) ∷ []) 70 (delivery 9 4096 1 40000)
        ≡ Some Unsubscribed }
    ensures subscribed { shown_by 50 (comes 100 (subscribe 1 40000 3) ∷ []) 3099
        (delivery 9 4096 1 40000) ≡ None }
    ensures expired { shown_by 50 (comes 100 (subscribe 1 40000 3) ∷ []) 3100
        (delivery 9 4096 1 40000) ≡ Some Unsubscribed }
    ensures of_another { shown_by 50 (comes 100 (subscribe 1 40000 3) ∷ []) 200
        (delivery 8 4096 1 40000) ≡ Some Unsubscribed }
    ensures nacked { shown_by 50 (comes 110 (answer 1 0) ∷ comes 100 (subscribe 1 40000 3) ∷ []) 200
        (delivery 9 4096 1 40000) ≡ Some Unsubscribed }
    // A Subscribe that came and expired in between: it is told again.
    ensures again { shown_by 50
        (comes 100 (subscribe 1 40000 3) ∷ goes 60 (delivery 9 4096 1 40000) ∷ []) 3100
        (delivery 9 4096 1 40000) ≡ Some Unsubscribed }
    ensures for_another { shown_by 50
        (comes 100 (subscribe 2 40000 3) ∷ goes 60 (delivery 9 4096 1 40000) ∷ []) 3100
        (delivery 9 4096 1 40000) ≡ None }
{}

/// Which entries end a subscription that stands, by example: node 1 subscribed with its port 40000. A StopSubscribe, a
/// Nack and a Subscribe with another endpoint do; a renewal, an Ack, a Subscribe of another client and one without an
/// endpoint do not. Where nothing stands a Subscribe ends nothing.
pub fn subscriptions_end()
    ensures stopped { (book : Receivers) → ends (subscribe 1 40000 0) book ≡ true }
    ensures nacked { (book : Receivers) → ends (answer 1 0) book ≡ true }
    ensures moved { (book : Receivers) → finite.get book.standing (subscription 1) ≡ Some (stands 1 40000 3100)
        → ends (subscribe 1 40001 3) book ≡ true }
    ensures to_another_node { (book : Receivers) → finite.get book.standing (subscription 1) ≡ Some (stands 2 40000 3100)
        → ends (subscribe 1 40000 3) book ≡ true }
    ensures renewed { (book : Receivers) → finite.get book.standing (subscription 1) ≡ Some (stands 1 40000 3100)
        → ends (subscribe 1 40000 5) book ≡ false }
    ensures acked { (book : Receivers) → finite.get book.standing (subscription 1) ≡ Some (stands 1 40000 3100)
        → ends (answer 1 5) book ≡ false }
    ensures another_client { (book : Receivers) → finite.get book.standing (subscription 2) ≡ None
        → ends (subscribe 2 40001 3) book ≡ false }
    ensures without_endpoint { (book : Receivers) → ends (record (subscribe 1 40000 3) { endpoint = None }) book ≡ false }
{}

/// Which entries begin a subscription or end one, by example: node 1 subscribed with its port 40000, node 2 did not. A
/// renewal, its Ack, and a StopSubscribe of what does not stand do neither.
pub fn subscriptions_begin_and_end()
    ensures first { (standing : Subscriptions) → finite.get standing (subscription 2) ≡ None
        → begins_or_ends (subscribe 2 40000 3) standing ≡ true }
    ensures moved { (standing : Subscriptions) → finite.get standing (subscription 1) ≡ Some (stands 1 40000 3100)
        → begins_or_ends (subscribe 1 40001 3) standing ≡ true }
    ensures stopped { (standing : Subscriptions) → finite.get standing (subscription 1) ≡ Some (stands 1 40000 3100)
        → begins_or_ends (subscribe 1 40000 0) standing ≡ true }
    ensures nacked { (standing : Subscriptions) → finite.get standing (subscription 1) ≡ Some (stands 1 40000 3100)
        → begins_or_ends (answer 1 0) standing ≡ true }
    ensures acked_unseen { (standing : Subscriptions) → finite.get standing (subscription 2) ≡ None
        → begins_or_ends (answer 2 3) standing ≡ true }
    ensures renewed { (standing : Subscriptions) → finite.get standing (subscription 1) ≡ Some (stands 1 40000 3100)
        → begins_or_ends (subscribe 1 40000 5) standing ≡ false }
    ensures acked { (standing : Subscriptions) → finite.get standing (subscription 1) ≡ Some (stands 1 40000 3100)
        → begins_or_ends (answer 1 5) standing ≡ false }
    ensures stopped_unseen { (standing : Subscriptions) → finite.get standing (subscription 2) ≡ None
        → begins_or_ends (subscribe 2 40000 0) standing ≡ false }
    ensures nacked_unseen { (standing : Subscriptions) → finite.get standing (subscription 2) ≡ None
        → begins_or_ends (answer 2 0) standing ≡ false }
    ensures without_endpoint { (standing : Subscriptions)
        → begins_or_ends (record (subscribe 2 40000 3) { endpoint = None }) standing ≡ false }
{}

/// Where an entry neither begins nor ends a subscription, each stands as before: the same ones, with the same endpoints.
pub fn what_begins_and_ends_none_leaves_all()
    ensures { (now : ℕ) (entry : ReceiverEntry) (book : Receivers) (key : SubscriptionKey)
        → begins_or_ends entry book.standing ≡ false
        → endpoint_in (finite.get (after_entry now entry book).standing key) ≡ endpoint_in (finite.get book.standing key) }
{}

/// A book that was never full, and dropped before each event what had expired, holds exactly the
/// subscriptions that stand by the events so far, and tells of each event to one endpoint what these
/// show.
pub fn a_book_tells_what_the_events_show()
    ensures stands { (limit settled : ℕ) (events : List Event) (key : SubscriptionKey)
        → (book_of limit settled events).told_full ≡ false
        → finite.get (book_of limit settled events).standing key ≡ standing_in events key }
    ensures told { (limit settled : ℕ) (events : List Event) (now : ℕ) (delivery : Delivery)
        → (book_of limit settled (goes now delivery ∷ events)).told_full ≡ false
        → told_of_event now delivery (without_expired now (book_of limit settled events))
        ≡ shown_by settled events now delivery }
{}

/// An endpoint is subscribed exactly where a subscription stands with its endpoint, to that service at
/// that server.
pub fn a_subscription_makes_subscribed()
    ensures { (delivery : Delivery) (standing : Subscriptions)
        → (is_subscribed delivery standing ≡ true) ↔ ((key : SubscriptionKey)
        × (lasting : Lasting SocketAddrV4) × (finite.get standing key ≡ Some lasting)
        × (goes_by delivery key lasting.value ≡ true)) }
{}

/// That a book is full is told once in its life, of a Subscribe or of an event.
pub fn full_is_told_once()
    ensures notes { (now : ℕ) (entry : ReceiverEntry) (book : Receivers) → told_by entry book ≡ Some Full
        → (book.told_full ≡ false) × ((after_entry now entry book).told_full ≡ true) }
    ensures notes_event { (now : ℕ) (delivery : Delivery) (book : Receivers)
        → told_of_event now delivery book ≡ Some Full
        → (book.told_full ≡ false) × ((after_event now delivery book).told_full ≡ true) }
    ensures stays { (now : ℕ) (shown : Shown) (book : Receivers) → book.told_full ≡ true
        → (book_after now shown book).told_full ≡ true }
    ensures tells { (entry : ReceiverEntry) (endpoint : SocketAddrV4) (book : Receivers)
        → entry.kind ≡ Subscribe → (entry.ttl == 0) ≡ false → entry.endpoint ≡ Some endpoint
        → may_hold book.limit book.standing entry.key ≡ false → book.told_full ≡ false
        → told_by entry book ≡ Some Full }
    ensures tells_event { (now : ℕ) (delivery : Delivery) (book : Receivers)
        → is_passed_over now delivery book ≡ false → nat_lt (finite.len book.told) book.limit ≡ false
        → told_of_event now delivery book ≡ Some Full }
{}

/// A book holds no more subscriptions than its limit, and knows of no more events that were told.
pub fn a_book_keeps_its_limits()
    ensures standing { (limit settled : ℕ) (events : List Event)
        → finite.len (book_of limit settled events).standing ≤ limit }
    ensures told { (limit settled : ℕ) (events : List Event)
        → finite.len (book_of limit settled events).told ≤ limit }
{}
