//! Laws of the definitions behind the contracts. Each is the contract of a function that does
//! nothing: it says what holds of a node by what it met, whatever code keeps its tables.
ghost use Rattle.std.specs.Prelude.{◌≡◌, ◌≢◌, ◌↔◌, ◌<◌, ◌*◌, ℕ, suc, IsTrue, IsFalse, List, length, [], ◌∷◌, ◌&&◌, not, None, Some, is_some};
ghost use Rattle.std.specs.List.{flat_map};
ghost use Rattle.std.specs.FinMap as finite;
ghost use Rattle.std.specs.declared.net.ipv4_addr.Ipv4Addr.{Ipv4Addr};
ghost use Rattle.std.specs.declared.net.socket_addr.SocketAddrV4.{SocketAddrV4};
ghost use Rattle.sd_core.specs.declared.eventgroup.Eventgroup.{Eventgroup};
ghost use Rattle.sd_core.specs.declared.keys.InstanceId.{InstanceId};
ghost use Rattle.sd_core.specs.declared.received.ReceivedOffer.{ReceivedOffer};
ghost use Rattle.sd_core.specs.declared.subscription.Subscription.{Subscription};
ghost use Rattle.sd_core.specs.Wishes.{wish_of};
ghost use Rattle.sd_session.specs.Sessions.{after_uses};
ghost use Rattle.someip_rpc.specs.declared.call.Call.{Call};
ghost use Rattle.someip_rpc.specs.declared.call.CallKind.TheVariants.{Request};
ghost use Rattle.someip_rpc.specs.declared.ids.CallKey.{CallKey};
ghost use Rattle.someip_rpc.specs.declared.ids.EventId.{EventId};
ghost use Rattle.someip_rpc.specs.declared.ids.MessageId.{MessageId};
ghost use Rattle.someip_rpc.specs.Sessions.{next_of, session_after};
ghost use Rattle.someip_tables.specs.declared.deadline.Deadline.TheVariants.{At};
ghost use Rattle.someip_tables.specs.Lastings.{unless_passed};
ghost use Rattle.someip_node_rules.specs.declared.config.Config.{Config};
ghost use Rattle.someip_node_rules.specs.histories.CallQuestions.{awaited_at, call_key, last_session_at, open_request_at, times_published};
ghost use Rattle.someip_node_rules.specs.histories.DiscoveryQuestions.{group_addressed, messages_to, stamps_at};
ghost use Rattle.someip_node_rules.specs.histories.History.{History, answers_of, historic, met, shown_work, start_of};
ghost use Rattle.someip_node_laws.specs.HistoryExamples.{ack_of, acked_after, begun_with, offering_endpoint, wished_eventgroup, offer_for, other_peer, offering_peer, subscribing_with, waiting_with};
ghost use Rattle.someip_node_rules.specs.histories.Items.{Item, AckCame, AnswerTaken, Called, NackCame, OfferCounted, OfferStopped, OfferWithdrawn, PeerRebooted, SubscriptionAccepted, SubscriptionStopped, Ticked, changed};
ghost use Rattle.someip_node_rules.specs.steps.Lives.{has_its_offer, is_offer_known, is_live, is_waiting, was_stopped};
ghost use Rattle.someip_node_rules.specs.rules.Plans.{Plan, Work, plain, run, rule, TakesAnswer};
ghost use Rattle.someip_node_rules.specs.histories.Questions.{clock_at};
ghost use Rattle.someip_node_rules.specs.histories.SeekQuestions.{known_offer_at};
ghost use Rattle.someip_node_rules.specs.forms.Setups.{offered_as};
ghost use Rattle.someip_node_rules.specs.histories.Starts.{started_tables};
ghost use Rattle.someip_node_rules.specs.histories.SubscriberQuestions.{subscribed_at};
ghost use Rattle.someip_node_rules.specs.histories.Tables.{is_up, stamp_for};
ghost use Rattle.someip_node_rules.specs.histories.WishQuestions.{course_at, is_wished_at, wish_at};
ghost use Rattle.someip_wire.specs.declared.header.Header.{Header};
ghost use Rattle.someip_wire.specs.declared.header.MessageType.TheVariants.{Response};
ghost use Rattle.someip_rpc.specs.declared.error.DropCause.TheVariants.{NotPending};
ghost use Rattle.someip_rpc.specs.Answers.{answered_call};
ghost use Rattle.someip_node_rules.specs.rules.Outcomes.{dropped};
ghost use Rattle.someip_node_rules.specs.declared.drops.DropReason.TheVariants as drop_reason;

/// The tables of a node are the answers to what it met: those of a start are the tables of a start,
/// and an item changes the answers as it changes tables.
pub fn tables_are_answers()
    ensures started { (config : Config) (delay : ℕ)
        → answers_of (start_of config delay) ≡ started_tables config delay }
    ensures met { (h : History) (item : Item)
        → answers_of (met h item) ≡ changed (answers_of h) item }
{}

/// What a plan does with the tables of a history is what it does with the history.
pub fn plans_ask_the_history()
    ensures { (plan : Plan) (w : Work History)
        → run plain plan (shown_work w) ≡ shown_work (run historic plan w) }
{}

/// What a table has of a key is what the history answers of that key alone.
pub fn tables_answer_of_each_key()
    ensures subscriptions { (h : History) (s : Subscription)
        → finite.get (answers_of h).subscribers s
        ≡ unless_passed (clock_at h.items) (subscribed_at h.items s) }
    ensures calls { (h : History) (key : CallKey)
        → finite.get (answers_of h).client.pending key
        ≡ unless_passed (clock_at h.items) (awaited_at h.config h.items key) }
    ensures requests { (h : History) (token : ℕ)
        → finite.get (answers_of h).server.requests token ≡ open_request_at h.items token }
    ensures known { (h : History) (instance : InstanceId)
        → finite.get (answers_of h).seek.known instance ≡ known_offer_at h.items instance }
    ensures peers { (h : History) (peer : Ipv4Addr)
        → finite.get (answers_of h).peers peer ≡ stamps_at h.items peer }
    ensures wishes { (h : History) (eventgroup : Eventgroup)
        → wish_of (finite.get (answers_of h).wishes eventgroup) ≡ wish_at h.items eventgroup }
{}

/// Sessions go on from what was given: the stamp of the next message of Service Discovery to the group
/// by how many it was sent, that of the next one to a peer by how many this was sent, the session of an
/// event by how often it was published, and that of a call by the last one of its Message ID.
pub fn sessions_go_on()
    ensures group { (h : History)
        → (answers_of h).multicast ≡ after_uses (length (flat_map group_addressed h.items)) }
    ensures stamps { (h : History) (peer : Ipv4Addr)
        → stamp_for (answers_of h).unicast peer ≡ after_uses (messages_to h.items peer) }
    ensures events { (h : History) (event : EventId)
        → next_of (answers_of h).server.sessions event
        ≡ session_after (suc (times_published h.items event)) 0 }
    ensures calls { (h : History) (message : MessageId)
        → finite.get (answers_of h).client.sessions message ≡ last_session_at h.items message }
{}

/// A subscription that was accepted lives for its TTL in seconds, up to but not at its end; with
/// FFFFFF it lives on (SOME/IP Service Discovery Protocol, "TTL").
pub fn subscriptions_live_for_their_ttl()
    ensures timed { (items : List Item) (s : Subscription) (ttl ms : ℕ) → ttl ≢ 0xFFFFFF
        → IsTrue (is_live (Ticked ms ∷ SubscriptionAccepted s ttl ∷ items) s) ↔ (ms < 1000 * ttl) }
    ensures forever { (items : List Item) (s : Subscription) (ms : ℕ)
        → IsTrue (is_live (Ticked ms ∷ SubscriptionAccepted s 0xFFFFFF ∷ items) s) }
    ensures before_the_end { (s : Subscription)
        → IsTrue (is_live (Ticked 2999 ∷ SubscriptionAccepted s 3 ∷ []) s) }
    ensures at_the_end { (s : Subscription)
        → IsFalse (is_live (Ticked 3000 ∷ SubscriptionAccepted s 3 ∷ []) s) }
{}

/// A subscription ends at once with its StopSubscribe, a stop of its instance's offer and a reboot of
/// its peer, and what is said of another one leaves it.
pub fn subscriptions_end_early()
    ensures stopped { (items : List Item) (s : Subscription)
        → IsFalse (is_live (SubscriptionStopped s ∷ items) s) }
    ensures unoffered { (items : List Item) (s : Subscription)
        → IsFalse (is_live (OfferStopped s.instance ∷ items) s) }
    ensures rebooted { (items : List Item) (s : Subscription)
        → IsFalse (is_live (PeerRebooted s.peer ∷ items) s) }
    ensures other_stopped { (items : List Item) (s other : Subscription) → s ≢ other
        → is_live (SubscriptionStopped other ∷ items) s ≡ is_live items s }
    ensures other_accepted { (items : List Item) (s other : Subscription) (ttl : ℕ) → s ≢ other
        → is_live (SubscriptionAccepted other ttl ∷ items) s ≡ is_live items s }
    ensures other_rebooted { (items : List Item) (s : Subscription) (peer : Ipv4Addr)
        → s.peer ≢ peer → is_live (PeerRebooted peer ∷ items) s ≡ is_live items s }
{}

/// A call with a return waits for its answer as long as a call may wait, up to but not at the end of
/// that time, and no longer once its answer was taken.
pub fn calls_wait_for_their_time()
    ensures timed { (config : Config) (items : List Item) (call : Call) (peer : SocketAddrV4)
        (session ms : ℕ) → call.kind ≡ Request
        → IsTrue (is_waiting config (Ticked ms ∷ Called call peer session ∷ items) (call_key call session))
        ↔ (ms < config.common.call_timeout_ms) }
    ensures answered { (config : Config) (items : List Item) (key : CallKey)
        → IsFalse (is_waiting config (AnswerTaken key ∷ items) key) }
{}

/// An offer that counted is known for its TTL in seconds, up to but not at its end, and no longer once
/// a StopOffer came (SOME/IP Service Discovery Protocol, "TTL", "Stop Offer Service entry").
pub fn offers_are_known_for_their_ttl()
    ensures timed { (items : List Item) (offer : ReceivedOffer) (endpoint : SocketAddrV4) (ms : ℕ)
        → offer.ttl ≢ 0xFFFFFF
        → IsTrue (is_offer_known (Ticked ms ∷ OfferCounted offer endpoint ∷ items) offer.instance)
        ↔ (ms < 1000 * offer.ttl) }
    ensures withdrawn { (items : List Item) (instance : InstanceId)
        → IsFalse (is_offer_known (OfferWithdrawn instance ∷ items) instance) }
{}

/// Examples: a client wishes an eventgroup, and its instance is offered; the Subscribe has the counter
/// 0, and is acknowledged for 3 seconds. The subscription ends with these, or with an offer of 2 seconds,
/// or as the server begins again. The next one has the counter 1.
pub fn wishes_by_example()
    ensures begins { wish_at (subscribing_with 10) wished_eventgroup ≡ begun_with 0 None }
    ensures before_the_end { wish_at (acked_after 10 2999) wished_eventgroup ≡ begun_with 0 (Some (At 3000)) }
    ensures at_the_end { wish_at (acked_after 10 3000) wished_eventgroup ≡ waiting_with 1 }
    ensures with_the_offer { wish_at (acked_after 2 2000) wished_eventgroup ≡ waiting_with 1 }
    ensures renewed { wish_at (OfferCounted (offer_for 10) offering_endpoint ∷ acked_after 10 2999)
        wished_eventgroup ≡ begun_with 0 (Some (At 3000)) }
    ensures begins_again { wish_at (OfferCounted (offer_for 10) offering_endpoint ∷ acked_after 10 3000)
        wished_eventgroup ≡ begun_with 1 None }
    ensures other_counter { wish_at (AckCame (ack_of 1) 3 ∷ subscribing_with 10) wished_eventgroup
        ≡ begun_with 0 None }
    ensures server_rebooted { wish_at (PeerRebooted offering_peer ∷ acked_after 10 2999) wished_eventgroup
        ≡ waiting_with 1 }
    ensures other_rebooted { wish_at (PeerRebooted other_peer ∷ acked_after 10 2999) wished_eventgroup
        ≡ begun_with 0 (Some (At 3000)) }
    ensures refused { wish_at (NackCame (ack_of 0) ∷ subscribing_with 10) wished_eventgroup ≡ waiting_with 1 }
{}

/// An instance is up if the node is set up to offer it and its offer was not stopped.
pub fn instances_are_up_until_stopped()
    ensures { (h : History) (instance : InstanceId)
        → is_up (answers_of h) instance
        ≡ (is_some (offered_as h.config instance) && not (was_stopped h.items instance)) }
{}

/// A subscription that a client began stands only while the eventgroup is wished, and while the offer
/// that its server made of the instance is known.
pub fn subscriptions_stand_with_their_offer()
    ensures offer { (items : List Item) (eventgroup : Eventgroup)
        → IsTrue (has_its_offer (course_at items eventgroup).beginning
        (known_offer_at items eventgroup.instance)) }
    ensures wished { (items : List Item) (eventgroup : Eventgroup)
        → IsFalse (is_wished_at items eventgroup) → (course_at items eventgroup).beginning ≡ None }
{}

/// The answer to a call that waits no longer is dropped as one that no call waits for.
pub fn late_answers_are_dropped()
    ensures { (h : History) (from : SocketAddrV4) (header : Header) (payload : List ℕ)
        → header.kind ≡ Response → IsFalse (is_waiting h.config h.items (answered_call header))
        → rule (TakesAnswer from header payload) (answers_of h)
        ≡ dropped (drop_reason.Answer NotPending) }
{}
