//! Laws of events that come in cycles, over all books and a whole recording. Each is the contract of a function
//! that does nothing.
ghost use Rattle.std.specs.Prelude.{◌≡◌, ◌≤◌, ℕ, List, [], Some, None, Bool, true, false, if◌then◌else◌};
ghost use Rattle.std.specs.List.{All, list_any};
ghost use Rattle.std.specs.FinMap as finite;
ghost use Rattle.someip_wire.specs.declared.header.Header.{Header};
ghost use Rattle.someip_wire.specs.declared.header.MessageType.TheVariants as kinds;
ghost use Rattle.someip_tables.specs.declared.hashed.origin.Origin.{Origin};
ghost use Rattle.audit_rules.specs.declared.Rule.{Rule};
ghost use Rattle.audit_sd.specs.declared.subscriptions.key.SubscriptionKey.{SubscriptionKey};
ghost use Rattle.audit_sd.specs.offers.OfferExamples.{from_node};
ghost use Rattle.audit_sd.specs.receivers.ReceiverTables.{Subscriptions, is_subscribed};
ghost use Rattle.audit_traffic.specs.calls.Scenes.{header_with};
ghost use Rattle.audit_traffic.specs.declared.events.flow.EventFlow.{EventFlow};
ghost use Rattle.audit_traffic.specs.cycles.CycleHistories.{Step, after_steps, book_of};
ghost use Rattle.audit_traffic.specs.cycles.CycleRules.{goes_by};
ghost use Rattle.audit_traffic.specs.cycles.CycleTables.{Cycles, after_event};
ghost use Rattle.audit_traffic.specs.declared.cycles.finding.SilentEvent.{SilentEvent};
ghost use Rattle.someip_audit.specs.declared.fell_due.FellDue.{FellDue};
ghost use Rattle.someip_audit.specs.declared.fell_due.FellDue.TheVariants.{Silent};
ghost use Rattle.someip_audit.specs.declared.rules.AuditRules.{AuditRules};
ghost use Rattle.someip_audit.specs.AnswerTimes.{cycle_ms_of};
ghost use Rattle.someip_audit.specs.Audits.{AuditState, Drains, Seen, after_seen, audit_begun, each_unwatched};
ghost use Rattle.someip_audit.specs.CycleSteps.{HasReason, Runs, asked_steps, last_before_expiry, seen_steps};
ghost use Rattle.someip_audit.specs.FellDues.{IsDue, NonePassed};
ghost use Rattle.someip_audit.specs.MessageShown.{cycle_shown, delivery, event_flow, is_event};
ghost use Rattle.someip_audit.specs.SdShown.{Work};

/// Which messages begin a watch, whatever the books hold: an event to one endpoint that is subscribed, where the
/// rules have a cycle for it. What goes to a group, an answer, and an event without a subscription or a cycle
/// change nothing.
pub fn subscribed_events_are_watched()
    ensures watched { (now cycle_ms : ℕ) (origin : Origin) (header : Header) (work : Work)
        → is_event origin header ≡ true → is_subscribed (delivery origin header) work.held.receivers.standing ≡ true
        → cycle_ms_of work.held.times header.service header.method ≡ Some cycle_ms
        → (cycle_shown now origin header work).held.cycles
        ≡ after_event now (event_flow origin header) cycle_ms origin.numbers work.held.cycles }
    ensures to_group { (now : ℕ) (work : Work) → cycle_shown now (from_node 1 1) (header_with 5 kinds.Notification) work
        ≡ work }
    ensures response { (now : ℕ) (origin : Origin) (work : Work)
        → cycle_shown now origin (header_with 5 kinds.Response) work ≡ work }
    ensures unsubscribed { (now : ℕ) (origin : Origin) (header : Header) (work : Work)
        → is_event origin header ≡ true → is_subscribed (delivery origin header) work.held.receivers.standing ≡ false
        → cycle_shown now origin header work ≡ work }
    ensures without_cycle { (now : ℕ) (origin : Origin) (header : Header) (work : Work)
        → is_event origin header ≡ true → is_subscribed (delivery origin header) work.held.receivers.standing ≡ true
        → cycle_ms_of work.held.times header.service header.method ≡ None
        → cycle_shown now origin header work ≡ work }
{}

/// What subscriptions that expired leave of the watched events: those that go by one of them are watched no more,
/// and the others are as they were.
pub fn what_expires_ends_watches()
    ensures { (keys : List SubscriptionKey) (book : Cycles) (flow : EventFlow)
        → finite.get (each_unwatched keys book).watched flow
        ≡ (if list_any (λ (key : SubscriptionKey). goes_by key.server key.service key.client flow) keys
        then None else finite.get book.watched flow) }
{}

/// Until when an audit is asked for silent events by a moment: the last one up to it at which no subscription had
/// passed, if there is one.
pub fn silence_is_told_until_a_subscription_expires()
    ensures last { (now at : ℕ) (standing : Subscriptions) → last_before_expiry now standing ≡ Some at
        → (at ≤ now) × NonePassed at standing }
    ensures none_later { (now at : ℕ) (standing : Subscriptions) → at ≤ now → NonePassed at standing
        → (last : ℕ) × (last_before_expiry now standing ≡ Some last) × (at ≤ last) }
{}

/// A datagram ends what has expired: at its moment none of the subscriptions that stand then has passed. So what is
/// watched then, and was silent by that moment, is due before the next datagram.
pub fn a_datagram_ends_what_has_expired()
    ensures passed { (seen : Seen) (state : AuditState) → NonePassed seen.now (after_seen seen state).receivers.standing }
    ensures due { (seen : Seen) (state : AuditState) (told : SilentEvent)
        → finite.get (after_seen seen state).cycles.watched told.flow
        ≡ Some (record { silent_ms = told.silent_ms; until = told.at; numbers = told.numbers })
        → told.at ≤ seen.now → IsDue seen.now (after_seen seen state) (Silent told) }
{}

/// An audit changes its book of cycles by such steps alone: where it is asked until nothing is left, by the moment
/// until which silent events are told; and where a datagram comes, by what this shows.
pub fn an_audit_takes_these_steps()
    ensures asked { (now : ℕ) (told : List FellDue) (state after : AuditState) → Drains now state told after
        → after.cycles ≡ after_steps (asked_steps now state) state.cycles }
    ensures seen { (seen : Seen) (state : AuditState)
        → (after_seen seen state).cycles ≡ after_steps (seen_steps seen state) state.cycles }
    ensures all { (rules : AuditRules) (bench : List Rule) (ports : List ℕ) (learns : Bool) (begins : ℕ)
        (datagrams : List Seen) (state : AuditState) (steps : List Step)
        → Runs (audit_begun rules bench ports learns begins) [] datagrams state steps
        → state.cycles ≡ book_of rules.judged steps }
{}

/// What an audit tells as silent after any datagrams, as long as its book of cycles was never full, has its reason in
/// these: the last event came three cycles before, and since then none came, nothing ended its watch, and it was not
/// told.
pub fn each_silence_in_a_recording_has_its_reason()
    ensures { (rules : AuditRules) (bench : List Rule) (ports : List ℕ) (learns : Bool) (begins now : ℕ)
        (datagrams : List Seen) (state after : AuditState) (steps : List Step) (told : List FellDue)
        → Runs (audit_begun rules bench ports learns begins) [] datagrams state steps
        → state.cycles.told_full ≡ false → Drains now state told after → All (HasReason steps) told }
{}
