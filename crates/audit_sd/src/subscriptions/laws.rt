//! Laws of the definitions behind the contracts. Each is the contract of a function that does nothing:
//! it says what a recording shows of Subscribes, whatever code keeps the book.
ghost use Rattle.std.specs.Prelude.{◌≡◌, ◌↔◌, ◌≤◌, ℕ, Option, List, [], ◌∷◌, true, false, Some, None};
ghost use Rattle.std.specs.FinMap as finite;
ghost use Rattle.audit_sd.specs.declared.subscriptions.entry.Asked.{Asked};
ghost use Rattle.audit_sd.specs.declared.subscriptions.entry.SubscribeEntry.{SubscribeEntry};
ghost use Rattle.audit_sd.specs.declared.subscriptions.finding.Finding.{Finding};
ghost use Rattle.audit_sd.specs.declared.subscriptions.finding.Finding.TheVariants.{Full, Nack};
ghost use Rattle.audit_sd.specs.declared.subscriptions.finding.Finding.TheVariants.{UnaskedAck, UnaskedNack};
ghost use Rattle.audit_sd.specs.declared.subscriptions.finding.Unanswered.{Unanswered};
ghost use Rattle.audit_sd.specs.declared.subscriptions.key.SubscriptionKey.{SubscriptionKey};
ghost use Rattle.audit_sd.specs.subscriptions.SubscribeRules.{is_late, told_of_answer};
ghost use Rattle.audit_sd.specs.subscriptions.SubscribeTables.{FallsDue, SubscribeTable, Waiting, after_due};
ghost use Rattle.audit_sd.specs.subscriptions.SubscribeTables.{after_entry, asks, has_room, told_by, unasked_by};
ghost use Rattle.audit_sd.specs.subscriptions.SubscribeHistories.{Event, book_of, owed_in, unanswered_in};
ghost use Rattle.audit_sd.specs.subscriptions.SubscribeHistories.{unasked_in, waiting_in, without_late};
ghost use Rattle.audit_sd.specs.subscriptions.SubscribeReasons.{IsUnasked, IsWaiting};
ghost use Rattle.audit_sd.specs.subscriptions.SubscribeExamples.{answer, begins_again, comes, other_answer};
ghost use Rattle.audit_sd.specs.subscriptions.SubscribeExamples.{subscribe, subscription, waits};

/// Which Subscribes have no answer in time, by example. An answer may take 2000 milliseconds, and node 1
/// subscribes at moment 100. The newest event is first.
pub fn subscribes_wait_for_their_answer()
    ensures waits { waiting_in 2000 (comes 100 (subscribe 1 1 3) ∷ []) (subscription 1 0)
        ≡ Some (waits 1 1 2100) }
    ensures before { unanswered_in 2000 (comes 100 (subscribe 1 1 3) ∷ []) 2099 (subscription 1 0)
        ≡ None }
    ensures at { unanswered_in 2000 (comes 100 (subscribe 1 1 3) ∷ []) 2100 (subscription 1 0)
        ≡ Some (waits 1 1 2100) }
    ensures acked { waiting_in 2000 (comes 2099 (answer 2 1 3) ∷ comes 100 (subscribe 1 1 3) ∷ [])
        (subscription 1 0) ≡ None }
    ensures nacked { waiting_in 2000 (comes 2099 (answer 2 1 0) ∷ comes 100 (subscribe 1 1 3) ∷ [])
        (subscription 1 0) ≡ None }
    // The answer to another client or counter is none.
    ensures other_client { unanswered_in 2000
        (comes 200 (answer 2 2 3) ∷ comes 100 (subscribe 1 1 3) ∷ []) 2100 (subscription 1 0)
        ≡ Some (waits 1 1 2100) }
    ensures other_counter { unanswered_in 2000
        (comes 200 (other_answer 2 1 3) ∷ comes 100 (subscribe 1 1 3) ∷ []) 2100 (subscription 1 0)
        ≡ Some (waits 1 1 2100) }
    // A Subscribe that comes while one waits opens nothing; one that comes after does.
    ensures again { waiting_in 2000 (comes 1100 (subscribe 2 1 3) ∷ comes 100 (subscribe 1 1 3) ∷ [])
        (subscription 1 0) ≡ Some (waits 1 1 2100) }
    ensures later { waiting_in 2000 (comes 2100 (subscribe 2 1 3) ∷ comes 100 (subscribe 1 1 3) ∷ [])
        (subscription 1 0) ≡ Some (waits 2 1 4100) }
    // A StopSubscribe neither waits nor ends the wait of the Subscribe before it.
    ensures stop { waiting_in 2000 (comes 100 (subscribe 1 1 0) ∷ []) (subscription 1 0) ≡ None }
    ensures stopped { unanswered_in 2000
        (comes 200 (subscribe 2 1 0) ∷ comes 100 (subscribe 1 1 3) ∷ []) 2100 (subscription 1 0)
        ≡ Some (waits 1 1 2100) }
    // A reboot of the client or of the server ends the wait, one of another node does not.
    ensures client { waiting_in 2000 (begins_again 200 1 ∷ comes 100 (subscribe 1 1 3) ∷ [])
        (subscription 1 0) ≡ None }
    ensures server { waiting_in 2000 (begins_again 200 9 ∷ comes 100 (subscribe 1 1 3) ∷ [])
        (subscription 1 0) ≡ None }
    ensures another { waiting_in 2000 (begins_again 200 2 ∷ comes 100 (subscribe 1 1 3) ∷ [])
        (subscription 1 0) ≡ Some (waits 1 1 2100) }
{}

/// What is told of an answer, by example: a Nack is told, an Ack is not.
pub fn nacks_are_told()
    ensures nack { told_of_answer (answer 2 1 0) ≡ Some Nack }
    ensures ack { told_of_answer (answer 2 1 3) ≡ None }
{}

/// Which answers nobody asked for, by example. From moment 50 on it is known what was asked.
pub fn each_subscribe_may_be_answered_once()
    ensures ack { unasked_in 50 [] 50 (answer 1 1 3) ≡ Some UnaskedAck }
    ensures nack { unasked_in 50 [] 50 (answer 1 1 0) ≡ Some UnaskedNack }
    ensures not_settled { unasked_in 50 [] 49 (answer 1 1 3) ≡ None }
    ensures subscribe { unasked_in 50 [] 50 (subscribe 1 1 3) ≡ None }
    ensures asked { unasked_in 50 (comes 100 (subscribe 1 1 3) ∷ []) 200 (answer 2 1 3) ≡ None }
    // Also one that comes long after the Subscribe was told as unanswered.
    ensures late { unasked_in 50 (comes 100 (subscribe 1 1 3) ∷ []) 99999 (answer 2 1 0) ≡ None }
    ensures twice { unasked_in 50 (comes 200 (answer 2 1 3) ∷ comes 100 (subscribe 1 1 3) ∷ [])
        200 (answer 3 1 3) ≡ Some UnaskedAck }
    // Two Subscribes are answered twice, and no third time.
    ensures second { unasked_in 50 (comes 200 (answer 3 1 3) ∷ comes 110 (subscribe 2 1 3)
        ∷ comes 100 (subscribe 1 1 3) ∷ []) 200 (answer 4 1 3) ≡ None }
    ensures third { unasked_in 50 (comes 210 (answer 4 1 3) ∷ comes 200 (answer 3 1 3)
        ∷ comes 110 (subscribe 2 1 3) ∷ comes 100 (subscribe 1 1 3) ∷ []) 220 (answer 5 1 3)
        ≡ Some UnaskedAck }
    // The Subscribe of another client, or with another counter, is none.
    ensures other_client { unasked_in 50 (comes 100 (subscribe 1 1 3) ∷ []) 200 (answer 2 2 3)
        ≡ Some UnaskedAck }
    ensures other_counter { unasked_in 50 (comes 100 (subscribe 1 1 3) ∷ []) 200 (other_answer 2 1 3)
        ≡ Some UnaskedAck }
    // A StopSubscribe has no answer, and takes none from the Subscribe before it.
    ensures stop { unasked_in 50 (comes 100 (subscribe 1 1 0) ∷ []) 200 (answer 2 1 3)
        ≡ Some UnaskedAck }
    ensures stopped { unasked_in 50 (comes 150 (subscribe 2 1 0) ∷ comes 100 (subscribe 1 1 3) ∷ [])
        200 (answer 3 1 3) ≡ None }
    // After a reboot of the client or of the server nothing is owed.
    ensures client { unasked_in 50 (begins_again 150 1 ∷ comes 100 (subscribe 1 1 3) ∷ []) 200
        (answer 2 1 3) ≡ Some UnaskedAck }
    ensures server { unasked_in 50 (begins_again 150 9 ∷ comes 100 (subscribe 1 1 3) ∷ []) 200
        (answer 2 1 3) ≡ Some UnaskedAck }
    ensures another { unasked_in 50 (begins_again 150 2 ∷ comes 100 (subscribe 1 1 3) ∷ []) 200
        (answer 2 1 3) ≡ None }
{}

/// A book that was never full, and was asked before each event for all that fell due, holds exactly the
/// Subscribes that wait by the events so far, and the answers that are owed, and tells the answers that
/// nobody asked for.
pub fn a_book_tells_what_the_events_show()
    ensures waits { (limit answer_ms settled : ℕ) (events : List Event) (key : SubscriptionKey)
        → (book_of limit answer_ms settled events).told_full ≡ false
        → finite.get (book_of limit answer_ms settled events).waiting key
        ≡ waiting_in answer_ms events key }
    ensures owes { (limit answer_ms settled : ℕ) (events : List Event) (key : SubscriptionKey)
        → (book_of limit answer_ms settled events).told_full ≡ false
        → finite.get (book_of limit answer_ms settled events).owed key ≡ owed_in events key }
    ensures unasked { (limit answer_ms settled : ℕ) (events : List Event) (now : ℕ)
        (entry : SubscribeEntry) → (book_of limit answer_ms settled events).told_full ≡ false
        → unasked_by now entry (book_of limit answer_ms settled events)
        ≡ unasked_in settled events now entry }
{}

/// What falls due is told until nothing is left that has waited too long, each Subscribe at its own
/// deadline and none before one that is due earlier; what has not waited too long is kept.
pub fn what_falls_due_is_told()
    ensures own { (now : ℕ) (waiting : Waiting) (told : Unanswered) → FallsDue now waiting (Some told)
        → finite.get waiting told.key ≡ Some (record { origin = told.origin; until = told.at }) }
    ensures first { (now : ℕ) (waiting : Waiting) (told : Unanswered) (key : SubscriptionKey)
        (asked : Asked) → FallsDue now waiting (Some told) → finite.get waiting key ≡ Some asked
        → told.at ≤ asked.until }
    ensures kept { (now : ℕ) (book : SubscribeTable) (told : Option Unanswered)
        → FallsDue now book.waiting told
        → without_late now (after_due told book) ≡ without_late now book }
    ensures all { (now : ℕ) (book : SubscribeTable) → FallsDue now book.waiting None
        → without_late now book ≡ book }
{}

/// That a book is full is told once in its life, and from then on no answer is told as unasked.
pub fn full_is_told_once()
    ensures notes { (now : ℕ) (entry : SubscribeEntry) (book : SubscribeTable)
        → told_by entry book ≡ Some Full
        → (book.told_full ≡ false) × ((after_entry now entry book).told_full ≡ true) }
    ensures stays { (now : ℕ) (entry : SubscribeEntry) (book : SubscribeTable) → book.told_full ≡ true
        → (after_entry now entry book).told_full ≡ true }
    ensures tells { (entry : SubscribeEntry) (book : SubscribeTable) → asks entry.kind entry ≡ true
        → has_room entry.key book ≡ false → book.told_full ≡ false → told_by entry book ≡ Some Full }
    ensures silences { (now : ℕ) (entry : SubscribeEntry) (book : SubscribeTable)
        → book.told_full ≡ true → unasked_by now entry book ≡ None }
{}

/// A Subscribe waits exactly where it is among the events, none of its subscription waited then, and since
/// then no answer and no reboot came; it is told as unanswered exactly where it waits too long. An answer
/// is told as unasked exactly where none is owed by the events before, once it is known what was asked.
pub fn each_finding_has_its_reason()
    ensures waits { (answer_ms : ℕ) (key : SubscriptionKey) (asked : Asked) (events : List Event)
        → (waiting_in answer_ms events key ≡ Some asked) ↔ IsWaiting answer_ms key asked events }
    ensures unanswered { (answer_ms now : ℕ) (key : SubscriptionKey) (asked : Asked)
        (events : List Event) → (unanswered_in answer_ms events now key ≡ Some asked)
        ↔ (IsWaiting answer_ms key asked events × (is_late now asked ≡ true)) }
    ensures unasked { (settled now : ℕ) (entry : SubscribeEntry) (finding : Finding)
        (events : List Event) → (unasked_in settled events now entry ≡ Some finding)
        ↔ IsUnasked settled now entry finding events }
{}
