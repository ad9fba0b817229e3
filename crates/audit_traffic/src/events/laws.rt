//! Laws of the definitions behind the contracts. Each is the contract of a function that does nothing:
//! it says what the sessions of events show, whatever code keeps the book.
ghost use Rattle.std.specs.Prelude.{◌≡◌, ◌≢◌, ◌↔◌, ℕ, List, [], ◌∷◌, true, false, Some, None};
ghost use Rattle.std.specs.FinMap as finite;
ghost use Rattle.std.specs.List.{list_any};
ghost use Rattle.std.specs.Option.{option_map};
ghost use Rattle.audit_traffic.specs.declared.events.finding.Finding.TheVariants.{Behind, Full, Gap, Repeated};
ghost use Rattle.audit_traffic.specs.declared.events.flow.EventFlow.{EventFlow};
ghost use Rattle.audit_traffic.specs.declared.events.notification.Notification.{Notification};
ghost use Rattle.audit_traffic.specs.events.EventRules.{ahead, is_behind, is_nearer, is_skipped, judged};
ghost use Rattle.audit_traffic.specs.events.EventTables.{Events, after_event, told_by};
ghost use Rattle.audit_traffic.specs.events.EventHistories.{BeganAgain, Came, Changed, Shown, Withdrawn, book_of};
ghost use Rattle.audit_traffic.specs.events.EventHistories.{kept_of, nearest_of, shown_after, since_in};
ghost use Rattle.audit_traffic.specs.events.EventReasons.{IsBehind, IsGap, IsRepeated};
ghost use Rattle.audit_traffic.specs.events.EventExamples.{another_comes, comes, event_to, group, last, node};

/// By how many a session is ahead of another, by example: FFFF is followed by 1.
pub fn sessions_are_ahead()
    ensures same { ahead 5 5 ≡ 0 }
    ensures next { ahead 5 6 ≡ 1 }
    ensures wraps { ahead 0xffff 1 ≡ 1 }
    ensures beyond { ahead 0xfffe 2 ≡ 3 }
    ensures behind { ahead 5 4 ≡ 0xfffe }
{}

/// Which sessions are behind, by example: by 1 to 64, in the order in which they are given.
pub fn sessions_are_behind()
    ensures one { is_behind 5 4 ≡ true }
    ensures same { is_behind 5 5 ≡ false }
    ensures next { is_behind 5 6 ≡ false }
    ensures wraps { is_behind 1 0xffff ≡ true }
    ensures most { is_behind 100 36 ≡ true }
    ensures too_many { is_behind 100 35 ≡ false }
    ensures wraps_most { is_behind 4 0xffc3 ≡ true }
    ensures wraps_too_many { is_behind 4 0xffc2 ≡ false }
{}

/// What a session shows, by the last event of its flow, by example.
pub fn findings_by_example()
    ensures first { judged true None 7 ≡ None }
    ensures next { judged true (Some (last 5 false None)) 6 ≡ None }
    ensures wraps { judged true (Some (last 0xffff false None)) 1 ≡ None }
    ensures repeated { judged true (Some (last 5 false None)) 5 ≡ Some Repeated }
    ensures lost { judged true (Some (last 5 false None)) 7 ≡ Some (Gap 7 6) }
    ensures wraps_beyond { judged true (Some (last 0xffff false None)) 2 ≡ Some (Gap 2 1) }
    ensures behind { judged true (Some (last 5 false None)) 4 ≡ Some Behind }
    ensures most_behind { judged true (Some (last 100 false None)) 36 ≡ Some Behind }
    ensures far_behind { judged true (Some (last 100 false None)) 35 ≡ Some (Gap 35 101) }
    // Not where sessions may have gone to nobody; a repeated one is told all the same.
    ensures disturbed { judged true (Some (last 5 true None)) 7 ≡ None }
    ensures disturbed_behind { judged true (Some (last 5 true None)) 4 ≡ Some Behind }
    ensures disturbed_repeated { judged true (Some (last 5 true None)) 5 ≡ Some Repeated }
    // Not where another receiver got 6; it may have got 7 itself.
    ensures elsewhere { judged true (Some (last 5 false (Some 1))) 7 ≡ None }
    ensures the_same { judged true (Some (last 5 false (Some 2))) 7 ≡ Some (Gap 7 6) }
    // Nor once the book was full.
    ensures full { judged false (Some (last 5 false None)) 7 ≡ None }
    ensures full_repeated { judged false (Some (last 5 false None)) 5 ≡ Some Repeated }
{}

/// What events to one receiver show, by example. The newest is first.
pub fn events_of_one_flow_are_compared()
    ensures first { shown_after [] (event_to (node 1) 7) ≡ None }
    ensures next { shown_after (comes (node 1) 5 ∷ []) (event_to (node 1) 6) ≡ None }
    ensures repeated { shown_after (comes (node 1) 5 ∷ []) (event_to (node 1) 5) ≡ Some Repeated }
    ensures lost { shown_after (comes (node 1) 5 ∷ []) (event_to (node 1) 7) ≡ Some (Gap 7 6) }
    ensures once { shown_after (comes (node 1) 7 ∷ comes (node 1) 5 ∷ []) (event_to (node 1) 8)
        ≡ None }
    // Of two that came in each other's place the later one is behind, and leaves the other the last.
    ensures swapped { shown_after (comes (node 1) 7 ∷ comes (node 1) 5 ∷ []) (event_to (node 1) 6)
        ≡ Some Behind }
    ensures after_swap { shown_after (comes (node 1) 6 ∷ comes (node 1) 7 ∷ comes (node 1) 5 ∷ [])
        (event_to (node 1) 8) ≡ None }
    ensures repeated_behind { shown_after (comes (node 1) 6 ∷ comes (node 1) 7 ∷ comes (node 1) 5 ∷ [])
        (event_to (node 1) 7) ≡ Some Repeated }
    ensures without_session { shown_after (comes (node 1) 5 ∷ []) (event_to (node 1) 0) ≡ None }
    ensures past_it { shown_after (comes (node 1) 0 ∷ comes (node 1) 5 ∷ []) (event_to (node 1) 7)
        ≡ Some (Gap 7 6) }
    ensures of_another { shown_after (another_comes (node 1) 5 ∷ []) (event_to (node 1) 7) ≡ None }
    ensures past_another { shown_after (another_comes (node 1) 6 ∷ comes (node 1) 5 ∷ [])
        (event_to (node 1) 7) ≡ Some (Gap 7 6) }
{}

/// What another receiver got of the same event is no loss, by example.
pub fn other_receivers_take_sessions()
    ensures got { shown_after (comes (node 2) 6 ∷ comes (node 1) 5 ∷ []) (event_to (node 1) 7) ≡ None }
    ensures the_same { shown_after (comes (node 2) 7 ∷ comes (node 1) 5 ∷ []) (event_to (node 1) 7)
        ≡ Some (Gap 7 6) }
    ensures some { shown_after (comes (node 2) 8 ∷ comes (node 2) 7 ∷ comes (node 1) 5 ∷ [])
        (event_to (node 1) 8) ≡ None }
    ensures before { shown_after (comes (node 1) 5 ∷ comes (node 2) 6 ∷ []) (event_to (node 1) 7)
        ≡ Some (Gap 7 6) }
    ensures older { shown_after (comes (node 2) 4 ∷ comes (node 1) 5 ∷ []) (event_to (node 1) 7)
        ≡ Some (Gap 7 6) }
    ensures wraps { shown_after (comes (node 2) 1 ∷ comes (node 1) 0xffff ∷ []) (event_to (node 1) 2)
        ≡ None }
    ensures group { shown_after (comes group 6 ∷ comes (node 1) 5 ∷ []) (event_to (node 1) 7) ≡ None }
    // A repeated event is no new one: what another receiver got before it counts.
    ensures repeated { shown_after (comes (node 1) 5 ∷ comes (node 2) 6 ∷ comes (node 1) 5 ∷ [])
        (event_to (node 1) 7) ≡ None }
{}

/// Where sessions may have gone to nobody no gap is told, and after a reboot nothing, by example. Events
/// come from node 9, of service 1000.
pub fn changes_excuse_gaps()
    ensures changed { shown_after (Changed (node 1) (node 9) 4096 ∷ comes (node 1) 5 ∷ [])
        (event_to (node 1) 7) ≡ None }
    ensures repeated { shown_after (Changed (node 1) (node 9) 4096 ∷ comes (node 1) 5 ∷ [])
        (event_to (node 1) 5) ≡ Some Repeated }
    ensures other_client { shown_after (Changed (node 2) (node 9) 4096 ∷ comes (node 1) 5 ∷ [])
        (event_to (node 1) 7) ≡ Some (Gap 7 6) }
    ensures other_server { shown_after (Changed (node 1) (node 8) 4096 ∷ comes (node 1) 5 ∷ [])
        (event_to (node 1) 7) ≡ Some (Gap 7 6) }
    ensures of_another_service { shown_after (Changed (node 1) (node 9) 4097 ∷ comes (node 1) 5 ∷ [])
        (event_to (node 1) 7) ≡ Some (Gap 7 6) }
    ensures before { shown_after (comes (node 1) 5 ∷ Changed (node 1) (node 9) 4096 ∷ [])
        (event_to (node 1) 7) ≡ Some (Gap 7 6) }
    ensures of_group { shown_after (Changed (node 1) (node 9) 4096 ∷ comes group 5 ∷ []) (event_to group 7)
        ≡ None }
    ensures withdrawn { shown_after (Withdrawn (node 9) 4096 ∷ comes (node 1) 5 ∷ [])
        (event_to (node 1) 7) ≡ None }
    ensures other_service { shown_after (Withdrawn (node 9) 4097 ∷ comes (node 1) 5 ∷ [])
        (event_to (node 1) 7) ≡ Some (Gap 7 6) }
    ensures other_offerer { shown_after (Withdrawn (node 8) 4096 ∷ comes (node 1) 5 ∷ [])
        (event_to (node 1) 7) ≡ Some (Gap 7 6) }
    ensures sender { shown_after (BeganAgain (node 9) ∷ comes (node 1) 5 ∷ []) (event_to (node 1) 5)
        ≡ None }
    ensures receiver { shown_after (BeganAgain (node 1) ∷ comes (node 1) 5 ∷ []) (event_to (node 1) 7)
        ≡ None }
    ensures another { shown_after (BeganAgain (node 2) ∷ comes (node 1) 5 ∷ []) (event_to (node 1) 7)
        ≡ Some (Gap 7 6) }
{}

/// The nearest session that another receiver got tells whether one of them got a session between the
/// last one and another: one number a flow is enough.
pub fn the_nearest_session_tells_of_all()
    ensures { (last session : ℕ) (got : List ℕ)
        → is_nearer (nearest_of last got) (ahead last session)
        ≡ list_any (is_skipped last session) got }
{}

/// A book that was never full keeps of each flow what was shown of it so far, and tells of each event
/// what this shows.
pub fn a_book_tells_what_was_shown()
    ensures kept { (limit : ℕ) (shown : List Shown) (flow : EventFlow)
        → (book_of limit shown).told_full ≡ false
        → finite.get (book_of limit shown).flows flow ≡ option_map kept_of (since_in shown flow) }
    ensures told { (limit : ℕ) (shown : List Shown) (event : Notification)
        → (book_of limit (Came event ∷ shown)).told_full ≡ false
        → told_by event (book_of limit shown) ≡ shown_after shown event }
{}

/// That a book is full is told once in its life, and from then on it tells no gap.
pub fn a_full_book_tells_no_gap()
    ensures notes { (event : Notification) (book : Events) → told_by event book ≡ Some Full
        → (book.told_full ≡ false) × ((after_event event book).told_full ≡ true) }
    ensures stays { (event : Notification) (book : Events) → book.told_full ≡ true
        → (after_event event book).told_full ≡ true }
    ensures no_gap { (session expected : ℕ) (event : Notification) (book : Events)
        → book.told_full ≡ true → told_by event book ≢ Some (Gap session expected) }
{}

/// A repeated event, one behind and a gap are told exactly where their reasons in plain words hold.
pub fn each_finding_has_its_reason()
    ensures repeated { (event : Notification) (shown : List Shown)
        → (shown_after shown event ≡ Some Repeated) ↔ IsRepeated event shown }
    ensures behind { (event : Notification) (shown : List Shown)
        → (shown_after shown event ≡ Some Behind) ↔ IsBehind event shown }
    ensures gap { (session expected : ℕ) (event : Notification) (shown : List Shown)
        → (shown_after shown event ≡ Some (Gap session expected))
        ↔ IsGap session expected event shown }
{}
