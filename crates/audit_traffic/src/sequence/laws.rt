//! Laws of the definitions behind the contracts. Each is the contract of a function that does nothing:
//! it says what the sessions of events show, whatever code keeps the book.
ghost use Rattle.std.specs.Prelude.{◌≡◌, ◌↔◌, ℕ, List, [], ◌∷◌, true, false, None, Some};
ghost use Rattle.std.specs.FinMap as finite;
ghost use Rattle.someip_tables.specs.declared.hashed.origin.Numbers.{Numbers};
ghost use Rattle.audit_traffic.specs.declared.events.notification.Notification.{Notification};
ghost use Rattle.audit_traffic.specs.declared.gaps.awaited.Awaited.{Awaited};
ghost use Rattle.audit_traffic.specs.declared.gaps.key.MissingEvent.{MissingEvent};
ghost use Rattle.audit_traffic.specs.declared.sequence.counting.Counting.{Counting};
ghost use Rattle.audit_traffic.specs.declared.sequence.counting.Counting.TheVariants.{ByEvent, BySender};
ghost use Rattle.audit_traffic.specs.declared.sequence.finding.Finding.TheVariants.{Overtaken, Repeated};
ghost use Rattle.audit_traffic.specs.declared.sequence.sequence_book.SequenceRules.{SequenceRules};
ghost use Rattle.audit_traffic.specs.events.EventExamples.{flow_to, node};
ghost use Rattle.audit_traffic.specs.sequence.Sequences.{told_by};
ghost use Rattle.audit_traffic.specs.sequence.SequenceHistories.{BeganAgain, Came, Changed, Step, book_of, missing_in};
ghost use Rattle.audit_traffic.specs.sequence.SequenceHistories.{told_in, without_lost};
ghost use Rattle.audit_traffic.specs.sequence.SequenceReasons.{IsMissing};
ghost use Rattle.audit_traffic.specs.sequence.SequenceExamples.{another_at, at, numbers, of_sender, run, session_of, shows, shows_by_sender};

/// What events that overtake each other show, by example. What was overtaken may come 100 milliseconds later, and
/// the newest step is first.
pub fn what_was_overtaken_is_no_loss()
    // Of 5, 7 and 6 the last was overtaken, and is missing no more.
    ensures skips { shows (at 1000 1 5 ∷ []) 1010 7 ≡ None }
    ensures overtaken { shows (at 1010 1 7 ∷ at 1000 1 5 ∷ []) 1109 6 ≡ Some Overtaken }
    ensures goes_on { shows (at 1020 1 6 ∷ at 1010 1 7 ∷ at 1000 1 5 ∷ []) 1030 8 ≡ None }
    ensures twice { shows (at 1020 1 6 ∷ at 1010 1 7 ∷ at 1000 1 5 ∷ []) 1030 6 ≡ None }
    ensures last_again { shows (at 1020 1 6 ∷ at 1010 1 7 ∷ at 1000 1 5 ∷ []) 1030 7 ≡ Some Repeated }
    // At its deadline it is lost.
    ensures too_late { shows (at 1010 1 7 ∷ at 1000 1 5 ∷ []) 1110 6 ≡ None }
    // Where a subscription began or ended it may have gone to nobody, and was not missing.
    ensures excused { shows (at 1010 1 7 ∷ record { at = 1005; shown = Changed (node 1) (node 9) 4096 } ∷ at 1000 1 5 ∷ []) 1020 6
        ≡ None }
{}

/// Which sessions are missing, by example.
pub fn skipped_sessions_are_missing()
    ensures first { missing_in ByEvent 100 (at 1010 1 8 ∷ at 1000 1 5 ∷ []) (session_of 6)
        ≡ Some (record { shown_by = flow_to 0x8001 (node 1); numbers = numbers; until = 1110 }) }
    ensures second { missing_in ByEvent 100 (at 1010 1 8 ∷ at 1000 1 5 ∷ []) (session_of 7)
        ≡ Some (record { shown_by = flow_to 0x8001 (node 1); numbers = numbers; until = 1110 }) }
    ensures last { missing_in ByEvent 100 (at 1010 1 8 ∷ at 1000 1 5 ∷ []) (session_of 5) ≡ None }
    ensures own { missing_in ByEvent 100 (at 1010 1 8 ∷ at 1000 1 5 ∷ []) (session_of 8) ≡ None }
    ensures came { missing_in ByEvent 100 (at 1020 1 6 ∷ at 1010 1 8 ∷ at 1000 1 5 ∷ []) (session_of 6) ≡ None }
    // Whoever gets it.
    ensures elsewhere { missing_in ByEvent 100 (at 1020 2 6 ∷ at 1010 1 8 ∷ at 1000 1 5 ∷ []) (session_of 6) ≡ None }
    // Another event that skips it changes nothing.
    ensures again { missing_in ByEvent 100 (at 1020 2 8 ∷ at 1010 1 8 ∷ at 1005 2 5 ∷ at 1000 1 5 ∷ []) (session_of 6)
        ≡ Some (record { shown_by = flow_to 0x8001 (node 1); numbers = numbers; until = 1110 }) }
    // A reboot of the sender ends the wait, and one of the receiver does not.
    ensures reboot { missing_in ByEvent 100 (record { at = 1020; shown = BeganAgain (node 9) } ∷ at 1010 1 8 ∷ at 1000 1 5 ∷ []) (session_of 6)
        ≡ None }
    ensures of_receiver { missing_in ByEvent 100 (record { at = 1020; shown = BeganAgain (node 1) } ∷ at 1010 1 8 ∷ at 1000 1 5 ∷ []) (session_of 6)
        ≡ Some (record { shown_by = flow_to 0x8001 (node 1); numbers = numbers; until = 1110 }) }
    // At its deadline the next step finds it lost.
    ensures lost { missing_in ByEvent 100 (at 1110 1 9 ∷ at 1010 1 8 ∷ at 1000 1 5 ∷ []) (session_of 6) ≡ None }
{}

/// More than 64 sessions are missing as one run, by example: no event ends its wait, but a reboot of the sender does.
pub fn many_sessions_are_one_run()
    ensures most { missing_in ByEvent 100 (at 1010 1 70 ∷ at 1000 1 5 ∷ []) (run 6 69) ≡ None }
    ensures most_by_one { missing_in ByEvent 100 (at 1010 1 70 ∷ at 1000 1 5 ∷ []) (session_of 69)
        ≡ Some (record { shown_by = flow_to 0x8001 (node 1); numbers = numbers; until = 1110 }) }
    ensures too_many { missing_in ByEvent 100 (at 1010 1 71 ∷ at 1000 1 5 ∷ []) (run 6 70)
        ≡ Some (record { shown_by = flow_to 0x8001 (node 1); numbers = numbers; until = 1110 }) }
    ensures not_by_one { missing_in ByEvent 100 (at 1010 1 71 ∷ at 1000 1 5 ∷ []) (session_of 6) ≡ None }
    ensures wraps { missing_in ByEvent 100 (at 1010 1 66 ∷ at 1000 1 0xffff ∷ []) (run 1 65)
        ≡ Some (record { shown_by = flow_to 0x8001 (node 1); numbers = numbers; until = 1110 }) }
    ensures goes_on { missing_in ByEvent 100 (at 1020 1 6 ∷ at 1010 1 71 ∷ at 1000 1 5 ∷ []) (run 6 70)
        ≡ Some (record { shown_by = flow_to 0x8001 (node 1); numbers = numbers; until = 1110 }) }
    ensures reboot { missing_in ByEvent 100 (record { at = 1020; shown = BeganAgain (node 9) } ∷ at 1010 1 71 ∷ at 1000 1 5 ∷ []) (run 6 70)
        ≡ None }
{}

/// Which events count together, by example: sessions of another event are the next ones where they count by
/// sender, and say nothing where they count by event.
pub fn events_count_together()
    ensures by_event { missing_in ByEvent 100 (at 1020 1 8 ∷ another_at 1010 1 6 ∷ at 1000 1 5 ∷ []) (session_of 6)
        ≡ Some (record { shown_by = flow_to 0x8001 (node 1); numbers = numbers; until = 1120 }) }
    ensures by_sender { missing_in BySender 100 (at 1020 1 8 ∷ another_at 1010 1 6 ∷ at 1000 1 5 ∷ []) (of_sender 7)
        ≡ Some (record { shown_by = flow_to 0x8001 (node 1); numbers = numbers; until = 1120 }) }
    ensures came_by_sender { missing_in BySender 100 (at 1020 1 8 ∷ another_at 1010 1 6 ∷ at 1000 1 5 ∷ []) (of_sender 6) ≡ None }
    ensures next { shows_by_sender (another_at 1010 1 6 ∷ at 1000 1 5 ∷ []) 1020 7 ≡ None }
    ensures repeated { shows_by_sender (another_at 1010 1 6 ∷ []) 1020 6 ≡ Some Repeated }
{}

/// A book that was never full, and was asked before each step for all that fell due, holds exactly the sessions that
/// are missing by the steps so far, and tells of each event what these show.
pub fn a_book_tells_what_the_steps_show()
    ensures missing { (rules : SequenceRules) (steps : List Step) (key : MissingEvent)
        → (book_of rules steps).events.told_full ≡ false → (book_of rules steps).gaps.told_full ≡ false
        → finite.get (book_of rules steps).gaps.waiting key
        ≡ missing_in rules.counting rules.overtake_ms steps key }
    ensures told { (rules : SequenceRules) (steps : List Step) (now : ℕ) (numbers : Numbers) (event : Notification)
        → (book_of rules (record { at = now; shown = Came numbers event } ∷ steps)).events.told_full ≡ false
        → (book_of rules (record { at = now; shown = Came numbers event } ∷ steps)).gaps.told_full ≡ false
        → told_by numbers event (without_lost now (book_of rules steps))
        ≡ told_in rules.counting rules.overtake_ms steps now numbers event }
{}

/// A session, or a run, is missing exactly where an event is among the steps that skips it, it was not missing then, and
/// since then no event had it, its sender did not begin again, and its deadline did not come before the last of them.
pub fn each_session_has_its_reason()
    ensures { (counting : Counting) (overtake_ms : ℕ) (key : MissingEvent) (awaited : Awaited) (steps : List Step)
        → (missing_in counting overtake_ms steps key ≡ Some awaited) ↔ IsMissing counting overtake_ms key awaited steps }
{}
