//! Laws of the definitions behind the contracts. Each is the contract of a function that does
//! nothing: it says what holds of calls and answers, whatever code keeps them.
//!
//! In the examples 2 s are given for an answer, the recording begins at moment 1000, and all messages
//! but those that are said to be others have one key.
ghost use Rattle.std.specs.Prelude.{◌≡◌, ◌↔◌, ℕ, List, [], ◌∷◌, ◌++◌, length, take, replicate, true, false};
ghost use Rattle.std.specs.Prelude.{Some, None};
ghost use Rattle.someip_wire.specs.declared.header.MessageType.TheVariants as kinds;
ghost use Rattle.audit_traffic.specs.declared.calls.finding.CallFinding.TheVariants.{KeyReused, Late, Repeated, Unasked};
ghost use Rattle.audit_traffic.specs.declared.calls.known.Known.TheVariants.{Open, Overdue, Answered};
ghost use Rattle.audit_traffic.specs.calls.Excerpts.{excerpt_of, same_excerpt};
ghost use Rattle.audit_traffic.specs.calls.KnownCalls.{known_at};
ghost use Rattle.audit_traffic.specs.calls.Tapped.{opened};
ghost use Rattle.audit_traffic.specs.calls.CallHistory.{known_of, told_after};
ghost use Rattle.audit_traffic.specs.calls.Scenes.{rules, client, server, other_server, message_at};
ghost use Rattle.audit_traffic.specs.calls.Scenes.{request_at, request_without_session_at, response_at, error_at, call_5};

/// Examples: an answer in time is nothing to be told, and without one the call is overdue from its
/// deadline on.
pub fn calls_are_overdue_by_example()
    ensures in_time { told_after rules (response_at 6999) (request_at 5000 [] ∷ []) ≡ None }
    ensures an_error { told_after rules (error_at 6999) (request_at 5000 [] ∷ []) ≡ None }
    ensures waits { known_at 6999 (known_of call_5 (request_at 5000 [] ∷ []))
        ≡ Some (Open (opened (request_at 5000 []))) }
    ensures overdue { known_at 7000 (known_of call_5 (request_at 5000 [] ∷ [])) ≡ Some (Overdue 5000) }
    ensures answered { known_at 7000 (known_of call_5 (response_at 6999 ∷ request_at 5000 [] ∷ []))
        ≡ Some (Answered 8999) }
{}

/// Examples: an answer from the deadline on is late, by the time since its REQUEST, however late it
/// comes.
pub fn late_answers_by_example()
    ensures at_the_deadline { told_after rules (response_at 7000) (request_at 5000 [] ∷ []) ≡ Some (Late 2000) }
    ensures later { told_after rules (response_at 7500) (request_at 5000 [] ∷ []) ≡ Some (Late 2500) }
    ensures much_later { told_after rules (error_at 95000) (request_at 5000 [] ∷ []) ≡ Some (Late 90000) }
    ensures asked_again { told_after rules (response_at 7500) (request_at 7100 [] ∷ request_at 5000 [] ∷ [])
        ≡ None }
{}

/// Examples: a second answer is repeated for 2 s after the first one, and unasked after that.
pub fn repeated_answers_by_example()
    ensures at_once { told_after rules (response_at 6000) (response_at 6000 ∷ request_at 5000 [] ∷ [])
        ≡ Some Repeated }
    ensures last { told_after rules (response_at 7999) (response_at 6000 ∷ request_at 5000 [] ∷ [])
        ≡ Some Repeated }
    ensures over { told_after rules (response_at 8000) (response_at 6000 ∷ request_at 5000 [] ∷ [])
        ≡ Some Unasked }
    ensures after_a_late_one { told_after rules (response_at 9999)
        (response_at 8000 ∷ request_at 5000 [] ∷ []) ≡ Some Repeated }
    ensures first_counts { told_after rules (response_at 8500)
        (response_at 7500 ∷ response_at 6000 ∷ request_at 5000 [] ∷ []) ≡ Some Unasked }
    ensures asked_again { told_after rules (response_at 6700)
        (request_at 6500 [] ∷ response_at 6000 ∷ request_at 5000 [] ∷ []) ≡ None }
{}

/// Examples: an answer to no call is unasked, but for the first 2 s of the recording. It comes from the
/// endpoint that was asked, to the one that asked, with the session and the Interface Version of the
/// REQUEST.
pub fn unasked_answers_by_example()
    ensures unasked { told_after rules (response_at 3000) [] ≡ Some Unasked }
    ensures early { told_after rules (response_at 2999) [] ≡ None }
    ensures from_elsewhere { told_after rules (message_at 6000 other_server client 5 kinds.Response [])
        (request_at 5000 [] ∷ []) ≡ Some Unasked }
    ensures to_elsewhere { told_after rules (message_at 6000 server other_server 5 kinds.Response [])
        (request_at 5000 [] ∷ []) ≡ Some Unasked }
    ensures of_another_session { told_after rules (message_at 6000 server client 6 kinds.Response [])
        (request_at 5000 [] ∷ []) ≡ Some Unasked }
    ensures the_way_of_the_request { told_after rules (message_at 6000 client server 5 kinds.Response [])
        (request_at 5000 [] ∷ []) ≡ Some Unasked }
    ensures nothing_returned { told_after rules (response_at 6000)
        (message_at 5000 client server 5 kinds.RequestNoReturn [] ∷ []) ≡ Some Unasked }
    ensures an_event { told_after rules (message_at 6000 server client 5 kinds.Notification []) [] ≡ None }
{}

/// Examples: a REQUEST with the key of a call that is open reuses it where it says something else. One
/// without a session never does, and one that says the same leaves the deadline as it is.
pub fn reused_keys_by_example()
    ensures reused { told_after rules (request_at 6999 (2 ∷ [])) (request_at 5000 (1 ∷ []) ∷ [])
        ≡ Some KeyReused }
    ensures longer { told_after rules (request_at 5500 (0 ∷ [])) (request_at 5000 [] ∷ []) ≡ Some KeyReused }
    ensures the_same { told_after rules (request_at 5500 (1 ∷ [])) (request_at 5000 (1 ∷ []) ∷ []) ≡ None }
    ensures no_session { told_after rules (request_without_session_at 5500 (2 ∷ []))
        (request_without_session_at 5000 (1 ∷ []) ∷ []) ≡ None }
    ensures overdue { told_after rules (request_at 7000 (2 ∷ [])) (request_at 5000 (1 ∷ []) ∷ []) ≡ None }
    ensures answered { told_after rules (request_at 5500 (2 ∷ []))
        (response_at 5400 ∷ request_at 5000 (1 ∷ []) ∷ []) ≡ None }
    ensures deadline_of_the_first { known_at 7000
        (known_of call_5 (request_at 5500 (1 ∷ []) ∷ request_at 5000 (1 ∷ []) ∷ []))
        ≡ Some (Overdue 5000) }
    ensures deadline_of_the_new_one { known_at 7000
        (known_of call_5 (request_at 5500 (2 ∷ []) ∷ request_at 5000 (1 ∷ []) ∷ []))
        ≡ Some (Open (opened (request_at 5500 (2 ∷ [])))) }
{}

/// Examples: of a payload its length counts, and its first 64 bytes.
pub fn excerpts_by_example()
    ensures the_65th { same_excerpt (excerpt_of (replicate 64 0 ++ 1 ∷ [])) (excerpt_of (replicate 64 0 ++ 2 ∷ []))
        ≡ true }
    ensures the_64th { same_excerpt (excerpt_of (replicate 63 0 ++ 1 ∷ [])) (excerpt_of (replicate 63 0 ++ 2 ∷ []))
        ≡ false }
    ensures length { same_excerpt (excerpt_of (replicate 65 0)) (excerpt_of (replicate 66 0)) ≡ false }
    ensures zeros { same_excerpt (excerpt_of []) (excerpt_of (0 ∷ [])) ≡ false }
{}

/// Two payloads are told apart exactly where their lengths differ, or their first 64 bytes.
pub fn excerpts_tell_payloads_apart()
    ensures { (a b : List ℕ) → (same_excerpt (excerpt_of a) (excerpt_of b) ≡ true)
        ↔ ((length a ≡ length b) × (take 64 a ≡ take 64 b)) }
{}
