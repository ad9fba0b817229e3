//! Laws of the definitions behind the contracts. Each is the contract of a function that does nothing:
//! it says what the messages of a recording show, whatever code keeps the book.
ghost use Rattle.std.specs.Prelude.{◌≡◌, ◌↔◌, ◌≤◌, ℕ, List, [], ◌∷◌, length, true, false, Some, None};
ghost use Rattle.std.specs.FinMap as finite;
ghost use Rattle.std.specs.declared.net.ipv4_addr.Ipv4Addr.{Ipv4Addr};
ghost use Rattle.someip_tables.specs.hashed.Rooms.{may_hold};
ghost use Rattle.sd_session.specs.declared.stamp.Stamp.{Stamp};
ghost use Rattle.audit_sd.specs.declared.sessions.finding.Finding.TheVariants.{Reboot, NotNext, Overtaken, Full};
ghost use Rattle.audit_sd.specs.declared.sessions.last.Last.{Last};
ghost use Rattle.audit_sd.specs.sessions.SessionRules.{has_session, judged};
ghost use Rattle.audit_sd.specs.declared.sessions.message.SdMessage.{SdMessage};
ghost use Rattle.audit_sd.specs.sessions.SessionBooks.{Sessions, sessions_after, told_by};
ghost use Rattle.audit_sd.specs.sessions.Histories.{last_in, sessions_of, shown_after};
ghost use Rattle.audit_sd.specs.sessions.Reasons.{IsLast, IsNotNext, IsOvertaken, IsReboot};
ghost use Rattle.audit_sd.specs.sessions.Examples.{came, group, node, sent, stamp};

/// What a message shows, by the stamp of the last one, by example. A sender counts from 1 to FFFF with
/// the Reboot flag, and then for ever from 1 to FFFF without it.
pub fn findings_by_example()
    ensures first { judged None (stamp 7 true) ≡ None }
    ensures next { judged (Some (stamp 5 true)) (stamp 6 true) ≡ None }
    ensures next_without_flag { judged (Some (stamp 5 false)) (stamp 6 false) ≡ None }
    ensures wraps { judged (Some (stamp 0xffff true)) (stamp 1 false) ≡ None }
    ensures wraps_again { judged (Some (stamp 0xffff false)) (stamp 1 false) ≡ None }
    // With the flag, 1 after FFFF is a reboot.
    ensures wraps_with_flag { judged (Some (stamp 0xffff true)) (stamp 1 true) ≡ Some Reboot }
    ensures lost { judged (Some (stamp 5 true)) (stamp 7 true)
        ≡ Some (NotNext (stamp 7 true) (stamp 6 true)) }
    // A message that comes twice: with the flag it is a reboot.
    ensures repeated { judged (Some (stamp 5 false)) (stamp 5 false)
        ≡ Some (NotNext (stamp 5 false) (stamp 6 false)) }
    ensures repeated_with_flag { judged (Some (stamp 5 true)) (stamp 5 true) ≡ Some Reboot }
    ensures earlier { judged (Some (stamp 5 false)) (stamp 4 false)
        ≡ Some (NotNext (stamp 4 false) (stamp 6 false)) }
    ensures earlier_with_flag { judged (Some (stamp 5 true)) (stamp 4 true) ≡ Some Reboot }
    // The flag comes back at a reboot alone, and does not go before FFFF.
    ensures flag_set { judged (Some (stamp 5 false)) (stamp 6 true) ≡ Some Reboot }
    ensures flag_gone { judged (Some (stamp 5 true)) (stamp 6 false)
        ≡ Some (NotNext (stamp 6 false) (stamp 6 true)) }
    // Session 0 shows nothing, and 1 in its place does.
    ensures zero { shown_after 100 (sent 8 (node 1) group 5 false ∷ []) (sent 9 (node 1) group 0 false) ≡ None }
    ensures one { shown_after 100 (sent 8 (node 1) group 5 false ∷ []) (sent 9 (node 1) group 1 false)
        ≡ Some (NotNext (stamp 1 false) (stamp 6 false)) }
    ensures zero_with_flag { shown_after 100 (sent 8 (node 1) group 5 true ∷ [])
        (sent 9 (node 1) group 0 true) ≡ None }
    ensures one_with_flag { shown_after 100 (sent 8 (node 1) group 5 true ∷ [])
        (sent 9 (node 1) group 1 true) ≡ Some Reboot }
    // Nor does it change what the next one shows.
    ensures after_zero { shown_after 100 (sent 8 (node 1) group 0 true ∷ sent 7 (node 1) group 5 true ∷ [])
        (sent 9 (node 1) group 7 true) ≡ Some (NotNext (stamp 7 true) (stamp 6 true)) }
    ensures zero_first { shown_after 100 (sent 8 (node 1) group 0 true ∷ []) (sent 9 (node 1) group 7 true)
        ≡ None }
{}

/// A sender counts what it sends to each destination apart, by example. The newest message is first.
pub fn destinations_are_counted_apart()
    ensures apart { shown_after 100 (sent 8 (node 1) group 5 true ∷ []) (sent 9 (node 1) (node 2) 1 true)
        ≡ None }
    ensures together { shown_after 100 (sent 8 (node 1) group 5 true ∷ []) (sent 9 (node 1) group 1 true)
        ≡ Some Reboot }
    ensures other_sender { shown_after 100 (sent 8 (node 1) group 5 true ∷ []) (sent 9 (node 2) group 1 true)
        ≡ None }
    ensures beyond { shown_after 100 (sent 8 (node 1) (node 2) 1 true ∷ sent 7 (node 1) group 5 true ∷ [])
        (sent 9 (node 1) group 7 true) ≡ Some (NotNext (stamp 7 true) (stamp 6 true)) }
{}

/// A reboot is told once, whatever the destinations, and of other senders nothing is forgotten, by
/// example. Node 1 sent to the group and to node 3, and so did node 2; then node 1 begins again.
pub fn a_reboot_is_told_once()
    ensures told { shown_after 100 (sent 8 (node 1) (node 3) 7 true ∷ sent 7 (node 2) (node 3) 7 true
        ∷ sent 6 (node 1) group 5 true ∷ []) (sent 9 (node 1) group 1 true) ≡ Some Reboot }
    ensures once { shown_after 100 (sent 8 (node 1) group 1 true ∷ sent 7 (node 1) (node 3) 7 true
        ∷ sent 6 (node 2) (node 3) 7 true ∷ sent 5 (node 1) group 5 true ∷ [])
        (sent 9 (node 1) (node 3) 1 true) ≡ None }
    ensures goes_on { shown_after 100 (sent 8 (node 1) group 1 true ∷ sent 7 (node 1) (node 3) 7 true
        ∷ sent 6 (node 2) (node 3) 7 true ∷ sent 5 (node 1) group 5 true ∷ [])
        (sent 9 (node 1) group 3 true) ≡ Some (NotNext (stamp 3 true) (stamp 2 true)) }
    ensures again { shown_after 100 (sent 8 (node 1) (node 3) 1 true ∷ sent 7 (node 1) group 1 true
        ∷ sent 6 (node 1) (node 3) 7 true ∷ sent 5 (node 1) group 5 true ∷ [])
        (sent 9 (node 1) (node 3) 1 true) ≡ Some Reboot }
    ensures others { shown_after 100 (sent 8 (node 1) group 1 true ∷ sent 7 (node 1) (node 3) 7 true
        ∷ sent 6 (node 2) (node 3) 7 true ∷ sent 5 (node 1) group 5 true ∷ [])
        (sent 9 (node 2) (node 3) 9 true) ≡ Some (NotNext (stamp 9 true) (stamp 8 true)) }
{}

/// Which messages were overtaken, by example: one of the 8 sessions before the last, with the same flag, that
/// comes at most 100 milliseconds after it. The newest message is first.
pub fn messages_are_overtaken()
    ensures overtaken { shown_after 100 (came 1000 (node 1) group 7 true ∷ [])
        (came 1050 (node 1) group 6 true) ≡ Some (Overtaken (stamp 6 true)) }
    ensures without_flag { shown_after 100 (came 1000 (node 1) group 7 false ∷ [])
        (came 1050 (node 1) group 6 false) ≡ Some (Overtaken (stamp 6 false)) }
    ensures at_last { shown_after 100 (came 1000 (node 1) group 7 true ∷ [])
        (came 1100 (node 1) group 6 true) ≡ Some (Overtaken (stamp 6 true)) }
    ensures too_late { shown_after 100 (came 1000 (node 1) group 7 true ∷ [])
        (came 1101 (node 1) group 6 true) ≡ Some Reboot }
    ensures eighth { shown_after 100 (came 1000 (node 1) group 9 true ∷ [])
        (came 1050 (node 1) group 1 true) ≡ Some (Overtaken (stamp 1 true)) }
    ensures ninth { shown_after 100 (came 1000 (node 1) group 10 true ∷ [])
        (came 1050 (node 1) group 1 true) ≡ Some Reboot }
    ensures same { shown_after 100 (came 1000 (node 1) group 7 true ∷ [])
        (came 1050 (node 1) group 7 true) ≡ Some Reboot }
    ensures flag_set { shown_after 100 (came 1000 (node 1) group 7 false ∷ [])
        (came 1050 (node 1) group 6 true) ≡ Some Reboot }
    ensures flag_gone { shown_after 100 (came 1000 (node 1) group 7 true ∷ [])
        (came 1050 (node 1) group 6 false) ≡ Some (NotNext (stamp 6 false) (stamp 8 true)) }
    ensures at_once { shown_after 0 (came 1000 (node 1) group 7 true ∷ [])
        (came 1000 (node 1) group 6 true) ≡ Some (Overtaken (stamp 6 true)) }
    ensures elsewhere { shown_after 100 (came 1000 (node 1) group 7 true ∷ [])
        (came 1050 (node 1) (node 2) 6 true) ≡ None }
    // The last one stays the last, with its moment.
    ensures stays { shown_after 100 (came 1050 (node 1) group 6 true ∷ came 1000 (node 1) group 7 true ∷ [])
        (came 1060 (node 1) group 8 true) ≡ None }
    ensures twice { shown_after 100 (came 1090 (node 1) group 6 true ∷ came 1000 (node 1) group 7 true ∷ [])
        (came 1101 (node 1) group 5 true) ≡ Some Reboot }
{}

/// A book that was never full holds the newest of the messages so far that count, and tells of each message
/// what these show. It is never full while they are no more than its limit.
pub fn a_book_tells_what_the_messages_show()
    ensures kept { (limit overtake : ℕ) (messages : List SdMessage) (sender destination : Ipv4Addr)
        → (sessions_of limit overtake messages).told_full ≡ false
        → finite.get (sessions_of limit overtake messages).last (sender, destination)
        ≡ last_in overtake messages sender destination }
    ensures told { (limit overtake : ℕ) (messages : List SdMessage) (message : SdMessage)
        → (sessions_of limit overtake (message ∷ messages)).told_full ≡ false
        → told_by message (sessions_of limit overtake messages) ≡ shown_after overtake messages message }
    ensures room { (limit overtake : ℕ) (messages : List SdMessage) → length messages ≤ limit
        → (sessions_of limit overtake messages).told_full ≡ false }
{}

/// That a book is full is told once in its life.
pub fn full_is_told_once()
    ensures notes { (message : SdMessage) (book : Sessions) → told_by message book ≡ Some Full
        → (book.told_full ≡ false) × ((sessions_after message book).told_full ≡ true) }
    ensures stays { (message : SdMessage) (book : Sessions) → book.told_full ≡ true
        → (sessions_after message book).told_full ≡ true }
    ensures tells { (message : SdMessage) (book : Sessions) → has_session message.stamp ≡ true
        → may_hold book.limit book.last (message.from, message.to) ≡ false → book.told_full ≡ false
        → told_by message book ≡ Some Full }
{}

/// A reboot, a session that is not the next one, and that a message was overtaken, are told exactly where their
/// reasons in plain words hold. What the messages give as the last of a sender to a destination is one among
/// them that counts, since which none that counts came, and no other showed that the sender began again.
pub fn each_finding_has_its_reason()
    ensures overtaken { (overtake : ℕ) (stamp : Stamp) (message : SdMessage) (messages : List SdMessage)
        → (shown_after overtake messages message ≡ Some (Overtaken stamp))
        ↔ IsOvertaken overtake stamp message messages }
    ensures reboot { (overtake : ℕ) (message : SdMessage) (messages : List SdMessage)
        → (shown_after overtake messages message ≡ Some Reboot) ↔ IsReboot overtake message messages }
    ensures not_next { (overtake : ℕ) (stamp expected : Stamp) (message : SdMessage)
        (messages : List SdMessage) → (shown_after overtake messages message ≡ Some (NotNext stamp expected))
        ↔ IsNotNext overtake stamp expected message messages }
    ensures last { (overtake : ℕ) (sender destination : Ipv4Addr) (last : Last) (messages : List SdMessage)
        → (last_in overtake messages sender destination ≡ Some last)
        ↔ IsLast overtake sender destination last messages }
{}
