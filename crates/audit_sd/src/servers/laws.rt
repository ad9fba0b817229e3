//! Laws of the definitions behind the contracts. Each is the contract of a function that does nothing:
//! it says what a recording shows of servers, whatever code keeps the book.
ghost use Rattle.std.specs.Prelude.{◌≡◌, ◌↔◌, ℕ, List, [], ◌∷◌, true, false, Some, None};
ghost use Rattle.std.specs.FinMap as finite;
ghost use Rattle.someip_tables.specs.hashed.Rooms.{may_hold};
ghost use Rattle.audit_sd.specs.declared.servers.finding.Finding.TheVariants.{Interface, NotOffered};
ghost use Rattle.audit_sd.specs.declared.servers.key.ServerKey.{ServerKey};
ghost use Rattle.audit_sd.specs.declared.servers.message.ServerMessage.{ServerMessage};
ghost use Rattle.audit_sd.specs.declared.servers.offer.ServerOffer.{ServerOffer};
ghost use Rattle.audit_sd.specs.servers.ServerTables.{ServerTable, after_offer, tells_full, told_by};
ghost use Rattle.audit_sd.specs.servers.ServerHistories.{Event, Shown, book_after, book_of, server_in, shown_by};
ghost use Rattle.audit_sd.specs.servers.ServerReasons.{IsNotOffered, IsOfVersion};
ghost use Rattle.audit_sd.specs.servers.ServerExamples.{asks_it, begins_again, ends_it, offers_it, other, request};

/// Which messages have another Interface Version than their server, by example. Node 1 offers instance 1
/// with major version 1 at moment 100 for 3 seconds. The newest event is first.
pub fn messages_have_the_version_of_their_server()
    ensures another { shown_by (offers_it 100 1 1 1 3 ∷ []) 200 (request 1 2) ≡ Some (Interface 1) }
    ensures same { shown_by (offers_it 100 1 1 1 3 ∷ []) 200 (request 1 1) ≡ None }
    // An answer, an event and a REQUEST_NO_RETURN are judged as well.
    ensures no_request { shown_by (offers_it 100 1 1 1 3 ∷ []) 200 (other 1 2) ≡ Some (Interface 1) }
    ensures unknown { shown_by [] 200 (request 1 2) ≡ None }
    ensures other_node { shown_by (offers_it 100 1 1 1 3 ∷ []) 200 (request 2 2) ≡ None }
    // The newest Offer counts, whatever its instance.
    ensures newest { shown_by (offers_it 150 1 2 2 3 ∷ offers_it 100 1 1 1 3 ∷ []) 200 (request 1 1)
        ≡ Some (Interface 2) }
    ensures until { shown_by (offers_it 100 1 1 1 3 ∷ []) 3099 (other 1 2) ≡ Some (Interface 1) }
    ensures passed { shown_by (offers_it 100 1 1 1 3 ∷ []) 3100 (other 1 2) ≡ None }
    ensures forever { shown_by (offers_it 100 1 1 1 0xFFFFFF ∷ []) 99999999999 (other 1 2)
        ≡ Some (Interface 1) }
    ensures stopped { shown_by (ends_it 150 1 1 1 ∷ offers_it 100 1 1 1 3 ∷ []) 200 (other 1 2) ≡ None }
{}

/// Which REQUESTs go to a server that is not offered, by example: the first after its TTL has passed, or
/// after a StopOffer, until it is offered again.
pub fn requests_go_to_ended_servers()
    ensures before { shown_by (offers_it 100 1 1 1 3 ∷ []) 3099 (request 1 1) ≡ None }
    ensures expired { shown_by (offers_it 100 1 1 1 3 ∷ []) 3100 (request 1 1) ≡ Some NotOffered }
    ensures forever { shown_by (offers_it 100 1 1 1 0xFFFFFF ∷ []) 99999999999 (request 1 1) ≡ None }
    ensures stopped { shown_by (ends_it 150 1 1 1 ∷ offers_it 100 1 1 1 3 ∷ []) 200 (request 1 1)
        ≡ Some NotOffered }
    // Whatever its Interface Version is, this is all that is told.
    ensures other_version { shown_by (ends_it 150 1 1 1 ∷ offers_it 100 1 1 1 3 ∷ []) 200 (request 1 2)
        ≡ Some NotOffered }
    ensures no_request { shown_by (ends_it 150 1 1 1 ∷ offers_it 100 1 1 1 3 ∷ []) 200 (other 1 1) ≡ None }
    ensures once { shown_by (asks_it 160 1 ∷ ends_it 150 1 1 1 ∷ offers_it 100 1 1 1 3 ∷ []) 200
        (request 1 1) ≡ None }
    ensures again { shown_by (ends_it 180 1 1 1 ∷ offers_it 170 1 1 1 3 ∷ asks_it 160 1 ∷ ends_it 150 1 1 1
        ∷ offers_it 100 1 1 1 3 ∷ []) 200 (request 1 1) ≡ Some NotOffered }
    ensures offered_again { shown_by (offers_it 170 1 1 1 3 ∷ ends_it 150 1 1 1 ∷ offers_it 100 1 1 1 3 ∷ [])
        200 (request 1 1) ≡ None }
    // A StopOffer of another instance or major version ends nothing there.
    ensures other_instance { shown_by (ends_it 150 1 2 1 ∷ offers_it 100 1 1 1 3 ∷ []) 200 (request 1 1)
        ≡ None }
    ensures other_major { shown_by (ends_it 150 1 1 2 ∷ offers_it 100 1 1 1 3 ∷ []) 200 (request 1 1) ≡ None }
    ensures other_node { shown_by (ends_it 150 2 1 1 ∷ offers_it 100 1 1 1 3 ∷ []) 200 (request 1 1) ≡ None }
    // After a reboot of the sender of the newest Offer nothing is known, and of another node it changes nothing.
    ensures rebooted { shown_by (begins_again 160 1 ∷ ends_it 150 1 1 1 ∷ offers_it 100 1 1 1 3 ∷ []) 200
        (request 1 1) ≡ None }
    ensures other_reboot { shown_by (begins_again 160 2 ∷ ends_it 150 1 1 1 ∷ offers_it 100 1 1 1 3 ∷ []) 200
        (request 1 1) ≡ Some NotOffered }
    ensures unknown { shown_by [] 200 (request 1 1) ≡ None }
{}

/// A book that was never full knows of each server what the events so far show, and tells of each message
/// what these do.
pub fn a_book_tells_what_the_events_show()
    ensures known { (limit : ℕ) (events : List Event) (key : ServerKey)
        → (book_of limit events).told_full ≡ false
        → finite.get (book_of limit events).known key ≡ server_in events key }
    ensures told { (limit : ℕ) (events : List Event) (now : ℕ) (message : ServerMessage)
        → (book_of limit events).told_full ≡ false
        → told_by now message (book_of limit events) ≡ shown_by events now message }
{}

/// That a book is full is told once in its life, at the first Offer of a server that it has no room for.
pub fn full_is_told_once()
    ensures notes { (now : ℕ) (offer : ServerOffer) (book : ServerTable) → tells_full offer book ≡ true
        → (book.told_full ≡ false) × ((after_offer now offer book).told_full ≡ true) }
    ensures stays { (now : ℕ) (shown : Shown) (book : ServerTable) → book.told_full ≡ true
        → (book_after now shown book).told_full ≡ true }
    ensures tells { (offer : ServerOffer) (book : ServerTable)
        → may_hold book.limit book.known offer.server ≡ false → book.told_full ≡ false
        → tells_full offer book ≡ true }
{}

/// What a message shows of its server is told exactly where its reason in plain words holds.
pub fn each_finding_has_its_reason()
    ensures interface { (now : ℕ) (message : ServerMessage) (expected : ℕ) (events : List Event)
        → (shown_by events now message ≡ Some (Interface expected))
        ↔ IsOfVersion now message expected events }
    ensures not_offered { (now : ℕ) (message : ServerMessage) (events : List Event)
        → (shown_by events now message ≡ Some NotOffered) ↔ IsNotOffered now message events }
{}
