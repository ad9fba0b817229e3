//! Laws of the definitions behind the contracts, over all messages of a recording. Each is the contract
//! of a function that does nothing.
//!
//! A book stands for the messages that it saw, as long as it refused no call for want of room. What it
//! tells then is what the messages say: [`a_book_stands_for_its_messages`]. And what they say, each kind
//! of finding by itself, is the other laws.
ghost use Rattle.std.specs.Prelude.{◌≡◌, ◌↔◌, ◌<◌, ◌≤◌, ℕ, List, [], ◌∷◌, true, false, Some, None};
ghost use Rattle.audit_traffic.specs.declared.calls.call.AuditedCall.{AuditedCall};
ghost use Rattle.audit_traffic.specs.declared.calls.finding.CallFinding.TheVariants.{KeyReused, Late, Repeated, Unasked};
ghost use Rattle.audit_traffic.specs.declared.calls.finding.CallRules.{CallRules};
ghost use Rattle.audit_traffic.specs.declared.calls.finding.Unanswered.{Unanswered};
ghost use Rattle.audit_traffic.specs.declared.calls.known.Known.TheVariants.{Open, Answered};
ghost use Rattle.audit_traffic.specs.declared.calls.known.OpenCall.{OpenCall};
ghost use Rattle.audit_traffic.specs.calls.CallBooks.{Book, new_book, told, book_after};
ghost use Rattle.audit_traffic.specs.calls.BookHistory.{StandsFor, finds_room};
ghost use Rattle.audit_traffic.specs.calls.CallFindings.{IsOpenBy, IsAnsweredBy};
ghost use Rattle.audit_traffic.specs.calls.CallFindings.{IsReuse, IsLate, IsRepeat, IsUnasked};
ghost use Rattle.audit_traffic.specs.calls.CallHistory.{known_of, told_after};
ghost use Rattle.audit_traffic.specs.calls.Overdue.{IsOpenCall, calls_after_due};
ghost use Rattle.audit_traffic.specs.calls.Tapped.{Tapped};

/// A new book stands for no messages. One that stands for some and then sees another one, no earlier
/// and with room for it, stands for these, and tells what they say; and one that falls due stands for
/// the same messages.
pub fn a_book_stands_for_its_messages()
    ensures new { (rules : CallRules) (latest : ℕ) → StandsFor latest (new_book rules) [] }
    ensures saw { (book : Book) (latest : ℕ) (message : Tapped) (past : List Tapped)
        → latest ≤ message.now → finds_room message book ≡ true → StandsFor latest book past
        → StandsFor message.now (book_after message book) (message ∷ past) }
    ensures told { (book : Book) (latest : ℕ) (message : Tapped) (past : List Tapped)
        → latest ≤ message.now → finds_room message book ≡ true → book.full ≡ false
        → StandsFor latest book past → told message book ≡ told_after book.rules message past }
    ensures due { (book : Book) (latest now : ℕ) (unanswered : Unanswered) (past : List Tapped)
        → latest ≤ now → IsOpenCall book.calls unanswered → unanswered.until ≤ now
        → StandsFor latest book past → StandsFor now (record book {
          calls = calls_after_due book.rules.limit now (Some unanswered) book.calls;
        }) past }
    ensures none_due { (book : Book) (latest now : ℕ) (past : List Tapped) → latest ≤ now
        → ((other : Unanswered) → IsOpenCall book.calls other → now < other.until)
        → StandsFor latest book past → StandsFor now (record book {
          calls = calls_after_due book.rules.limit now None book.calls;
        }) past }
{}

/// A call stands open exactly where its REQUEST is among the messages and nothing came about it since
/// but REQUESTs that say the same, before its deadline. So a call that is told as unanswered had no
/// answer before its deadline, and its key was not used for anything else.
pub fn an_open_call_had_no_answer()
    ensures { (call : AuditedCall) (open_call : OpenCall) (past : List Tapped)
        → (known_of call past ≡ Some (Open open_call)) ↔ IsOpenBy call open_call past }
{}

/// A call stands answered exactly where its first answer is among the messages and nothing came about
/// it since but more answers, for as long as an answer may take.
pub fn an_answered_call_had_its_first_answer()
    ensures { (call : AuditedCall) (until : ℕ) (past : List Tapped)
        → (known_of call past ≡ Some (Answered until)) ↔ IsAnsweredBy call until past }
{}

/// What is told of a message after others, kind by kind.
pub fn each_finding_has_its_reason()
    ensures reused { (rules : CallRules) (message : Tapped) (past : List Tapped)
        → (told_after rules message past ≡ Some KeyReused) ↔ IsReuse message past }
    ensures late { (rules : CallRules) (message : Tapped) (past : List Tapped) (after : ℕ)
        → (told_after rules message past ≡ Some (Late after)) ↔ IsLate after message past }
    ensures repeated { (rules : CallRules) (message : Tapped) (past : List Tapped)
        → (told_after rules message past ≡ Some Repeated) ↔ IsRepeat message past }
    ensures unasked { (rules : CallRules) (message : Tapped) (past : List Tapped)
        → (told_after rules message past ≡ Some Unasked) ↔ IsUnasked rules message past }
{}
