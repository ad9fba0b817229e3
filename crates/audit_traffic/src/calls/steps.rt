//! What a message makes of the calls that are known, and which of them are due.
ghost use Rattle.std.specs.Prelude.{◌≡◌, ◌≢◌, ◌≤◌, ◌<◌, ◌+◌, true, nat_lt, ◌||◌, is_some};
ghost use Rattle.std.specs.Prelude.{if◌then◌else◌, Some, None, IfOk, IfSome, IfNone, OnErr, OnOk, ℕ};
ghost use Rattle.std.specs.FinMap as finite;
ghost use Rattle.std.specs.Option.{option_and_then};
ghost use Rattle.std.specs.Ordering.{is_le};
ghost use Rattle.someip_tables.specs.Tables.{map_of};
ghost use Rattle.someip_tables.specs.hashed.Dues.{IsFirstDue};
ghost use Rattle.someip_tables.specs.hashed.Rooms.{may_hold};
ghost use Rattle.audit_traffic.specs.calls.AuditedCalls.{call_cmp};
ghost use Rattle.audit_traffic.specs.calls.KnownCalls.{waits_of, told_of_request, known_by_request};
ghost use Rattle.audit_traffic.specs.calls.KnownCalls.{told_of_answer, known_by_answer};
ghost use Rattle.audit_traffic.specs.calls.CallBooks.{known, may_be_asked, with_known};
ghost use Rattle.audit_traffic.specs.calls.CallTables.{unless_answered};
ghost use Rattle.audit_traffic.specs.calls.Overdue.{IsOpenCall, told_cmp, calls_after_due, with_room};
ghost use Rattle.audit_traffic.specs.declared.calls.call.AuditedCall.{AuditedCall};
ghost use Rattle.audit_traffic.specs.declared.calls.finding.Unanswered.{Unanswered};
ghost use Rattle.audit_traffic.specs.declared.calls.finding.CallFinding.TheVariants.{Full};
ghost use Rattle.audit_traffic.specs.declared.calls.known.OpenCall.{OpenCall};

use crate::calls::call::AuditedCall;
use crate::calls::call_table::CallTable;
use crate::calls::finding::{CallFinding, CallRules, Unanswered};
use crate::calls::known::{Known, OpenCall, known_at};
use someip_tables::Moment;
use someip_tables::hashed::Due;
use std::alloc::AllocError;

/// Takes note of a REQUEST that would open its call so, and says what it shows.
pub(crate) fn on_request(
    calls: &mut CallTable,
    rules: &CallRules,
    full: &mut bool,
    call: AuditedCall,
    opened: OpenCall,
) -> Result<Option<CallFinding>, AllocError>
    requires few { finite.len calls.old ≤ rules.now.limit }
    ensures told { IfOk result (λ finding. finding
        ≡ (if may_hold rules.now.limit calls.old call
        then told_of_request call.session opened (known opened.since calls.old call)
        else if full.old then None else Some Full)) }
    ensures after { OnOk result (calls.new
        ≡ (if may_hold rules.now.limit calls.old call
        then finite.insert calls.old call
        (known_by_request opened (known opened.since calls.old call))
        else calls.old)) }
    ensures full { full.new ≡ (if may_hold rules.now.limit calls.old call
        then full.old else true) }
    ensures room { OnErr result (may_hold rules.now.limit calls.old call ≡ true) }
    ensures grows { OnErr result (finite.insert calls.old call
        (known_by_request opened (known opened.since calls.old call))
        ≢ calls.old) }
    ensures unchanged { OnErr result (calls.new ≡ calls.old) }
{
    let before = calls.unanswered(&call);
    if !has_room(calls, &call, before, rules.limit) {
        let told = if *full { None } else { Some(CallFinding::Full) };
        *full = true;
        return Ok(told);
    }
    let before = known_at(opened.since, before);
    let (told, known) = judge_request(before, call.session, opened);
    calls.insert(call, known)?;
    Ok(told)
}

/// Whether there is room for a call, of which this is known if it has no answer: it is held, or fewer are
/// held than the limit.
fn has_room(calls: &CallTable, call: &AuditedCall, before: Option<Known>, limit: usize) -> bool
    requires few { finite.len calls.now ≤ limit }
    requires before { before ≡ unless_answered (finite.get calls.now call.now) }
    ensures { result ≡ may_hold limit calls.now call.now }
{
    before.is_some() || calls.len(limit) < limit || calls.get(call).is_some()
}

/// What is told of a REQUEST, by what is known of its call, and what is known of it then.
fn judge_request(
    known: Option<Known>,
    session: u16,
    opened: OpenCall,
) -> (Option<CallFinding>, Known)
    ensures told { result.0 ≡ told_of_request session opened known }
    ensures known { result.1 ≡ known_by_request opened known }
{
    match known {
        Some(Known::Open(call)) if call.excerpt == opened.excerpt => (None, Known::Open(call)),
        Some(Known::Open(_)) if session != 0 => {
            (Some(CallFinding::KeyReused), Known::Open(opened))
        }
        _ => (None, Known::Open(opened)),
    }
}

/// Takes note of an answer to a call, and says what it shows.
pub(crate) fn on_answer(
    calls: &mut CallTable,
    rules: &CallRules,
    answer_ms: u32,
    full: bool,
    call: AuditedCall,
    now: Moment,
) -> Result<Option<CallFinding>, AllocError>
    ensures told { IfOk result (λ finding. finding ≡ told_of_answer
        (may_be_asked rules.now answer_ms full now) now (known now calls.old call)) }
    ensures after { OnOk result (calls.new ≡ with_known call
        (known_by_answer (now + answer_ms) (known now calls.old call))
        calls.old) }
    ensures grows { OnErr result (with_known call
        (known_by_answer (now + answer_ms) (known now calls.old call))
        calls.old ≢ calls.old) }
    ensures unchanged { OnErr result (calls.new ≡ calls.old) }
{
    let held = calls.get(&call);
    let before = known_at(now.as_millis(), held);
    let told = told_of_answer(before, may_be_asked(rules, answer_ms, full, now), now);
    if let Some(known) = known_by_answer(before, answer_ms, now) {
        calls.insert(call, known)?;
    }
    Ok(told)
}

/// What is told of an answer, by what is known of its call.
fn told_of_answer(known: Option<Known>, may_be_asked: bool, now: Moment) -> Option<CallFinding>
    ensures { result ≡ told_of_answer may_be_asked now known }
{
    match known {
        None if may_be_asked => None,
        None => Some(CallFinding::Unasked),
        Some(Known::Open(_)) => None,
        Some(Known::Overdue(since)) => Some(CallFinding::Late(
            now.as_millis().saturating_sub(since),
        )),
        Some(Known::Answered(_)) => Some(CallFinding::Repeated),
    }
}

/// What is known of its call then.
fn known_by_answer(known: Option<Known>, answer_ms: u32, now: Moment) -> Option<Known>
    ensures { result ≡ known_by_answer (now + answer_ms) known }
{
    match known? {
        Known::Open(_) | Known::Overdue(_) => Some(Known::Answered(
            now.as_millis() + u64::from(answer_ms),
        )),
        Known::Answered(until) => Some(Known::Answered(until)),
    }
}

/// Whether a call of which nothing is known may have been asked: before the recording began, or with no
/// room for it.
fn may_be_asked(rules: &CallRules, answer_ms: u32, full: bool, now: Moment) -> bool
    ensures { result ≡ may_be_asked rules.now answer_ms full now }
{
    now.as_millis() < rules.begins.as_millis() + u64::from(answer_ms) || full
}

/// The open call whose deadline comes first, if it has come. Makes room for the calls of a datagram.
pub(crate) fn next_overdue(calls: &mut CallTable, limit: usize, now: Moment) -> Option<Unanswered>
    requires few { finite.len calls.old ≤ limit }
    ensures open { IfSome result (λ told. IsOpenCall calls.old told) }
    ensures passed { IfSome result (λ told. told.until ≤ now) }
    ensures first { IfSome result (λ told. (other : Unanswered)
        → IsOpenCall calls.old other → is_le (told_cmp told other) ≡ true) }
    ensures none { IfNone result ((other : Unanswered)
        → IsOpenCall calls.old other → now < other.until) }
    ensures after { calls.new ≡ calls_after_due limit now result calls.old }
    ensures no_more { finite.len calls.new ≤ finite.len calls.old }
{
    let Some(due) = first_due_by(calls, now) else {
        make_room(calls, limit, now.as_millis());
        return None;
    };
    let call = calls.open_call(&due.key)?;
    make_room(calls, limit, due.at);
    calls.tell(due.key, call.since);
    Some(Unanswered {
        call: due.key,
        numbers: call.numbers,
        since: call.since,
        until: call.until,
    })
}

/// As many messages as a datagram may have, and some more.
const MOST_MESSAGES: usize = 4096;

/// Makes room for the calls of a datagram, where there is not so much.
fn make_room(calls: &mut CallTable, limit: usize, now: u64)
    requires few { finite.len calls.old ≤ limit }
    ensures { calls.new ≡ with_room limit now calls.old }
{
    if limit - calls.len(limit) < MOST_MESSAGES {
        calls.let_go(now);
    }
}

/// The call whose moment comes first, if it has come.
fn first_due_by(calls: &CallTable, now: Moment) -> Option<Due<AuditedCall>>
    ensures first { IfSome result (λ due. IsFirstDue waits_of calls.now (Some due)) }
    ensures come { IfSome result (λ due. due.at ≤ now) }
    ensures none { IfNone result ((call : AuditedCall) (at : ℕ)
        → option_and_then waits_of (finite.get calls.now call) ≡ Some at → now < at) }
{
    match calls.first_due() {
        Some(due) => {
            if due.at <= now.as_millis() {
                Some(due)
            } else {
                None
            }
        }
        None => None,
    }
}
