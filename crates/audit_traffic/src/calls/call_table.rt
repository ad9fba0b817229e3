//! The calls that are known, in two tables: those that have no answer, and those that were answered.
ghost use Rattle.std.specs.Prelude.{◌≡◌, ◌≢◌, ◌≤◌, true, Some, None, is_some, OnErr, OnOk, IfNone, IfSome};
ghost use Rattle.std.specs.FinMap as finite;
ghost use Rattle.someip_tables.specs.Retained.{kept_if, retain};
ghost use Rattle.someip_tables.specs.Tables.{map_of};
ghost use Rattle.someip_tables.specs.hashed.Dues.{IsFirstDue};
ghost use Rattle.audit_traffic.specs.calls.AuditedCalls.{call_cmp};
ghost use Rattle.audit_traffic.specs.calls.KnownCalls.{waits_of};
ghost use Rattle.audit_traffic.specs.calls.Overdue.{still_known};
ghost use Rattle.audit_traffic.specs.calls.CallTables.{is_open, is_still_known, known_answered, known_asked, open_of, unless_answered, waiting_of};
ghost use Rattle.audit_traffic.specs.declared.calls.call.AuditedCall.{AuditedCall};
ghost use Rattle.audit_traffic.specs.declared.calls.call_table.Answered.{Answered};
ghost use Rattle.audit_traffic.specs.declared.calls.known.Known.TheVariants as known;

use crate::calls::call::AuditedCall;
use crate::calls::known::{Known, OpenCall};
use someip_tables::Waits;
use someip_tables::hashed::{Due, DueTable};
use std::alloc::{AllocError, Global};
use std::marker::Model;

/// What is known of a call without an answer.
#[derive(Clone, Copy)]
enum Asked {
    /// It waits for its answer.
    Waiting(OpenCall),
    /// It was told as unanswered, and its REQUEST was at this moment, in milliseconds.
    Told(u64),
}

impl Asked {
    /// What is known of the call.
    fn known(self) -> Known
        ensures { result ≡ known_asked self }
    {
        match self {
            Asked::Waiting(call) => Known::Open(call),
            Asked::Told(since) => Known::Overdue(since),
        }
    }

    /// The call, if it waits for its answer.
    fn waiting(self) -> Option<OpenCall>
        ensures { result ≡ waiting_of self }
    {
        match self {
            Asked::Waiting(call) => Some(call),
            Asked::Told(_) => None,
        }
    }
}

/// What is known of a call with an answer: it is known until this moment, in milliseconds.
#[derive(Clone, Copy)]
struct Answered(u64);

impl Waits for Asked {
    ghost use Rattle.audit_traffic.specs.calls.CallTables.{asked_waits};

    ghost moment = { asked_waits };

    fn waits_for(&self) -> Option<u64> {
        match self {
            Asked::Waiting(call) => Some(call.until),
            Asked::Told(_) => None,
        }
    }
}

impl Waits for Answered {
    ghost use Rattle.audit_traffic.specs.calls.CallTables.{answered_waits};

    ghost moment = { answered_waits };

    fn waits_for(&self) -> Option<u64> {
        Some(self.0)
    }
}

/// The calls that are known. Those that were answered stand apart: they are many, since each is known for
/// as long as an answer may take, and little is kept of them, while few wait for an answer. They stand in the
/// order in which they are let go, where room is wanted.
#[derive(Drop)]
pub(crate) struct CallTable {
    asked: DueTable<AuditedCall, Asked>,
    answered: DueTable<AuditedCall, Answered>,
}

impl Model for CallTable {
    ghost use Rattle.std.specs.FinMap as finite;
    ghost use Rattle.someip_tables.specs.Tables.{map_of};
    ghost use Rattle.audit_traffic.specs.calls.AuditedCalls.{call_cmp};
    ghost use Rattle.audit_traffic.specs.calls.CallBooks.{Calls};
    ghost use Rattle.audit_traffic.specs.calls.CallCodes.{coded_call, coded_known};
    ghost use Rattle.audit_traffic.specs.calls.CallTables.{AreApart, all_calls};

    ghost Value = { Calls };

    ghost coded = { finite.code coded_call coded_known };

    ghost view = { λ t. all_calls (map_of call_cmp t.asked) (map_of call_cmp t.answered) };

    ghost invariant = { λ t. AreApart (map_of call_cmp t.asked) (map_of call_cmp t.answered) };
}

impl CallTable {
    /// A table without a call. It takes no memory.
    pub(crate) fn new(alloc: Global) -> CallTable
        ensures { result ≡ finite.empty }
    {
        CallTable {
            asked: DueTable::new(alloc),
            answered: DueTable::new(alloc),
        }
    }

    /// How many calls are known, which are no more than this limit.
    pub(crate) fn len(&self, limit: usize) -> usize
        requires { finite.len self.now ≤ limit }
        ensures { result ≡ finite.len self.now }
    {
        self.asked.len() + self.answered.len()
    }

    /// What is known of a call.
    pub(crate) fn get(&self, call: &AuditedCall) -> Option<Known>
        ensures { result ≡ finite.get self.now call.now }
    {
        match self.asked.get(call) {
            Some(asked) => Some(asked.known()),
            None => match self.answered.get(call) {
                Some(answered) => Some(Known::Answered(answered.0)),
                None => None,
            },
        }
    }

    /// What is known of a call, if it has no answer. It looks at these calls alone, which are few.
    pub(crate) fn unanswered(&self, call: &AuditedCall) -> Option<Known>
        ensures { result ≡ unless_answered (finite.get self.now call.now) }
    {
        match self.asked.get(call) {
            Some(asked) => Some(asked.known()),
            None => None,
        }
    }

    /// A call, if it is open.
    pub(crate) fn open_call(&self, call: &AuditedCall) -> Option<OpenCall>
        ensures { result ≡ open_of (finite.get self.now call.now) }
    {
        match self.asked.get(call) {
            Some(asked) => asked.waiting(),
            None => None,
        }
    }

    /// Takes note of what is known of a call, in place of what was. What is refused because memory ran
    /// out leaves the table as it was, and memory is taken only where something else was known.
    pub(crate) fn insert(&mut self, call: AuditedCall, known: Known) -> Result<(), AllocError>
        ensures ok { OnOk result (self.new ≡ finite.insert self.old call known) }
        ensures err { OnErr result (self.new ≡ self.old) }
        ensures grows { OnErr result (finite.get self.old call ≢ Some known) }
    {
        match known {
            Known::Open(open_call) => self.ask(call, Asked::Waiting(open_call)),
            Known::Overdue(since) => self.ask(call, Asked::Told(since)),
            Known::Answered(until) => self.answer(call, Answered(until)),
        }
    }

    /// Puts a call among those without an answer.
    fn ask(&mut self, call: AuditedCall, asked: Asked) -> Result<(), AllocError>
        ensures ok { OnOk result (self.new ≡ finite.insert self.old call (known_asked asked)) }
        ensures err { OnErr result (self.new ≡ self.old) }
        ensures grows { OnErr result (finite.get self.old call ≢ Some (known_asked asked)) }
    {
        self.asked.insert(call, asked)?;
        self.answered.remove(&call);
        Ok(())
    }

    /// Puts a call among those that were answered.
    fn answer(&mut self, call: AuditedCall, answered: Answered) -> Result<(), AllocError>
        ensures ok { OnOk result (self.new ≡ finite.insert self.old call (known_answered answered)) }
        ensures err { OnErr result (self.new ≡ self.old) }
        ensures grows { OnErr result (finite.get self.old call ≢ Some (known_answered answered)) }
    {
        self.answered.insert(call, answered)?;
        self.asked.remove(&call);
        Ok(())
    }

    /// Takes note that an open call was told. It takes no memory.
    pub(crate) fn tell(&mut self, call: AuditedCall, since: u64)
        requires { is_open (finite.get self.old call) ≡ true }
        ensures { self.new ≡ finite.insert self.old call (known.Overdue since) }
    {
        let _ = self.asked.insert(call, Asked::Told(since));
    }

    /// Lets those go of which nothing is known any more at a moment. It looks at these alone, and takes no
    /// memory.
    pub(crate) fn let_go(&mut self, now: u64)
        ensures { self.new ≡ still_known now self.old }
    {
        let_all_go(&mut self.answered, now);
    }

    /// The call whose moment comes first, by moment and then by call, if one waits for any.
    pub(crate) fn first_due(&self) -> Option<Due<AuditedCall>>
        ensures { IsFirstDue waits_of self.now result }
    {
        self.asked.first_due()
    }
}

/// Lets those that were answered go of which nothing is known any more.
fn let_all_go(answered: &mut DueTable<AuditedCall, Answered>, now: u64)
    ensures { map_of call_cmp answered.new
        ≡ retain (map_of call_cmp answered.old) (λ _ what. is_still_known now what) }
{
    while let Some(call) = first_to_go(answered, now) {
        answered.remove(&call);
    }
}

/// The call that was answered of which nothing is known any more for the longest time, if there is one.
fn first_to_go(answered: &DueTable<AuditedCall, Answered>, now: u64) -> Option<AuditedCall>
    ensures there { IfSome result (λ call. is_some (finite.get (map_of call_cmp answered.now) call) ≡ true) }
    ensures gone { IfSome result (λ call.
        kept_if (is_still_known now) (finite.get (map_of call_cmp answered.now) call) ≡ None) }
    ensures none { IfNone result ((call : AuditedCall) (what : Answered)
        → finite.get (map_of call_cmp answered.now) call ≡ Some what → is_still_known now what ≡ true) }
{
    let due = answered.first_due()?;
    if due.at <= now { Some(due.key) } else { None }
}
