//! The calls of a recording that are known, and what is told of them.
ghost use Rattle.std.specs.Prelude.{◌≡◌, ◌≢◌, ◌≤◌, ◌<◌, true, IfOk, IfSome, IfNone, OnErr, OnOk};
ghost use Rattle.std.specs.FinMap as finite;
ghost use Rattle.std.specs.Ordering.{is_le};
ghost use Rattle.someip_tables.specs.Tables.{map_of};
ghost use Rattle.someip_tables.specs.Waits.{HoldsFrom, due_by};
ghost use Rattle.audit_traffic.specs.calls.AuditedCalls.{call_cmp};
ghost use Rattle.audit_traffic.specs.calls.KnownCalls.{waits_of};
ghost use Rattle.audit_traffic.specs.calls.Tapped.{tapped, open_with};
ghost use Rattle.audit_traffic.specs.calls.CallBooks.{new_book, told, book_after};
ghost use Rattle.audit_traffic.specs.calls.Overdue.{IsOpenCall, told_cmp, calls_after_due};
ghost use Rattle.audit_traffic.specs.declared.calls.finding.Unanswered.{Unanswered};

use crate::calls::call::AuditedCall;
use crate::calls::call_table::CallTable;
use crate::calls::excerpt::Excerpt;
use crate::calls::finding::{CallFinding, CallRules, Unanswered};
use crate::calls::known::OpenCall;
use crate::calls::steps::{next_overdue, on_answer, on_request};
use someip_tables::Moment;
use someip_tables::hashed::Numbers;
use someip_wire::{Message, MessageType};
use std::alloc::{AllocError, Global};
use std::marker::Model;
use std::net::SocketAddrV4;

/// The calls of a recording that are known: those that wait for their answer, those that were told as
/// unanswered, until their key is used again, and those that were answered, for as long as an answer
/// may take.
///
/// Whoever goes over a recording calls [`CallBook::due`] until it tells nothing, with the moment of each
/// datagram, and then [`CallBook::saw`] with its whole messages. A message is judged by the deadlines
/// themselves: a call whose deadline has come is overdue, whether `due` told it or not, and one that
/// `saw` changes first is not told by `due`.
#[derive(Drop)]
pub struct CallBook {
    rules: CallRules,
    calls: CallTable,
    full: bool,
}

impl Model for CallBook {
    ghost use Rattle.std.specs.Prelude.{◌≤◌};
    ghost use Rattle.std.specs.FinMap as finite;
    ghost use Rattle.someip_tables.specs.Tables.{map_of};
    ghost use Rattle.audit_traffic.specs.calls.AuditedCalls.{call_cmp};
    ghost use Rattle.audit_traffic.specs.calls.CallBooks.{Book};
    ghost use Rattle.audit_traffic.specs.calls.CallCodes.{coded_book};

    ghost Value = { Book };

    ghost coded = { coded_book };

    ghost view = { λ b. record { rules = b.rules; calls = b.calls; full = b.full } };

    ghost invariant = { λ b. finite.len b.calls ≤ b.rules.limit };
}

impl CallBook {
    /// A book that saw nothing. It takes no memory.
    pub fn new(alloc: Global, rules: CallRules) -> CallBook
        ensures { result ≡ new_book rules }
    {
        CallBook {
            rules,
            calls: CallTable::new(alloc),
            full: false,
        }
    }

    /// How many calls are held: no more than the limit. Among them may be such as were answered and are
    /// no longer known, until [`CallBook::due`] lets them go, where room is wanted.
    pub fn len(&self) -> usize
        ensures count { result ≡ finite.len self.now.calls }
        ensures few { result ≤ self.now.rules.limit }
    {
        self.calls.len(self.rules.limit)
    }

    /// Takes note of a whole message of the datagram with these numbers, and says what it shows that is not
    /// as it should be. An answer to it, or to its call, may take so many milliseconds. A message whose type has the TP flag is nothing to it: segments are put together
    /// before. It takes memory only where it changes what is known, and what is refused for it leaves
    /// the book as it was.
    pub fn saw(
        &mut self,
        now: Moment,
        answer_ms: u32,
        numbers: Numbers,
        from: SocketAddrV4,
        to: SocketAddrV4,
        message: &Message<'_>,
    ) -> Result<Option<CallFinding>, AllocError>
        ensures told { IfOk result (λ finding.
            finding ≡ told (tapped now answer_ms numbers from to message.now) self.old) }
        ensures after { OnOk result
            (self.new ≡ book_after (tapped now answer_ms numbers from to message.now) self.old) }
        ensures grows { OnErr result
            (book_after (tapped now answer_ms numbers from to message.now) self.old ≢ self.old) }
        ensures unchanged { OnErr result (self.new ≡ self.old) }
    {
        match message.header.kind {
            MessageType::Request => {
                let call = AuditedCall::asked(from, to, &message.header);
                let opened = opened(answer_ms, now, numbers, message.payload);
                on_request(&mut self.calls, &self.rules, &mut self.full, call, opened)
            }
            MessageType::Response | MessageType::Error => {
                let call = AuditedCall::answered(from, to, &message.header);
                on_answer(
                    &mut self.calls,
                    &self.rules,
                    answer_ms,
                    self.full,
                    call,
                    now,
                )
            }
            _ => Ok(None),
        }
    }

    /// The call whose deadline comes first, by deadline and then by call, if it has come, and takes note
    /// that it was told. Where there is no room for the calls of a datagram, those that were answered and
    /// are no longer known are let go before. It takes no memory.
    pub fn due(&mut self, now: Moment) -> Option<Unanswered>
        ensures open { IfSome result (λ told. IsOpenCall self.old.calls told) }
        ensures passed { IfSome result (λ told. told.until ≤ now) }
        ensures first { IfSome result (λ told. (other : Unanswered)
            → IsOpenCall self.old.calls other → is_le (told_cmp told other) ≡ true) }
        ensures none { IfNone result ((other : Unanswered) → IsOpenCall self.old.calls other
            → now < other.until) }
        ensures after { self.new
            ≡ record self.old { calls = calls_after_due self.old.rules.limit now result self.old.calls } }
    {
        next_overdue(&mut self.calls, self.rules.limit, now)
    }

    /// When something next falls due, in milliseconds: the first moment at which [`CallBook::due`] tells
    /// a call, if there is one.
    pub fn next_due(&self) -> Option<u64>
        ensures { HoldsFrom result (λ now. due_by waits_of now self.now.calls ≢ finite.empty) }
    {
        match self.calls.first_due() {
            Some(due) => Some(due.at),
            None => None,
        }
    }
}

/// A call as its REQUEST opens it.
fn opened(answer_ms: u32, now: Moment, numbers: Numbers, payload: &[u8]) -> OpenCall
    ensures { result ≡ open_with answer_ms now numbers payload.now }
{
    OpenCall {
        numbers,
        since: now.as_millis(),
        until: now.as_millis() + u64::from(answer_ms),
        excerpt: Excerpt::of(payload),
    }
}
