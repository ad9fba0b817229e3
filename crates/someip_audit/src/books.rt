//! The books of one audit.
ghost use Rattle.std.specs.Prelude.{◌≡◌, true, IfOk, IfSome, IfNone};
ghost use Rattle.std.specs.Ordering.{is_le};
ghost use Rattle.someip_audit.specs.BooksHeld.{empty_held, moment_after};
ghost use Rattle.someip_audit.specs.FellDues.{IsDue, after_due, fell_cmp};
ghost use Rattle.someip_audit.specs.declared.fell_due.FellDue.{FellDue};

use crate::fell_due::FellDue;
use crate::rules::AuditRules;
use crate::soonest::{earlier, is_at, soonest, unless_ended};
use crate::times::AnswerTimes;
use audit_endpoints::{WatchRules, Watched};
use audit_rules::Rules;
use audit_sd::offers::OfferBook;
use audit_sd::receivers::ReceiverBook;
use audit_sd::servers::ServerBook;
use audit_sd::sessions::SessionBook;
use audit_sd::subscriptions::SubscribeBook;
use audit_traffic::calls::{CallBook, CallRules};
use audit_traffic::cycles::CycleBook;
use audit_traffic::segments::SegmentBook;
use audit_traffic::sequence::{SequenceBook, SequenceRules};
use audit_traffic::ways::WayBook;
use someip_reassembly::Reassembly;
use someip_tables::Moment;
use std::alloc::{AllocError, Global};
use std::marker::Model;

/// The books of one audit, each with a kind of findings, which datagrams are looked at, and whether an Offer was
/// seen.
#[derive(Drop)]
pub(crate) struct Books<S: Reassembly> {
    pub(crate) times: AnswerTimes,
    pub(crate) calls: CallBook,
    pub(crate) segments: SegmentBook<S>,
    pub(crate) offers: OfferBook,
    pub(crate) servers: ServerBook,
    pub(crate) subscriptions: SubscribeBook,
    pub(crate) sessions: SessionBook,
    pub(crate) receivers: ReceiverBook,
    pub(crate) events: SequenceBook,
    pub(crate) cycles: CycleBook,
    pub(crate) ways: WayBook,
    pub(crate) watched: Watched,
    /// Whether an Offer was seen.
    pub(crate) is_offered: bool,
}

impl<S: Reassembly> Model for Books<S> {
    ghost use Rattle.someip_audit.specs.BooksHeld.{Held, coded_held};

    ghost Value = { Held };

    ghost coded = { coded_held };

    ghost view = { λ b. record {
      times = b.times;
      calls = b.calls;
      segments = b.segments;
      offers = b.offers;
      servers = b.servers;
      subscriptions = b.subscriptions;
      sessions = b.sessions;
      receivers = b.receivers;
      events = b.events;
      cycles = b.cycles;
      ways = b.ways;
      watched = b.watched;
      is_offered = b.is_offered;
    } };
}

impl<S: Reassembly> Books<S> {
    /// Books that saw nothing, of a recording that begins now; the rules of a bench; which datagrams are looked at.
    pub(crate) fn make(
        alloc: Global,
        rules: &AuditRules,
        bench: &Rules,
        watch: &WatchRules<'_>,
        now: Moment,
    ) -> Result<Books<S>, AllocError>
        ensures { IfOk result (λ books. books
            ≡ empty_held rules.now bench.now watch.now.ports.now watch.now.learns now) }
    {
        let times = AnswerTimes::of(alloc, bench, rules.answer_ms)?;
        let watched = Watched::new(alloc, watch, rules.limit)?;
        let segments = SegmentBook::make(alloc, rules.segments)?;
        let calls = CallRules {
            limit: rules.judged,
            begins: now,
        };
        let sequences = SequenceRules {
            limit: rules.limit,
            overtake_ms: rules.overtake_ms,
            counting: rules.counting,
        };
        Ok(Books {
            times,
            calls: CallBook::new(alloc, calls),
            segments,
            offers: OfferBook::new(alloc, rules.judged),
            servers: ServerBook::new(alloc, rules.judged),
            subscriptions: SubscribeBook::new(
                alloc,
                rules.judged,
                rules.answer_ms,
                moment_after(now, rules.answer_ms),
            ),
            sessions: SessionBook::new(alloc, rules.limit, rules.overtake_ms),
            receivers: ReceiverBook::new(alloc, rules.limit, moment_after(now, rules.settle_ms)),
            events: SequenceBook::new(alloc, sequences),
            cycles: CycleBook::new(alloc, rules.judged),
            ways: WayBook::new(alloc, rules.judged),
            watched,
            is_offered: false,
        })
    }

    /// What falls due first, by deadline, then by book, and then by key, if its deadline has come, and
    /// takes note that it was told. It takes no memory.
    pub(crate) fn due(&mut self, now: Moment) -> Option<FellDue>
        ensures due { IfSome result (λ told. IsDue now self.old told) }
        ensures first { IfSome result (λ told. (other : FellDue) → IsDue now self.old other
            → is_le (fell_cmp told other) ≡ true) }
        ensures none { IfNone result ((other : FellDue) → IsDue now self.old other → ⊥) }
        ensures after { self.new ≡ after_due now result self.old }
    {
        let segments = self.segments.next_due();
        let offers = self.offers.next_due();
        let subscriptions = self.subscriptions.next_due();
        let lost = self.events.next_due();
        let cycles = self.cycles.next_due();
        let end = self.receivers.next_expiry();
        let silent = unless_ended(cycles, end);
        let later = earlier(lost, silent);
        let others = earlier(subscriptions, later);
        let rest = earlier(offers, others);
        let next = earlier(segments, rest);
        let at = soonest(now, next);
        if let Some(call) = self.calls.due(at) {
            return Some(FellDue::Unanswered(call));
        }
        if !is_at(next, at) {
            return None;
        }
        if is_at(segments, at) {
            return Some(FellDue::Missing(self.segments.due(at)?));
        }
        if is_at(offers, at) {
            return Some(FellDue::Expired(self.offers.due(at)?));
        }
        if is_at(subscriptions, at) {
            return Some(FellDue::SubscribeUnanswered(self.subscriptions.due(at)?));
        }
        if is_at(lost, at) {
            return Some(FellDue::EventLost(self.events.due(at)?));
        }
        Some(FellDue::Silent(self.cycles.due(at)?))
    }
}

/// The moment so many milliseconds after another, or the last one, if that is earlier.
fn moment_after(now: Moment, millis: u32) -> Moment
    ensures { result ≡ moment_after now millis }
{
    match now.after(u64::from(millis)) {
        Some(moment) => moment,
        None => Moment::new((1 << 63) - 1).unwrap_or(now),
    }
}
