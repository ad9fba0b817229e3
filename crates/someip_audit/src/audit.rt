//! The audit of a recording.
ghost use Rattle.std.specs.Prelude.{◌≡◌, true, IfOk, IfSome, IfNone, OnErr, OnOk};
ghost use Rattle.std.specs.Ordering.{is_le};
ghost use Rattle.audit_traffic.specs.ways.WayTables.{one_ways};
ghost use Rattle.someip_wire.specs.Reading.{items_of};
ghost use Rattle.someip_audit.specs.AnyShown.{items_shown, message_count};
ghost use Rattle.someip_audit.specs.Audits.{audit_begun, seen_messages, seen_work};
ghost use Rattle.someip_audit.specs.FellDues.{IsDue, after_due, fell_cmp};
ghost use Rattle.someip_audit.specs.SdShown.{IsBegun, working};
ghost use Rattle.someip_audit.specs.declared.fell_due.FellDue.{FellDue};

use crate::books::Books;
use crate::fell_due::FellDue;
use crate::finding::Finding;
use crate::rules::AuditRules;
use audit_endpoints::WatchRules;
use audit_rules::Rules;
use audit_traffic::ways::OneWay;
use someip_reassembly::Reassembly;
use someip_tables::Moment;
use someip_tables::hashed::Origin;
use std::alloc::{AllocError, Global};
use std::marker::Model;

/// The audit of a recording, over any body of `Reassembly`.
///
/// Whoever goes over a recording asks for each datagram of any port, in order, first what fell due by its
/// moment, until nothing is left, and then what the datagram shows; and at the end what fell due by the
/// last moment.
#[derive(Drop)]
pub struct Audit<S: Reassembly> {
    books: Books<S>,
    bytes: Vec<u8>,
}

impl<S: Reassembly> Model for Audit<S> {
    ghost use Rattle.someip_audit.specs.BooksHeld.{Held, coded_held};

    ghost Value = { Held };

    ghost coded = { coded_held };

    ghost view = { λ a. a.books };
}

impl<S: Reassembly> Audit<S> {
    /// An audit that saw nothing, of a recording that begins now. Datagrams from and to port 30490 are
    /// looked at, and beside it those that are to be watched. By the rules of a bench an answer to a REQUEST may
    /// take as long as the first rule says that fits it.
    pub fn begin(
        alloc: Global,
        rules: &AuditRules,
        bench: &Rules,
        watch: &WatchRules<'_>,
        now: Moment,
    ) -> Result<Audit<S>, AllocError>
        ensures { IfOk result (λ audit. audit
            ≡ audit_begun rules.now bench.now watch.now.ports.now watch.now.learns now) }
    {
        Ok(Audit {
            books: Books::make(alloc, rules, bench, watch, now)?,
            bytes: Vec::new(alloc),
        })
    }

    /// What falls due first, by deadline, then by book, and then by key, if its deadline has come, and
    /// takes note that it was told. It takes no memory.
    pub fn due(&mut self, now: Moment) -> Option<FellDue>
        ensures due { IfSome result (λ told. IsDue now self.old told) }
        ensures first { IfSome result (λ told. (other : FellDue) → IsDue now self.old other
            → is_le (fell_cmp told other) ≡ true) }
        ensures none { IfNone result ((other : FellDue) → IsDue now self.old other → ⊥) }
        ensures after { self.new ≡ after_due now result self.old }
    {
        self.books.due(now)
    }

    /// Whether an Offer was seen in a datagram that was looked at.
    pub fn is_offered(&self) -> bool
        ensures { result ≡ self.now.is_offered }
    {
        self.books.is_offered
    }

    /// The ways that at least eight REQUESTs and answers went, while none came back, in the order of the ways.
    /// Where `ways` was ever full there are none.
    pub fn one_ways(&self) -> Result<Vec<OneWay>, AllocError>
        ensures { IfOk result (λ ways. ways.items ≡ one_ways self.now.ways) }
    {
        self.books.ways.one_ways()
    }

    /// Takes note of a datagram of any port, and appends what it shows, in order. Says how many messages
    /// it has that can be read, if it is looked at. The subscriptions that have expired end first. Where
    /// memory runs out, what was appended is a beginning of what is to be told, and nothing else is
    /// promised.
    pub fn saw(
        &mut self,
        alloc: Global,
        now: Moment,
        origin: &Origin,
        bytes: &[u8],
        findings: &mut Vec<Finding>,
    ) -> Result<Option<usize>, AllocError>
        ensures ok { OnOk result (working self.new findings.new.items
            ≡ seen_work (record { now = now; origin = origin.now; bytes = bytes.now }) (working self.old findings.old.items)) }
        ensures count { IfOk result (λ count. count
            ≡ seen_messages (record { now = now; origin = origin.now; bytes = bytes.now }) self.old) }
        ensures err { OnErr result (IsBegun findings.old.items findings.new.items
            (seen_work (record { now = now; origin = origin.now; bytes = bytes.now }) (working self.old findings.old.items)).told) }
    {
        self.books.expire(alloc, now)?;
        if !self.books.watched.looks_at(origin) {
            return Ok(None);
        }
        let count = saw_datagram(
            &mut self.books,
            alloc,
            now,
            origin,
            bytes,
            &mut self.bytes,
            findings,
        )?;
        Ok(Some(count))
    }
}

/// A datagram that is looked at comes.
fn saw_datagram<S: Reassembly>(
    books: &mut Books<S>,
    alloc: Global,
    now: Moment,
    origin: &Origin,
    datagram: &[u8],
    bytes: &mut Vec<u8>,
    findings: &mut Vec<Finding>,
) -> Result<usize, AllocError>
    ensures ok { OnOk result (working books.new findings.new.items ≡ items_shown now origin.now 0
        (items_of datagram.now) (working books.old findings.old.items)) }
    ensures count { IfOk result (λ count. count ≡ message_count (items_of datagram.now)) }
    ensures err { OnErr result (IsBegun findings.old.items findings.new.items
        (items_shown now origin.now 0 (items_of datagram.now) (working books.old findings.old.items)).told) }
{
    books.saw_datagram(alloc, now, origin, datagram, bytes, findings)
}
