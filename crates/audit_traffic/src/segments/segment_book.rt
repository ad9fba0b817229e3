//! The messages of a recording that have come in part.
ghost use Rattle.std.specs.Prelude.{◌≡◌, ◌≢◌, ◌≤◌, ◌<◌, ◌+◌, true, max, IfOk, IfSome, IfNone, OnErr, OnOk, Some};
ghost use Rattle.std.specs.FinMap as finite;
ghost use Rattle.std.specs.Ordering.{is_le};
ghost use Rattle.someip_tables.specs.Tables.{map_of};
ghost use Rattle.someip_reassembly.specs.declared.key.ReassemblyKey.{ReassemblyKey};
ghost use Rattle.someip_reassembly.specs.Parts.{Part, parts_at};
ghost use Rattle.someip_wire.specs.View.{view};
ghost use Rattle.audit_traffic.specs.segments.MessageKeys.{message_cmp};
ghost use Rattle.audit_traffic.specs.segments.SegmentBooks.{Book, empty_book, segment_of, told_of, view_told};
ghost use Rattle.audit_traffic.specs.segments.SegmentBooks.{book_after, is_accepted, IsWaiting, missing_cmp};
ghost use Rattle.audit_traffic.specs.segments.SegmentBooks.{book_after_due, IsInPart};
ghost use Rattle.audit_traffic.specs.segments.SegmentWaits.{waits_of};
ghost use Rattle.someip_tables.specs.Waits.{HoldsFrom, due_by};
ghost use Rattle.audit_traffic.specs.declared.segments.told.Missing.{Missing};

use crate::segments::pieces::{Piece, WaitTable, next_missing, tell_piece};
use crate::segments::told::{Missing, SegmentTold};
use someip_reassembly::{Reassembly, ReassemblyKey, read_segment};
use someip_tables::Moment;
use someip_tables::hashed::{DueTable, Numbers};
use someip_wire::Message;
use std::alloc::{AllocError, Global};
use std::marker::Model;
use std::net::SocketAddrV4;

/// The settings of a book of segments.
#[derive(Clone, Copy, Debug, PartialEq, Eq)]
pub struct SegmentRules {
    /// How many messages may have come in part at once.
    pub slots: usize,
    /// The greatest payload of a message that is put together, in bytes.
    pub limit: usize,
    /// How many milliseconds a message stays in part after its last segment.
    pub timeout_ms: u32,
}

/// The messages of a recording that have come in part, in a store, and beside it the timeout of each.
///
/// Whoever goes over a recording calls [`SegmentBook::due`] until it tells nothing, with the moment of
/// each datagram, and then [`SegmentBook::saw`] with its messages. A moment that is earlier than one
/// before counts as that one.
#[derive(Drop)]
pub struct SegmentBook<S: Reassembly> {
    alloc: Global,
    timeout_ms: u32,
    latest: Moment,
    store: S,
    waiting: WaitTable,
}

impl<S: Reassembly> Model for SegmentBook<S> {
    ghost use Rattle.std.specs.Prelude.{◌≡◌};
    ghost use Rattle.someip_tables.specs.Tables.{map_of};
    ghost use Rattle.someip_reassembly.specs.Parts.{NoneAfter};
    ghost use Rattle.audit_traffic.specs.segments.MessageKeys.{message_cmp};
    ghost use Rattle.audit_traffic.specs.segments.SegmentBooks.{Book, coded_book};
    ghost use Rattle.audit_traffic.specs.segments.SegmentWaits.{Agrees};

    ghost Value = { Book };

    ghost coded = { coded_book };

    ghost view = { λ b. record {
      limits = S.limits b.store;
      latest = b.latest;
      parts = S.parts b.store;
      waiting = map_of message_cmp b.waiting;
    } };

    ghost invariant = { λ b. ((S.limits b.store).timeout ≡ b.timeout_ms)
        × NoneAfter b.latest (S.parts b.store)
        × Agrees (S.limits b.store) b.latest (S.parts b.store) (map_of message_cmp b.waiting) };
}

impl<S: Reassembly> SegmentBook<S> {
    /// A book that saw nothing.
    pub fn make(alloc: Global, rules: SegmentRules) -> Result<SegmentBook<S>, AllocError>
        ensures { IfOk result (λ book. book ≡ empty_book (record {
          slots = rules.slots;
          limit = rules.limit;
          timeout = rules.timeout_ms;
        }) 0) }
    {
        let made = S::make(alloc, rules.slots, rules.limit, u64::from(rules.timeout_ms));
        match made {
            Ok(store) => Ok(SegmentBook {
                alloc,
                timeout_ms: rules.timeout_ms,
                latest: Moment::start(),
                store,
                waiting: DueTable::new(alloc),
            }),
            Err(_) => Err(AllocError),
        }
    }

    /// Takes note of a message of the datagram with these numbers, and says what it is told of it: the whole
    /// message that it completes, whose payload is then in `bytes`, or why it is refused. A message whose
    /// type has not the TP flag, and one without room for a TP header, are nothing to it.
    ///
    /// Memory runs out only for a segment that is accepted, and then the book forgets all parts.
    pub fn saw(
        &mut self,
        now: Moment,
        numbers: Numbers,
        from: SocketAddrV4,
        to: SocketAddrV4,
        message: &Message<'_>,
        bytes: &mut Vec<u8>,
    ) -> Result<SegmentTold, AllocError>
        ensures told { IfOk result (λ told. view_told told bytes.new.items
            ≡ told_of message.now.header (segment_of from to (view message.now)) (max self.old.latest now) self.old) }
        ensures after { OnOk result (self.new
            ≡ book_after (segment_of from to (view message.now)) (max self.old.latest now) numbers self.old) }
        ensures wanting { OnErr result (is_accepted (segment_of from to (view message.now))
            (max self.old.latest now) self.old ≡ true) }
        ensures forgets { OnErr result (self.new
            ≡ empty_book self.old.limits (max self.old.latest now)) }
    {
        if !message.header.kind.has_tp_flag() {
            return Ok(SegmentTold::Nothing);
        }
        match read_segment(message.payload) {
            Ok((offset, more, slice)) => {
                let key = ReassemblyKey::new(from, to, &message.header);
                let piece = Piece {
                    key,
                    offset,
                    more,
                    slice,
                };
                self.latest = later(self.latest, now);
                let told = tell_piece(
                    &mut self.store,
                    &mut self.waiting,
                    self.timeout_ms,
                    self.latest,
                    numbers,
                    &message.header,
                    piece,
                    bytes,
                );
                if told.is_err() {
                    self.store.clear();
                    self.waiting = DueTable::new(self.alloc);
                }
                told
            }
            Err(_) => Ok(SegmentTold::Nothing),
        }
    }

    /// The message whose timeout comes first, by timeout and then by key, if it has come, and takes note
    /// that it was told. It takes no memory.
    pub fn due(&mut self, now: Moment) -> Option<Missing>
        ensures waits { IfSome result (λ missing. IsWaiting self.old.waiting missing) }
        ensures passed { IfSome result (λ missing. missing.until ≤ max self.old.latest now) }
        ensures first { IfSome result (λ missing. (other : Missing)
            → IsWaiting self.old.waiting other → is_le (missing_cmp missing other) ≡ true) }
        ensures none { IfNone result ((other : Missing) → IsWaiting self.old.waiting other
            → max self.old.latest now < other.until) }
        // A message that is told, and was not due before, stands in part, and its timeout is so long after
        // its last segment.
        ensures in_part { IfSome result (λ missing. self.old.latest < missing.until
            → IsInPart self.old.limits self.old.parts missing) }
        // Where nothing is told, no message stands in part whose timeout has come.
        ensures all_told { IfNone result ((key : ReassemblyKey) (part : Part)
            → finite.get (parts_at self.old.limits self.old.latest self.old.parts) key ≡ Some part
            → max self.old.latest now < part.last + self.old.limits.timeout) }
        ensures after { self.new ≡ book_after_due (max self.old.latest now) result self.old }
    {
        self.latest = later(self.latest, now);
        next_missing(&mut self.waiting, self.latest)
    }

    /// When something next falls due, in milliseconds: the first moment at which [`SegmentBook::due`]
    /// tells a message, if there is one.
    pub fn next_due(&self) -> Option<u64>
        ensures { HoldsFrom result (λ now. due_by waits_of now self.now.waiting ≢ finite.empty) }
    {
        match self.waiting.first_due() {
            Some(due) => Some(due.at),
            None => None,
        }
    }
}

/// The later of two moments.
fn later(a: Moment, b: Moment) -> Moment
    ensures { result ≡ max a b }
{
    if a < b { b } else { a }
}
