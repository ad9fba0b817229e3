//! What a segment makes of the messages that have come in part, and of their timeouts.
ghost use Rattle.std.specs.Prelude.{◌≡◌, ◌≤◌, ◌<◌, ◌+◌, ◌%◌, true, is_ok, IfOk, OnErr, OnOk, IfSome, IfNone, Some};
ghost use Rattle.someip_tables.specs.Tables.{map_of};
ghost use Rattle.someip_reassembly.specs.Parts.{NoneAfter};
ghost use Rattle.someip_reassembly.specs.SegmentOffers.{judgement, message_at, parts_after, parts_less};
ghost use Rattle.audit_traffic.specs.segments.MessageKeys.{message_cmp};
ghost use Rattle.audit_traffic.specs.segments.SegmentBooks.{told_by, view_told, parts_by, waiting_by, first_of};
ghost use Rattle.audit_traffic.specs.segments.SegmentBooks.{IsWaiting, missing_cmp, waiting_after_due};
ghost use Rattle.audit_traffic.specs.declared.segments.told.Missing.{Missing};
ghost use Rattle.std.specs.Ordering.{is_le};
ghost use Rattle.audit_traffic.specs.segments.Pieces.{piece_offer};
ghost use Rattle.audit_traffic.specs.declared.segments.waiting.Waiting.{Waiting};

use crate::segments::key::MessageKey;
use crate::segments::told::{Missing, SegmentTold};
use crate::segments::waiting::Waiting;
use someip_reassembly::{Offered, Reassembly, ReassemblyKey, TpError};
use someip_tables::Moment;
use someip_tables::hashed::{DueTable, Numbers};
use someip_wire::Header;
use std::alloc::AllocError;

/// The timeouts of the messages that have come in part.
pub(crate) type WaitTable = DueTable<MessageKey, Waiting>;

/// A segment that is offered to a store.
#[derive(Clone, Copy)]
pub(crate) struct Piece<'a> {
    pub(crate) key: ReassemblyKey,
    pub(crate) offset: u32,
    pub(crate) more: bool,
    pub(crate) slice: &'a [u8],
}

/// Offers a segment, and keeps out of memory apart, which comes only for a segment that was to be
/// accepted.
pub(crate) fn offered<S: Reassembly>(
    store: &mut S,
    now: u64,
    piece: Piece<'_>,
) -> Result<Result<Offered, TpError>, AllocError>
    requires aligned { piece.offset % 16 ≡ 0 }
    requires moments { NoneAfter now (S.parts store.old) }
    ensures judged { IfOk result (λ judged. judged
        ≡ judgement (S.limits store.old) now (piece_offer piece.entry) (S.parts store.old)) }
    ensures parts { OnOk result (S.parts store.new
        ≡ parts_after (S.limits store.old) now (piece_offer piece.entry) (S.parts store.old)) }
    ensures wanting { OnErr result (is_ok (judgement (S.limits store.old) now
        (piece_offer piece.entry) (S.parts store.old)) ≡ true) }
    ensures moments { NoneAfter now (S.parts store.new) }
    ensures limits { S.limits store.new ≡ S.limits store.old }
{
    match store.offer(piece.key, piece.offset, piece.more, piece.slice, now) {
        Err(TpError::OutOfMemory) => Err(AllocError),
        judged => Ok(judged),
    }
}

/// Takes a whole message, whose bytes are then these. Its segments have this header.
pub(crate) fn take_whole<S: Reassembly>(
    store: &mut S,
    now: u64,
    header: &Header,
    key: &ReassemblyKey,
    bytes: &mut Vec<u8>,
) -> Result<SegmentTold, AllocError>
    requires { NoneAfter now (S.parts store.old) }
    ensures told { IfOk result (λ told. view_told told bytes.new.items
        ≡ told_by header.now (Ok Offered.Whole) (message_at (S.parts store.old) key.now)) }
    ensures parts { OnOk result (S.parts store.new ≡ parts_less (S.parts store.old) key.now) }
    ensures moments { NoneAfter now (S.parts store.new) }
    ensures limits { S.limits store.new ≡ S.limits store.old }
{
    bytes.clear();
    match store.take(key, bytes) {
        Ok(true) => Ok(SegmentTold::Whole(Header {
            kind: header.kind.without_tp_flag(),
            ..*header
        })),
        Ok(false) => Ok(SegmentTold::Nothing),
        Err(_) => Err(AllocError),
    }
}

/// Takes note of the timeout of a message of which a segment was judged so.
pub(crate) fn note(
    waiting: &mut WaitTable,
    judged: Result<Offered, TpError>,
    timeout: u32,
    now: Moment,
    numbers: Numbers,
    key: MessageKey,
) -> Result<(), AllocError>
    ensures ok { OnOk result (map_of message_cmp waiting.new
        ≡ waiting_by judged timeout now numbers key.0 (map_of message_cmp waiting.old)) }
    ensures accepted { OnErr result (is_ok judged ≡ true) }
{
    match judged {
        Ok(Offered::Part) => {
            let before = waiting.get(&key);
            waiting.insert(
                key,
                Waiting {
                    numbers: first_of(before, now.as_millis(), numbers),
                    until: now.as_millis() + u64::from(timeout),
                },
            )
        }
        Ok(Offered::Whole) | Err(TpError::Conflict) => {
            waiting.remove(&key);
            Ok(())
        }
        Err(_) => Ok(()),
    }
}

/// The numbers of the datagram that a message began with, of which a segment comes in the datagram with these
/// numbers.
fn first_of(before: Option<Waiting>, now: u64, numbers: Numbers) -> Numbers
    ensures { result ≡ first_of now numbers before }
{
    match before {
        Some(waiting) => {
            if now < waiting.until {
                waiting.numbers
            } else {
                numbers
            }
        }
        None => numbers,
    }
}

/// Offers a segment, takes its message if that is whole, and takes note of its timeout.
pub(crate) fn tell_piece<S: Reassembly>(
    store: &mut S,
    waiting: &mut WaitTable,
    timeout: u32,
    now: Moment,
    numbers: Numbers,
    header: &Header,
    piece: Piece<'_>,
    bytes: &mut Vec<u8>,
) -> Result<SegmentTold, AllocError>
    requires aligned { piece.offset % 16 ≡ 0 }
    requires timeout { (S.limits store.old).timeout ≡ timeout }
    requires moments { NoneAfter now (S.parts store.old) }
    ensures told { IfOk result (λ told. view_told told bytes.new.items ≡ told_by header.now
        (judgement (S.limits store.old) now (piece_offer piece.entry) (S.parts store.old))
        (message_at (parts_after (S.limits store.old) now (piece_offer piece.entry) (S.parts store.old)) piece.entry.key)) }
    ensures parts { OnOk result (S.parts store.new ≡ parts_by
        (judgement (S.limits store.old) now (piece_offer piece.entry) (S.parts store.old)) piece.entry.key
        (parts_after (S.limits store.old) now (piece_offer piece.entry) (S.parts store.old))) }
    ensures waiting { OnOk result (map_of message_cmp waiting.new ≡ waiting_by
        (judgement (S.limits store.old) now (piece_offer piece.entry) (S.parts store.old))
        timeout now numbers piece.entry.key (map_of message_cmp waiting.old)) }
    ensures wanting { OnErr result (is_ok (judgement (S.limits store.old) now
        (piece_offer piece.entry) (S.parts store.old)) ≡ true) }
    ensures moments { NoneAfter now (S.parts store.new) }
    ensures limits { S.limits store.new ≡ S.limits store.old }
{
    let judged = offered(store, now.as_millis(), piece)?;
    let told = match judged {
        Ok(Offered::Part) => SegmentTold::Nothing,
        Ok(Offered::Whole) => take_whole(store, now.as_millis(), header, &piece.key, bytes)?,
        Err(refusal) => SegmentTold::Refused(refusal),
    };
    note(
        waiting,
        judged,
        timeout,
        now,
        numbers,
        MessageKey(piece.key),
    )?;
    Ok(told)
}

/// The message whose timeout comes first, if it has come. It is taken out.
pub(crate) fn next_missing(waiting: &mut WaitTable, now: Moment) -> Option<Missing>
    ensures waits { IfSome result (λ missing. IsWaiting (map_of message_cmp waiting.old) missing) }
    ensures passed { IfSome result (λ missing. missing.until ≤ now) }
    ensures first { IfSome result (λ missing. (other : Missing)
        → IsWaiting (map_of message_cmp waiting.old) other → is_le (missing_cmp missing other) ≡ true) }
    ensures none { IfNone result ((other : Missing)
        → IsWaiting (map_of message_cmp waiting.old) other → now < other.until) }
    ensures after { map_of message_cmp waiting.new
        ≡ waiting_after_due result (map_of message_cmp waiting.old) }
{
    let due = match waiting.first_due() {
        Some(due) => due,
        None => return None,
    };
    if due.at > now.as_millis() {
        return None;
    }
    match waiting.get(&due.key) {
        Some(told) => {
            waiting.remove(&due.key);
            Some(Missing {
                key: due.key.0,
                numbers: told.numbers,
                until: told.until,
            })
        }
        None => None,
    }
}
