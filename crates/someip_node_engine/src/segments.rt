//! Segments that come.
ghost use Rattle.std.specs.Prelude.{◌≡◌, ◌++◌, ◌%◌, true, is_ok, IfOk, OnOk, OnErr};
ghost use Rattle.someip_reassembly.specs.SegmentOffers.{judgement, message_at, parts_after, parts_less};
ghost use Rattle.someip_reassembly.specs.Parts.{NoneAfter};
ghost use Rattle.someip_reassembly.specs.TpHeader.{segment_in};
ghost use Rattle.someip_node_engine.specs.Arrivals.{parts_once_taken, refused_as, segment_offer, target_at};
ghost use Rattle.someip_node_rules.specs.rules.Handling.{completed_plan, segment_plan};
ghost use Rattle.someip_node_rules.specs.rules.Messages.{completed, completed_by};
ghost use Rattle.someip_node_rules.specs.rules.Plans.{act, plain, run, TakesSegment};
ghost use Rattle.someip_node_engine.specs.Working.{working};

use crate::arrival::Arrival;
use crate::engine::Engine;
use crate::outputs::{Giving, tell_dropped};
use crate::received_payload::ReceivedPayload;
use someip_node_rules::{DropReason, Output, Payload};
use someip_tables::Moment;
use someip_tp::{Offered, Reassembly, ReassemblyKey, TpError, read_segment};
use someip_wire::Header;
use std::alloc::{AllocError, Global};

/// A segment that is offered to the store.
#[derive(Clone, Copy)]
pub(crate) struct OfferedSegment<'a> {
    /// The key of its message.
    pub(crate) key: ReassemblyKey,
    /// Its offset in bytes.
    pub(crate) offset: u32,
    /// Whether more segments follow.
    pub(crate) more: bool,
    /// Its slice.
    pub(crate) bytes: &'a [u8],
}

impl<R: Reassembly> Engine<R> {
    /// Takes a segment of a message that comes to where it is taken.
    pub(crate) fn segment(
        &mut self,
        arrival: &Arrival,
        header: &Header,
        payload: &[u8],
        giving: &mut Giving,
    ) -> Result<(), AllocError>
        ensures work { OnOk result (working self.new giving.new
            ≡ run plain (segment_plan (target_at arrival.now.addressee) arrival.now.from
            arrival.now.to header.now (segment_in payload.now)) (working self.old giving.old)) }
        ensures config { self.new.config ≡ self.old.config }
    {
        match read_segment(payload) {
            Ok((offset, more, bytes)) => {
                let segment = OfferedSegment {
                    key: ReassemblyKey::new(arrival.from, arrival.to, header),
                    offset,
                    more,
                    bytes,
                };
                let whole = self.offer_segment(segment, giving)?;
                self.completed(arrival, header, whole, giving)
            }
            Err(fault) => giving.dropped(DropReason::Tp(fault)),
        }
    }

    /// Offers a segment to the store, and gives the message that it made whole.
    fn offer_segment(
        &mut self,
        segment: OfferedSegment<'_>,
        giving: &mut Giving,
    ) -> Result<Option<Payload>, AllocError>
        requires { segment.offset % 16 ≡ 0 }
        ensures whole { IfOk result (λ whole. whole ≡ completed (segment_offer segment.entry) self.old) }
        ensures work { OnOk result (working self.new giving.new
            ≡ run plain (act (TakesSegment (segment_offer segment.entry)))
            (working self.old giving.old)) }
        ensures config { self.new.config ≡ self.old.config }
    {
        offer_to(
            &mut self.store,
            self.alloc,
            self.clock,
            segment,
            &mut giving.outputs,
        )
    }

    /// Takes the message that a segment made whole, if it did.
    fn completed(
        &mut self,
        arrival: &Arrival,
        header: &Header,
        whole: Option<Payload>,
        giving: &mut Giving,
    ) -> Result<(), AllocError>
        ensures work { OnOk result (working self.new giving.new
            ≡ run plain (completed_plan (target_at arrival.now.addressee) arrival.now.from
            header.now whole) (working self.old giving.old)) }
        ensures config { self.new.config ≡ self.old.config }
    {
        match whole {
            Some(payload) => {
                let header = Header {
                    kind: header.kind.without_tp_flag(),
                    ..*header
                };
                let payload = ReceivedPayload::Reassembled(payload);
                self.whole(arrival, &header, payload, giving)
            }
            None => Ok(()),
        }
    }
}

/// Offers a segment, and gives the message that it made whole.
fn offer_to<R: Reassembly>(
    store: &mut R,
    alloc: Global,
    now: Moment,
    segment: OfferedSegment<'_>,
    outputs: &mut Vec<Output>,
) -> Result<Option<Payload>, AllocError>
    requires aligned { segment.offset % 16 ≡ 0 }
    requires moments { NoneAfter now (R.parts store.old) }
    ensures whole { IfOk result (λ whole. whole ≡ completed_by
        (judgement (R.limits store.old) now (segment_offer segment.entry) (R.parts store.old))
        (message_at (parts_after (R.limits store.old) now (segment_offer segment.entry) (R.parts store.old))
        segment.entry.key)) }
    ensures parts { OnOk result (R.parts store.new ≡ parts_once_taken
        (judgement (R.limits store.old) now (segment_offer segment.entry) (R.parts store.old))
        segment.entry.key
        (parts_after (R.limits store.old) now (segment_offer segment.entry) (R.parts store.old))) }
    ensures outputs { OnOk result (outputs.new.items ≡ outputs.old.items ++ refused_as
        (judgement (R.limits store.old) now (segment_offer segment.entry) (R.parts store.old))) }
    ensures moments { NoneAfter now (R.parts store.new) }
    ensures limits { R.limits store.new ≡ R.limits store.old }
{
    match offered(store, now.as_millis(), segment)? {
        Ok(Offered::Part) => Ok(None),
        Ok(Offered::Whole) => {
            let message = take_whole(store, alloc, now, &segment.key)?;
            Ok(message)
        }
        Err(refusal) => {
            tell_dropped(outputs, DropReason::Tp(refusal))?;
            Ok(None)
        }
    }
}

/// Offers a segment, and keeps out of memory apart, which comes only for a segment that was to be
/// accepted.
fn offered<R: Reassembly>(
    store: &mut R,
    now: u64,
    segment: OfferedSegment<'_>,
) -> Result<Result<Offered, TpError>, AllocError>
    requires aligned { segment.offset % 16 ≡ 0 }
    requires moments { NoneAfter now (R.parts store.old) }
    ensures judged { IfOk result (λ judged. judged
        ≡ judgement (R.limits store.old) now (segment_offer segment.entry) (R.parts store.old)) }
    ensures parts { OnOk result (R.parts store.new
        ≡ parts_after (R.limits store.old) now (segment_offer segment.entry) (R.parts store.old)) }
    ensures wanting { OnErr result (is_ok (judgement (R.limits store.old) now
        (segment_offer segment.entry) (R.parts store.old)) ≡ true) }
    ensures moments { NoneAfter now (R.parts store.new) }
    ensures limits { R.limits store.new ≡ R.limits store.old }
{
    match store.offer(
        segment.key,
        segment.offset,
        segment.more,
        segment.bytes,
        now,
    ) {
        Err(TpError::OutOfMemory) => Err(AllocError),
        judged => Ok(judged),
    }
}

/// Takes a whole message.
fn take_whole<R: Reassembly>(
    store: &mut R,
    alloc: Global,
    now: Moment,
    key: &ReassemblyKey,
) -> Result<Option<Payload>, AllocError>
    requires { NoneAfter now (R.parts store.old) }
    ensures whole { IfOk result (λ whole. whole ≡ message_at (R.parts store.old) key.now) }
    ensures parts { OnOk result (R.parts store.new ≡ parts_less (R.parts store.old) key.now) }
    ensures moments { NoneAfter now (R.parts store.new) }
    ensures limits { R.limits store.new ≡ R.limits store.old }
{
    let mut bytes = Vec::new(alloc);
    match store.take(key, &mut bytes) {
        Ok(true) => Ok(Some(Payload::from_vec(bytes))),
        Ok(false) => Ok(None),
        Err(_) => Err(AllocError),
    }
}
