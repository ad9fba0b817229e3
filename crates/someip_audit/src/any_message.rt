//! Any message of a recording over the books.
ghost use Rattle.std.specs.Prelude.{◌≡◌, ◌≤◌, ◌+◌, length, OnErr, OnOk};
ghost use Rattle.someip_wire.specs.View.{view};
ghost use Rattle.sd_wire.specs.decoding.Faults.{fault_place};
ghost use Rattle.sd_wire.specs.decoding.Program.{reading};
ghost use Rattle.someip_audit.specs.AnyShown.{any_shown, in_datagram, payload_shown};
ghost use Rattle.someip_audit.specs.SdShown.{IsBegun, working};

use crate::books::Books;
use crate::discovery::tell;
use crate::finding::Finding;
use audit_endpoints::{is_sd, read_payload};
use sd_wire::SdError;
use someip_reassembly::Reassembly;
use someip_tables::Moment;
use someip_tables::hashed::Origin;
use someip_wire::Message;
use std::alloc::{AllocError, Global};

impl<S: Reassembly> Books<S> {
    /// Takes note of any message, whose payload begins at a place of its datagram, and appends what it
    /// shows: one of Service Discovery, a NOTIFICATION from or to port 30490 with the Message ID FFFF8100
    /// and interface 1, is read, and its fault is told where it has one. `bytes` is room for the payload
    /// of a message in segments. Where memory runs out, what was appended is a beginning of what is to be
    /// told, and nothing else is promised.
    pub(crate) fn saw(
        &mut self,
        alloc: Global,
        now: Moment,
        origin: &Origin,
        place: usize,
        message: &Message<'_>,
        bytes: &mut Vec<u8>,
        findings: &mut Vec<Finding>,
    ) -> Result<(), AllocError>
        requires { place + length message.now.payload.now ≤ usize.MAX }
        ensures ok { OnOk result (working self.new findings.new.items
            ≡ any_shown now origin.now place (view message.now) (working self.old findings.old.items)) }
        ensures err { OnErr result (IsBegun findings.old.items findings.new.items
            (any_shown now origin.now place (view message.now) (working self.old findings.old.items)).told) }
    {
        if is_sd(origin, &message.header) {
            let session = message.header.session;
            self.saw_payload(
                alloc,
                now,
                origin,
                place,
                session,
                message.payload,
                findings,
            )
        } else {
            self.saw_message(now, origin, place, message, bytes, findings)
        }
    }

    /// The payload of a message of Service Discovery comes.
    fn saw_payload(
        &mut self,
        alloc: Global,
        now: Moment,
        origin: &Origin,
        place: usize,
        session: u16,
        payload: &[u8],
        findings: &mut Vec<Finding>,
    ) -> Result<(), AllocError>
        requires { place + length payload.now ≤ usize.MAX }
        ensures ok { OnOk result (working self.new findings.new.items
            ≡ payload_shown now origin.now place session (reading payload.now) (working self.old findings.old.items)) }
        ensures err { OnErr result (IsBegun findings.old.items findings.new.items
            (payload_shown now origin.now place session (reading payload.now)
            (working self.old findings.old.items)).told) }
    {
        match read_payload(alloc, payload)? {
            Ok(read) => self.saw_sd(now, origin, session, &read, findings),
            Err(fault) => tell(findings, Finding::MalformedSd(in_datagram(place, fault))),
        }
    }
}

/// A fault of a payload that begins at a place of its datagram, with its place from the datagram's first
/// byte.
fn in_datagram(place: usize, fault: SdError) -> SdError
    requires { place + fault_place fault ≤ usize.MAX }
    ensures { result ≡ in_datagram place fault }
{
    match fault {
        SdError::Truncated(at) => SdError::Truncated(place + at),
        SdError::EntriesLength(at) => SdError::EntriesLength(place + at),
        SdError::UnknownEntryType(at) => SdError::UnknownEntryType(place + at),
        SdError::OptionLength(at) => SdError::OptionLength(place + at),
        SdError::TrailingBytes(at) => SdError::TrailingBytes(place + at),
        SdError::TooManyOptions(_) | SdError::OutOfMemory => fault,
    }
}
