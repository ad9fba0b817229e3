//! The lines of findings.
ghost use Rattle.std.specs.Prelude.{◌≡◌, ◌++◌, ◌∷◌, [], if◌then◌else◌, drop, map, take, true};
ghost use Rattle.someip_audit.specs.Audits.{fell, found};
ghost use Rattle.someip_audit.specs.FellDues.{deadline};
ghost use Rattle.someipctl_io.specs.ToldItems.{datagram_field};
ghost use Rattle.someipctl_io.specs.ToldViews.{view_field};
ghost use Rattle.someipctl_audit.specs.AuditText.{Puts, due_line, finding_line, is_due_told, is_report_allowed};
ghost use Rattle.someipctl_audit.specs.AuditText.{is_found_told, origin_of_due, time_at};
ghost use Rattle.someipctl_audit.specs.AskedAudits.{view_asked};
ghost use Rattle.someipctl_audit.specs.Said.{said, said_of_due};
ghost use Rattle.someipctl_recordings.specs.Origins.{frame_field};
ghost use Rattle.someipctl_audit.specs.Notes.{is_allowed};
ghost use Rattle.someipctl_audit.specs.ToldFindings.{allowed_field, endpoint_fields, time_field};

use crate::asked::AuditAsked;
use crate::group::{group_of_due, group_of_found};
use crate::says::{put_fallen, put_finding};
use crate::subject::{is_told, subject_of, subject_of_due};
use audit_rules::{Kind, Rules, Weight};
use recording::Time;
use someip_audit::groups::GroupKey;
use someip_audit::{FellDue, Finding};
use someip_tables::hashed::Origin;
use someipctl_io::{Buffer, CannotWrite, Field, LineHead, Said, datagram_field};
use someipctl_recordings::heads::{field_of, said_of_time};
use std::io::Write;

/// Whether a finding of a datagram with this time is told.
pub(crate) fn is_found_told(
    asked: &AuditAsked<'_>,
    time: Option<Time>,
    origin: &Origin,
    finding: &Finding,
) -> bool
    ensures { result ≡ is_found_told (view_asked asked.now) time origin.now finding.now }
{
    is_told(&asked.wanted, time, origin, subject_of(finding))
}

/// Prints the line of a finding of a datagram with this time, and tells its kind.
pub(crate) fn put_found<W: Write>(
    buffer: &mut Buffer,
    writer: &mut W,
    asked: &AuditAsked<'_>,
    time: Option<Time>,
    origin: &Origin,
    finding: &Finding,
) -> Result<Kind, CannotWrite>
    ensures { Puts (finding_line asked.now.form asked.now.frames
        (is_report_allowed (view_asked asked.now) (found origin.now finding.now)) time origin.now finding.now)
        (said finding.now).kind result (W.contents writer.old) buffer.old (W.contents writer.new) buffer.new }
{
    let fields = head_fields(time, origin);
    let allowed = is_allowed(asked.bench, &group_of_found(origin, finding));
    put_finding(buffer, writer, &head_of(asked, allowed, &fields), finding)
}

/// Whether what fell due is told.
pub(crate) fn is_due_told(asked: &AuditAsked<'_>, told: &FellDue) -> bool
    ensures { result ≡ is_due_told (view_asked asked.now) told.now }
{
    is_told(
        &asked.wanted,
        Some(time_at(deadline_of(told))),
        &origin_of_due(told),
        Some(subject_of_due(told)),
    )
}

/// Prints the line of what fell due, and tells its kind.
pub(crate) fn put_fell_due<W: Write>(
    buffer: &mut Buffer,
    writer: &mut W,
    asked: &AuditAsked<'_>,
    told: &FellDue,
) -> Result<Kind, CannotWrite>
    ensures { Puts (due_line asked.now.form asked.now.frames
        (is_report_allowed (view_asked asked.now) (fell told.now)) told.now) (said_of_due told.now).kind result
        (W.contents writer.old) buffer.old (W.contents writer.new) buffer.new }
{
    let time = time_at(deadline_of(told));
    let fields = head_fields(Some(time), &origin_of_due(told));
    let allowed = is_allowed(asked.bench, &group_of_due(told));
    put_fallen(buffer, writer, &head_of(asked, allowed, &fields), told)
}

/// What stands before what is said.
#[derive(Clone, Copy)]
struct HeadFields {
    /// The number of the datagram.
    number: [Field<'static>; 1],
    /// The number of the packet, which is not told unless it is asked for, and the time.
    origin: [Field<'static>; 2],
    /// Where the datagram came from, and where it went to; and that the finding is allowed, which is not told unless
    /// it is.
    place: [Field<'static>; 3],
}

/// The fields of the head of a line with this time, of a datagram with this origin.
fn head_fields(time: Option<Time>, origin: &Origin) -> HeadFields
    ensures number { map view_field result.number ≡ datagram_field origin.now.numbers.datagram ∷ [] }
    ensures origin { map view_field result.origin ≡ frame_field origin.now.numbers.frame ∷ time_field time ∷ [] }
    ensures place { map view_field result.place ≡ endpoint_fields origin.now ++ allowed_field true }
{
    HeadFields {
        number: [datagram_field(origin.numbers.datagram as usize)],
        origin: [
            field_of("#", "frame", Said::Number(origin.numbers.frame as usize)),
            field_of("", "time", said_of_time(time)),
        ],
        place: [
            field_of(" ", "from", Said::Endpoint(origin.from)),
            field_of(" ", "to", Said::Endpoint(origin.to)),
            field_of(" allowed", "allowed", Said::Mark),
        ],
    }
}

/// The head of a line with these fields.
fn head_of<'h>(asked: &AuditAsked<'_>, allowed: bool, fields: &'h HeadFields) -> LineHead<'h>
    ensures form { result.form ≡ asked.now.form }
    ensures number { result.number.now ≡ fields.now.number }
    ensures origin { result.origin.now ≡ (if asked.now.frames then fields.now.origin else drop 1 fields.now.origin) }
    ensures place { result.place.now ≡ (if allowed then fields.now.place else take 2 fields.now.place) }
{
    LineHead {
        form: asked.form,
        number: &fields.number,
        origin: origin_fields(asked.frames, &fields.origin),
        place: place_fields(allowed, &fields.place),
    }
}

/// The number of the packet, if it is asked for, and the time.
fn origin_fields<'h>(frames: bool, fields: &'h [Field<'h>; 2]) -> &'h [Field<'h>]
    ensures { result.now ≡ (if frames then fields.now else drop 1 fields.now) }
{
    if frames {
        return fields;
    }
    &fields[1..]
}

/// The endpoints, and that the finding is allowed, if it is.
fn place_fields<'h>(allowed: bool, fields: &'h [Field<'h>; 3]) -> &'h [Field<'h>]
    ensures { result.now ≡ (if allowed then fields.now else take 2 fields.now) }
{
    if allowed {
        return fields;
    }
    &fields[..2]
}

/// Whether findings of such a group are allowed by rules.
fn is_allowed(bench: &Rules, key: &GroupKey) -> bool
    ensures { result ≡ is_allowed bench.now key.now }
{
    matches!(
        bench.weight(key.kind, key.service, key.method),
        Weight::Allowed
    )
}

/// A moment, in milliseconds since 1970, as a time.
pub fn time_at(millis: u64) -> Time
    ensures { result ≡ time_at millis }
{
    Time {
        seconds: millis / 1000,
        nanoseconds: (millis % 1000) as u32 * 1_000_000,
    }
}

/// The moment at which something fell due, in milliseconds.
fn deadline_of(told: &FellDue) -> u64
    ensures { result ≡ deadline told.now }
{
    match told {
        FellDue::Unanswered(told) => told.until,
        FellDue::Missing(told) => told.until,
        FellDue::Expired(told) => told.at,
        FellDue::SubscribeUnanswered(told) => told.at,
        FellDue::EventLost(told) => told.at,
        FellDue::Silent(told) => told.at,
    }
}

/// The datagram of what fell due: with the request, the first segment, the newest Offer, the Subscribe or the
/// event that skipped a session.
pub fn origin_of_due(told: &FellDue) -> Origin
    ensures { result ≡ origin_of_due told.now }
{
    match told {
        FellDue::Unanswered(told) => Origin {
            numbers: told.numbers,
            from: told.call.from,
            to: told.call.to,
        },
        FellDue::Missing(told) => Origin {
            numbers: told.numbers,
            from: told.key.source,
            to: told.key.destination,
        },
        FellDue::Expired(told) => told.offer.origin,
        FellDue::SubscribeUnanswered(told) => told.origin,
        FellDue::EventLost(told) => Origin {
            numbers: told.numbers,
            from: told.shown_by.sender,
            to: told.shown_by.receiver,
        },
        FellDue::Silent(told) => Origin {
            numbers: told.numbers,
            from: told.flow.sender,
            to: told.flow.receiver,
        },
    }
}
