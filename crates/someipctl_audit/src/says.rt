//! What the line of a finding says.
ghost use Rattle.std.specs.Prelude.{◌≡◌, map};
ghost use Rattle.someipctl_io.specs.ToldViews.{view_field, view_head, view_said};
ghost use Rattle.someipctl_audit.specs.AuditText.{PutsLine};
ghost use Rattle.someipctl_audit.specs.Said.{said, said_of_call, said_of_due, said_of_event, said_of_offer};
ghost use Rattle.someipctl_audit.specs.Said.{said_of_receivers, said_of_server, said_of_session};
ghost use Rattle.someipctl_audit.specs.Said.{said_of_subscription};
ghost use Rattle.someipctl_audit.specs.ToldFindings.{due_fields, fields_of_call, fields_of_event, fields_of_offer};
ghost use Rattle.someipctl_audit.specs.ToldFindings.{fields_of_receivers, fields_of_server, fields_of_session};
ghost use Rattle.someipctl_audit.specs.ToldFindings.{fields_of_subscription, finding_fields, full_fields};
ghost use Rattle.someipctl_audit.specs.ToldFindings.{malformed_fields};
ghost use Rattle.audit_rules.specs.declared.kind.Kind.TheVariants as kinds;
ghost use Rattle.someip_audit.specs.declared.FellDue.TheVariants as due;

use crate::fields::{
    call_fields, error_fields, event_fields, event_session_fields, expected_field, header_fields,
    instance_fields, interface_fields, last_field, late_fields, offer_fields, segment_fields,
    session_field, silent_fields, subscription_fields,
};
use audit_rules::Kind;
use audit_sd::offers::OfferKey;
use audit_sd::subscriptions::SubscriptionKey;
use audit_traffic::calls::CallFinding;
use audit_traffic::events::EventFlow;
use audit_traffic::gaps::LostEvent;
use audit_traffic::sequence;
use someip_audit::{FellDue, Finding};
use someip_wire::Header;
use someipctl_io::{Buffer, CannotWrite, Field, Line, LineHead, Said, put_line};
use someipctl_recordings::heads::field_of;
use std::io::Write;

/// Prints the line of a finding behind this head, and tells its kind.
pub(crate) fn put_finding<W: Write>(
    buffer: &mut Buffer,
    writer: &mut W,
    head: &LineHead<'_>,
    finding: &Finding,
) -> Result<Kind, CannotWrite>
    ensures { PutsLine head.now.form (view_head head.now) (said finding.now).kind (finding_fields finding.now) result
        (W.contents writer.old) buffer.old (W.contents writer.new) buffer.new }
{
    match finding {
        Finding::Malformed(fault) => put_malformed(
            buffer,
            writer,
            head,
            fault.name(),
            fault.place(),
        ),
        Finding::MalformedSd(fault) => put_malformed(
            buffer,
            writer,
            head,
            fault.name(),
            fault.place(),
        ),
        Finding::BadRun(about) => {
            put_said(buffer, writer, head, Kind::BadRun, &instance_fields(about))
        }
        Finding::NoEndpoint(about) => {
            put_said(
                buffer,
                writer,
                head,
                Kind::NoEndpoint,
                &instance_fields(about),
            )
        }
        Finding::NoTpHeader(place) => put_malformed(buffer, writer, head, "NoHeader", *place),
        Finding::Session(shown) => put_session(buffer, writer, head, shown),
        Finding::Offer(key, shown) => put_offer(buffer, writer, head, key, shown),
        Finding::Subscription(key, shown) => put_subscription(buffer, writer, head, key, shown),
        Finding::Receiver(key, shown) => {
            put_receivers(buffer, writer, head, key.service, key.eventgroup, shown)
        }
        Finding::Call(header, shown) => put_call(buffer, writer, head, header, shown),
        Finding::Error(header) => {
            put_said(buffer, writer, head, Kind::Error, &error_fields(header))
        }
        Finding::Server(header, shown) => put_server(buffer, writer, head, header, shown),
        Finding::Event(delivery, shown) => {
            put_receivers(
                buffer,
                writer,
                head,
                delivery.service,
                delivery.event,
                shown,
            )
        }
        Finding::EventSession(flow, session, shown) => {
            put_event(buffer, writer, head, flow, *session, shown)
        }
        Finding::Segment(header, refusal) => {
            let fields = segment_fields(refusal.name(), header);
            put_said(buffer, writer, head, Kind::Segments, &fields)
        }
        Finding::EndpointsFull => put_full(buffer, writer, head, "endpoints"),
        Finding::WaysFull => put_full(buffer, writer, head, "ways"),
        Finding::ServersFull => put_full(buffer, writer, head, "servers"),
        Finding::CyclesFull => put_full(buffer, writer, head, "cycles"),
    }
}

/// Prints the line of what fell due behind this head, and tells its kind.
pub(crate) fn put_fallen<W: Write>(
    buffer: &mut Buffer,
    writer: &mut W,
    head: &LineHead<'_>,
    told: &FellDue,
) -> Result<Kind, CannotWrite>
    ensures { PutsLine head.now.form (view_head head.now) (said_of_due told.now).kind (due_fields told.now) result
        (W.contents writer.old) buffer.old (W.contents writer.new) buffer.new }
{
    match told {
        FellDue::Unanswered(told) => {
            let call = &told.call;
            let fields = call_fields(" ", call.service, call.method, call.client, call.session);
            put_said(buffer, writer, head, Kind::Unanswered, &fields)
        }
        FellDue::Missing(told) => {
            let key = &told.key;
            let fields = call_fields(" ", key.service, key.method, key.client, key.session);
            put_said(buffer, writer, head, Kind::SegmentsMissing, &fields)
        }
        FellDue::Expired(told) => {
            let fields = offer_fields(&told.key);
            put_said(buffer, writer, head, Kind::OfferExpired, &fields)
        }
        FellDue::SubscribeUnanswered(told) => {
            let fields = subscription_fields(&told.key);
            put_said(buffer, writer, head, Kind::SubscribeUnanswered, &fields)
        }
        FellDue::EventLost(told) => put_lost(buffer, writer, head, told),
        FellDue::Silent(told) => {
            let fields = silent_fields(&told.flow, told.silent_ms);
            put_said(buffer, writer, head, Kind::Silent, &fields)
        }
    }
}

/// Prints that something is malformed.
fn put_malformed<W: Write>(
    buffer: &mut Buffer,
    writer: &mut W,
    head: &LineHead<'_>,
    name: &str,
    place: usize,
) -> Result<Kind, CannotWrite>
    ensures { PutsLine head.now.form (view_head head.now) kinds.Malformed (malformed_fields name.entry.now place) result
        (W.contents writer.old) buffer.old (W.contents writer.new) buffer.new }
{
    let fields = [
        field_of(" ", "name", Said::Text(name)),
        field_of(" at ", "at", Said::Number(place)),
    ];
    put_said(buffer, writer, head, Kind::Malformed, &fields)
}

/// Prints that a table is full.
fn put_full<W: Write>(
    buffer: &mut Buffer,
    writer: &mut W,
    head: &LineHead<'_>,
    name: &str,
) -> Result<Kind, CannotWrite>
    ensures { PutsLine head.now.form (view_head head.now) kinds.Full (full_fields name.entry.now) result
        (W.contents writer.old) buffer.old (W.contents writer.new) buffer.new }
{
    let fields = [field_of(" ", "name", Said::Text(name))];
    put_said(buffer, writer, head, Kind::Full, &fields)
}

/// Prints what a message of Service Discovery shows by its sessions.
fn put_session<W: Write>(
    buffer: &mut Buffer,
    writer: &mut W,
    head: &LineHead<'_>,
    shown: &audit_sd::sessions::Finding,
) -> Result<Kind, CannotWrite>
    ensures { PutsLine head.now.form (view_head head.now) (said_of_session shown.now).kind (fields_of_session shown.now)
        result (W.contents writer.old) buffer.old (W.contents writer.new) buffer.new }
{
    match shown {
        audit_sd::sessions::Finding::Reboot => put_said(buffer, writer, head, Kind::Reboot, &[]),
        audit_sd::sessions::Finding::NotNext { stamp, expected } => {
            let fields = [
                field_of(" ", "session", Said::Id(stamp.session)),
                expected_field(expected.session),
            ];
            put_said(buffer, writer, head, Kind::SdSession, &fields)
        }
        audit_sd::sessions::Finding::Overtaken { stamp } => {
            let fields = [session_field(stamp.session)];
            put_said(buffer, writer, head, Kind::SdOvertaken, &fields)
        }
        audit_sd::sessions::Finding::Full => put_full(buffer, writer, head, "sessions"),
    }
}

/// Prints what an Offer shows.
fn put_offer<W: Write>(
    buffer: &mut Buffer,
    writer: &mut W,
    head: &LineHead<'_>,
    key: &OfferKey,
    shown: &audit_sd::offers::Finding,
) -> Result<Kind, CannotWrite>
    ensures { PutsLine head.now.form (view_head head.now) (said_of_offer key.now shown.now).kind
        (fields_of_offer key.now shown.now) result
        (W.contents writer.old) buffer.old (W.contents writer.new) buffer.new }
{
    match shown {
        audit_sd::offers::Finding::Moved => {
            put_said(buffer, writer, head, Kind::OfferMoved, &offer_fields(key))
        }
        audit_sd::offers::Finding::Full => put_full(buffer, writer, head, "offers"),
    }
}

/// Prints what an entry of an eventgroup shows, as to its answer.
fn put_subscription<W: Write>(
    buffer: &mut Buffer,
    writer: &mut W,
    head: &LineHead<'_>,
    key: &SubscriptionKey,
    shown: &audit_sd::subscriptions::Finding,
) -> Result<Kind, CannotWrite>
    ensures { PutsLine head.now.form (view_head head.now) (said_of_subscription key.now shown.now).kind
        (fields_of_subscription key.now shown.now) result
        (W.contents writer.old) buffer.old (W.contents writer.new) buffer.new }
{
    let fields = subscription_fields(key);
    match shown {
        audit_sd::subscriptions::Finding::Nack => {
            put_said(buffer, writer, head, Kind::Nack, &fields)
        }
        audit_sd::subscriptions::Finding::UnaskedAck => {
            put_said(buffer, writer, head, Kind::UnaskedAck, &fields)
        }
        audit_sd::subscriptions::Finding::UnaskedNack => {
            put_said(buffer, writer, head, Kind::UnaskedNack, &fields)
        }
        audit_sd::subscriptions::Finding::Full => put_full(buffer, writer, head, "subscriptions"),
    }
}

/// Prints what an event shows, as to who is subscribed.
fn put_receivers<W: Write>(
    buffer: &mut Buffer,
    writer: &mut W,
    head: &LineHead<'_>,
    service: u16,
    event: u16,
    shown: &audit_sd::receivers::Finding,
) -> Result<Kind, CannotWrite>
    ensures { PutsLine head.now.form (view_head head.now) (said_of_receivers service event shown.now).kind
        (fields_of_receivers service event shown.now) result
        (W.contents writer.old) buffer.old (W.contents writer.new) buffer.new }
{
    match shown {
        audit_sd::receivers::Finding::Unsubscribed => {
            let fields = event_fields(service, event);
            put_said(buffer, writer, head, Kind::EventUnsubscribed, &fields)
        }
        audit_sd::receivers::Finding::Full => put_full(buffer, writer, head, "receivers"),
    }
}

/// Prints what a message shows, as to its call.
fn put_call<W: Write>(
    buffer: &mut Buffer,
    writer: &mut W,
    head: &LineHead<'_>,
    header: &Header,
    shown: &CallFinding,
) -> Result<Kind, CannotWrite>
    ensures { PutsLine head.now.form (view_head head.now) (said_of_call header.now shown.now).kind
        (fields_of_call header.now shown.now) result
        (W.contents writer.old) buffer.old (W.contents writer.new) buffer.new }
{
    match shown {
        CallFinding::KeyReused => {
            put_said(
                buffer,
                writer,
                head,
                Kind::KeyReused,
                &header_fields(" ", header),
            )
        }
        CallFinding::Late(millis) => {
            put_said(
                buffer,
                writer,
                head,
                Kind::Late,
                &late_fields(*millis, header),
            )
        }
        CallFinding::Repeated => {
            put_said(
                buffer,
                writer,
                head,
                Kind::Repeated,
                &header_fields(" ", header),
            )
        }
        CallFinding::Unasked => {
            put_said(
                buffer,
                writer,
                head,
                Kind::Unasked,
                &header_fields(" ", header),
            )
        }
        CallFinding::Full => put_full(buffer, writer, head, "calls"),
    }
}

/// Prints what a message with this header shows, as to its server.
fn put_server<W: Write>(
    buffer: &mut Buffer,
    writer: &mut W,
    head: &LineHead<'_>,
    header: &Header,
    shown: &audit_sd::servers::Finding,
) -> Result<Kind, CannotWrite>
    ensures { PutsLine head.now.form (view_head head.now) (said_of_server header.now shown.now).kind
        (fields_of_server header.now shown.now) result
        (W.contents writer.old) buffer.old (W.contents writer.new) buffer.new }
{
    match shown {
        audit_sd::servers::Finding::Interface { expected } => {
            let fields = interface_fields(*expected, header);
            put_said(buffer, writer, head, Kind::Interface, &fields)
        }
        audit_sd::servers::Finding::NotOffered => {
            let fields = header_fields(" ", header);
            put_said(buffer, writer, head, Kind::NotOffered, &fields)
        }
    }
}

/// Prints what an event with this session shows, by its session.
fn put_event<W: Write>(
    buffer: &mut Buffer,
    writer: &mut W,
    head: &LineHead<'_>,
    flow: &EventFlow,
    session: u16,
    shown: &sequence::Finding,
) -> Result<Kind, CannotWrite>
    ensures { PutsLine head.now.form (view_head head.now) (said_of_event flow.now session shown.now).kind
        (fields_of_event flow.now session shown.now) result
        (W.contents writer.old) buffer.old (W.contents writer.new) buffer.new }
{
    match shown {
        sequence::Finding::Repeated => {
            let fields = event_session_fields(flow, session);
            put_said(buffer, writer, head, Kind::EventRepeated, &fields)
        }
        sequence::Finding::Overtaken => {
            let fields = event_session_fields(flow, session);
            put_said(buffer, writer, head, Kind::EventOvertaken, &fields)
        }
        sequence::Finding::EventsFull => put_full(buffer, writer, head, "events"),
        sequence::Finding::GapsFull => put_full(buffer, writer, head, "gaps"),
    }
}

/// Prints that a session of an event did not come, or a run of them.
fn put_lost<W: Write>(
    buffer: &mut Buffer,
    writer: &mut W,
    head: &LineHead<'_>,
    told: &LostEvent,
) -> Result<Kind, CannotWrite>
    ensures { PutsLine head.now.form (view_head head.now) kinds.EventGap (due_fields (due.EventLost told.now)) result
        (W.contents writer.old) buffer.old (W.contents writer.new) buffer.new }
{
    let key = &told.key;
    let fields = event_session_fields(&told.shown_by, key.session);
    if key.session == key.last {
        return put_said(buffer, writer, head, Kind::EventGap, &fields);
    }
    let [service, event, session] = fields;
    let fields = [service, event, session, last_field(key.last)];
    put_said(buffer, writer, head, Kind::EventGap, &fields)
}

/// Prints the line of a kind with these fields, and tells the kind.
fn put_said<W: Write>(
    buffer: &mut Buffer,
    writer: &mut W,
    head: &LineHead<'_>,
    kind: Kind,
    fields: &[Field<'_>],
) -> Result<Kind, CannotWrite>
    ensures { PutsLine head.now.form (view_head head.now) kind (map view_field fields.now) result
        (W.contents writer.old) buffer.old (W.contents writer.new) buffer.new }
{
    let line = Line {
        kind: kind.name(),
        word: Some(kind.words()),
        fields,
    };
    put_line(buffer, writer, head, &line)?;
    Ok(kind)
}
