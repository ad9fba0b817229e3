//! The fields of the lines of findings.
ghost use Rattle.std.specs.Prelude.{◌≡◌, ◌∷◌, [], ◌++◌, codes, map};
ghost use Rattle.someipctl_io.specs.ToldLines.{field, number, text};
ghost use Rattle.someipctl_io.specs.ToldViews.{view_field};
ghost use Rattle.someipctl_audit.specs.ToldFindings.{call_fields, error_fields, event_fields, expected_field};
ghost use Rattle.someipctl_audit.specs.ToldFindings.{header_fields, instance_fields, interface_fields, last_field};
ghost use Rattle.someipctl_audit.specs.ToldFindings.{offer_fields, session_field, silent_fields, subscription_fields};

use audit_sd::offers::OfferKey;
use audit_sd::subscriptions::SubscriptionKey;
use audit_traffic::events::EventFlow;
use someip_audit::ServiceInstance;
use someip_wire::Header;
use someipctl_io::{Field, Said};
use someipctl_recordings::heads::field_of;

/// The Message ID and the Request ID of a message with this header, the first behind this text.
pub(crate) fn header_fields(lead: &'static str, header: &Header) -> [Field<'static>; 4]
    ensures { map view_field result ≡ header_fields lead.now header.now }
{
    call_fields(
        lead,
        header.service,
        header.method,
        header.client,
        header.session,
    )
}

/// A Message ID and a Request ID, the first behind this text.
pub(crate) fn call_fields(
    lead: &'static str,
    service: u16,
    method: u16,
    client: u16,
    session: u16,
) -> [Field<'static>; 4]
    ensures { map view_field result ≡ call_fields lead.now service method client session }
{
    [
        field_of(lead, "service", Said::Id(service)),
        field_of(".", "method", Said::Id(method)),
        field_of(" client ", "client", Said::Id(client)),
        session_field(session),
    ]
}

/// How many milliseconds late an answer with this header came.
pub(crate) fn late_fields(millis: u64, header: &Header) -> [Field<'static>; 5]
    ensures { map view_field result
        ≡ field (codes " ") (codes "ms") (number millis) ∷ header_fields (codes " ms ") header.now }
{
    let [service, method, client, session] = header_fields(" ms ", header);
    let late = field_of(" ", "ms", Said::Number(millis as usize));
    [late, service, method, client, session]
}

/// The return code of an answer with this header, and its call.
pub(crate) fn error_fields(header: &Header) -> [Field<'static>; 5]
    ensures { map view_field result ≡ error_fields header.now }
{
    let [service, method, client, session] = header_fields(" ", header);
    let code = field_of(" ", "code", Said::Byte(header.code.0));
    [code, service, method, client, session]
}

/// The version of a message with this header, the one that was expected, and its Message ID.
pub(crate) fn interface_fields(expected: u8, header: &Header) -> [Field<'static>; 4]
    ensures { map view_field result ≡ interface_fields expected header.now }
{
    [
        field_of(" ", "interface", Said::Byte(header.interface)),
        field_of(" expected ", "expected", Said::Byte(expected)),
        field_of(" ", "service", Said::Id(header.service)),
        field_of(".", "method", Said::Id(header.method)),
    ]
}

/// Why a segment with this header is refused.
pub(crate) fn segment_fields<'n>(name: &'n str, header: &Header) -> [Field<'n>; 5]
    ensures { map view_field result
        ≡ field (codes " ") (codes "name") (text name.entry.now) ∷ header_fields (codes " ") header.now }
{
    let [service, method, client, session] = header_fields(" ", header);
    let refusal = field_of(" ", "name", Said::Text(name));
    [refusal, service, method, client, session]
}

/// An instance of a service.
pub(crate) fn instance_fields(about: &ServiceInstance) -> [Field<'static>; 2]
    ensures { map view_field result ≡ instance_fields about.now }
{
    [
        field_of(" ", "service", Said::Id(about.service)),
        field_of(".", "instance", Said::Id(about.instance)),
    ]
}

/// An offer.
pub(crate) fn offer_fields(key: &OfferKey) -> [Field<'static>; 3]
    ensures { map view_field result ≡ offer_fields key.now }
{
    [
        field_of(" ", "service", Said::Id(key.service)),
        field_of(".", "instance", Said::Id(key.instance)),
        field_of(" major ", "major", Said::Byte(key.major)),
    ]
}

/// A subscription.
pub(crate) fn subscription_fields(key: &SubscriptionKey) -> [Field<'static>; 5]
    ensures { map view_field result ≡ subscription_fields key.now }
{
    [
        field_of(" ", "service", Said::Id(key.service)),
        field_of(".", "instance", Said::Id(key.instance)),
        field_of(" major ", "major", Said::Byte(key.major)),
        field_of(" group ", "group", Said::Id(key.eventgroup)),
        field_of(" counter ", "counter", Said::Number(key.counter as usize)),
    ]
}

/// An event of a service.
pub(crate) fn event_fields(service: u16, event: u16) -> [Field<'static>; 2]
    ensures { map view_field result ≡ event_fields service event }
{
    [
        field_of(" ", "service", Said::Id(service)),
        field_of(".", "event", Said::Id(event)),
    ]
}

/// An event of a flow, and a session.
pub(crate) fn event_session_fields(flow: &EventFlow, session: u16) -> [Field<'static>; 3]
    ensures { map view_field result ≡ event_fields flow.now.service flow.now.event ++ session_field session ∷ [] }
{
    let [service, event] = event_fields(flow.service, flow.event);
    [service, event, session_field(session)]
}

/// A session.
pub(crate) fn session_field(session: u16) -> Field<'static>
    ensures { view_field result ≡ session_field session }
{
    field_of(" session ", "session", Said::Id(session))
}

/// The last of several sessions.
pub(crate) fn last_field(last: u16) -> Field<'static>
    ensures { view_field result ≡ last_field last }
{
    field_of(" to ", "last", Said::Id(last))
}

/// The session that was expected.
pub(crate) fn expected_field(expected: u16) -> Field<'static>
    ensures { view_field result ≡ expected_field expected }
{
    field_of(" expected ", "expected", Said::Id(expected))
}

/// An event of a flow, and for how many milliseconds it did not come.
pub(crate) fn silent_fields(flow: &EventFlow, silent_ms: u64) -> [Field<'static>; 3]
    ensures { map view_field result ≡ silent_fields flow.now silent_ms }
{
    let [service, event] = event_fields(flow.service, flow.event);
    [
        service,
        event,
        field_of(" for ", "ms", Said::Millis(silent_ms as usize)),
    ]
}
