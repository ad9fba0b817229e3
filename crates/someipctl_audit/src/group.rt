//! Which group a finding is of.
ghost use Rattle.std.specs.Prelude.{◌≡◌};
ghost use Rattle.std.specs.Option.{option_and_then};
ghost use Rattle.someip_audit.specs.Audits.{fell, found};
ghost use Rattle.someipctl_audit.specs.AuditText.{group_of};
ghost use Rattle.someipctl_audit.specs.Groupings.{group_key};
ghost use Rattle.someipctl_audit.specs.Said.{said, said_of_call, said_of_due, said_of_event, said_of_offer};
ghost use Rattle.someipctl_audit.specs.Said.{said_of_receivers, said_of_server, said_of_session};
ghost use Rattle.someipctl_audit.specs.Said.{said_of_subscription};
ghost use Rattle.someipctl_audit.specs.declared.subject.Subject.{Subject};

use crate::lines::origin_of_due;
use crate::subject::{Subject, subject_of, subject_of_due};
use audit_rules::Kind;
use audit_sd::offers::OfferKey;
use audit_sd::subscriptions::SubscriptionKey;
use audit_sd::{offers, receivers, servers, sessions, subscriptions};
use audit_traffic::calls::CallFinding;
use audit_traffic::events::EventFlow;
use audit_traffic::sequence;
use someip_audit::groups::GroupKey;
use someip_audit::{FellDue, Finding};
use someip_tables::hashed::Origin;
use someip_wire::Header;

/// The group of a finding of a datagram.
pub(crate) fn group_of_found(origin: &Origin, finding: &Finding) -> GroupKey
    ensures { result ≡ group_of (found origin.now finding.now) }
{
    group_key(kind_of(finding), subject_of(finding), origin)
}

/// The group of what fell due.
pub(crate) fn group_of_due(told: &FellDue) -> GroupKey
    ensures { result ≡ group_of (fell told.now) }
{
    group_key(
        kind_of_due(told),
        Some(subject_of_due(told)),
        &origin_of_due(told),
    )
}

/// The group of what is of a kind, and about a subject, where its datagram has this origin.
fn group_key(kind: Kind, subject: Option<Subject>, origin: &Origin) -> GroupKey
    ensures { result ≡ group_key kind subject origin.now }
{
    GroupKey {
        kind: kind.code(),
        service: service_of(subject),
        method: method_of(subject),
        from: origin.from,
        to: origin.to,
    }
}

fn service_of(subject: Option<Subject>) -> Option<u16>
    ensures { result ≡ option_and_then (λ (s : Subject). s.service) subject }
{
    match subject {
        Some(subject) => subject.service,
        None => None,
    }
}

fn method_of(subject: Option<Subject>) -> Option<u16>
    ensures { result ≡ option_and_then (λ (s : Subject). s.method) subject }
{
    match subject {
        Some(subject) => subject.method,
        None => None,
    }
}

/// The kind of a finding.
pub(crate) fn kind_of(finding: &Finding) -> Kind
    ensures { result ≡ (said finding.now).kind }
{
    match finding {
        Finding::Malformed(_) | Finding::MalformedSd(_) | Finding::NoTpHeader(_) => Kind::Malformed,
        Finding::BadRun(_) => Kind::BadRun,
        Finding::NoEndpoint(_) => Kind::NoEndpoint,
        Finding::Session(shown) => kind_of_session(shown),
        Finding::Offer(key, shown) => kind_of_offer(key, shown),
        Finding::Subscription(key, shown) => kind_of_subscription(key, shown),
        Finding::Receiver(key, shown) => kind_of_receivers(key.service, key.eventgroup, shown),
        Finding::Call(header, shown) => kind_of_call(header, shown),
        Finding::Error(_) => Kind::Error,
        Finding::Server(header, shown) => kind_of_server(header, shown),
        Finding::Event(delivery, shown) => {
            kind_of_receivers(delivery.service, delivery.event, shown)
        }
        Finding::EventSession(flow, session, shown) => kind_of_event(flow, *session, shown),
        Finding::Segment(..) => Kind::Segments,
        Finding::EndpointsFull | Finding::WaysFull | Finding::ServersFull | Finding::CyclesFull =>
            Kind::Full,
    }
}

fn kind_of_session(shown: &sessions::Finding) -> Kind
    ensures { result ≡ (said_of_session shown.now).kind }
{
    match shown {
        sessions::Finding::Reboot => Kind::Reboot,
        sessions::Finding::NotNext { .. } => Kind::SdSession,
        sessions::Finding::Overtaken { .. } => Kind::SdOvertaken,
        sessions::Finding::Full => Kind::Full,
    }
}

fn kind_of_offer(key: &OfferKey, shown: &offers::Finding) -> Kind
    ensures { result ≡ (said_of_offer key.now shown.now).kind }
{
    match shown {
        offers::Finding::Moved => Kind::OfferMoved,
        offers::Finding::Full => Kind::Full,
    }
}

fn kind_of_subscription(key: &SubscriptionKey, shown: &subscriptions::Finding) -> Kind
    ensures { result ≡ (said_of_subscription key.now shown.now).kind }
{
    match shown {
        subscriptions::Finding::Nack => Kind::Nack,
        subscriptions::Finding::UnaskedAck => Kind::UnaskedAck,
        subscriptions::Finding::UnaskedNack => Kind::UnaskedNack,
        subscriptions::Finding::Full => Kind::Full,
    }
}

fn kind_of_receivers(service: u16, event: u16, shown: &receivers::Finding) -> Kind
    ensures { result ≡ (said_of_receivers service event shown.now).kind }
{
    match shown {
        receivers::Finding::Unsubscribed => Kind::EventUnsubscribed,
        receivers::Finding::Full => Kind::Full,
    }
}

fn kind_of_call(header: &Header, shown: &CallFinding) -> Kind
    ensures { result ≡ (said_of_call header.now shown.now).kind }
{
    match shown {
        CallFinding::KeyReused => Kind::KeyReused,
        CallFinding::Late(_) => Kind::Late,
        CallFinding::Repeated => Kind::Repeated,
        CallFinding::Unasked => Kind::Unasked,
        CallFinding::Full => Kind::Full,
    }
}

fn kind_of_server(header: &Header, shown: &servers::Finding) -> Kind
    ensures { result ≡ (said_of_server header.now shown.now).kind }
{
    match shown {
        servers::Finding::Interface { .. } => Kind::Interface,
        servers::Finding::NotOffered => Kind::NotOffered,
    }
}

fn kind_of_event(flow: &EventFlow, session: u16, shown: &sequence::Finding) -> Kind
    ensures { result ≡ (said_of_event flow.now session shown.now).kind }
{
    match shown {
        sequence::Finding::Repeated => Kind::EventRepeated,
        sequence::Finding::Overtaken => Kind::EventOvertaken,
        sequence::Finding::EventsFull | sequence::Finding::GapsFull => Kind::Full,
    }
}

/// The kind of what fell due.
pub(crate) fn kind_of_due(told: &FellDue) -> Kind
    ensures { result ≡ (said_of_due told.now).kind }
{
    match told {
        FellDue::Unanswered(_) => Kind::Unanswered,
        FellDue::Missing(_) => Kind::SegmentsMissing,
        FellDue::Expired(_) => Kind::OfferExpired,
        FellDue::SubscribeUnanswered(_) => Kind::SubscribeUnanswered,
        FellDue::EventLost(_) => Kind::EventGap,
        FellDue::Silent(_) => Kind::Silent,
    }
}
