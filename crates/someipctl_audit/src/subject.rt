//! What findings are about, and which of them are told.
ghost use Rattle.std.specs.Prelude.{◌≡◌, option_map};
ghost use Rattle.std.specs.List.{list_any};
ghost use Rattle.someipctl_recordings.specs.Wanted.{view_wanted};
ghost use Rattle.someipctl_audit.specs.Subjects.{about_call, about_event, about_nothing, about_service};
ghost use Rattle.someipctl_audit.specs.Subjects.{is_named, is_of_addresses, is_of_client, is_of_services, is_told};
ghost use Rattle.someipctl_audit.specs.Subjects.{names_method, names_service, number_of_ip, subject, subject_of_due};

use audit_sd::{offers, receivers, servers, sessions, subscriptions};
use audit_traffic::calls::CallFinding;
use audit_traffic::sequence;
use recording::Time;
use someip_audit::{FellDue, Finding};
use someip_tables::hashed::Origin;
use someipctl_recordings::{Wanted, is_in_span};
use someipctl_show::services::AskedService;
use std::net::SocketAddrV4;

/// What a finding is about, as far as it names it.
#[derive(Clone, Copy, PartialEq, Eq)]
pub struct Subject {
    /// A Service ID.
    pub service: Option<u16>,
    /// The Method ID or Event ID of the service.
    pub method: Option<u16>,
    /// The Client ID of a call.
    pub client: Option<u16>,
}

impl Subject {
    /// Nothing that is named.
    fn nothing() -> Subject
        ensures { result ≡ about_nothing }
    {
        Subject {
            service: None,
            method: None,
            client: None,
        }
    }

    /// A service.
    pub fn service(service: u16) -> Subject
        ensures { result ≡ about_service service }
    {
        Subject {
            service: Some(service),
            method: None,
            client: None,
        }
    }

    /// An event of a service.
    pub fn event(service: u16, event: u16) -> Subject
        ensures { result ≡ about_event service event }
    {
        Subject {
            service: Some(service),
            method: Some(event),
            client: None,
        }
    }

    /// A call of a client.
    pub fn call(service: u16, method: u16, client: u16) -> Subject
        ensures { result ≡ about_call service method client }
    {
        Subject {
            service: Some(service),
            method: Some(method),
            client: Some(client),
        }
    }
}

/// What a finding is about. That a book is full is about the audit itself, and has no subject.
pub(crate) fn subject_of(finding: &Finding) -> Option<Subject>
    ensures { result ≡ subject finding.now }
{
    match finding {
        Finding::Session(sessions::Finding::Full)
        | Finding::Offer(_, offers::Finding::Full)
        | Finding::Subscription(_, subscriptions::Finding::Full)
        | Finding::Receiver(_, receivers::Finding::Full)
        | Finding::Call(_, CallFinding::Full)
        | Finding::Event(_, receivers::Finding::Full)
        | Finding::EventSession(_, _, sequence::Finding::EventsFull | sequence::Finding::GapsFull)
        | Finding::CyclesFull
        | Finding::EndpointsFull
        | Finding::WaysFull
        | Finding::ServersFull => None,
        Finding::Malformed(_)
        | Finding::MalformedSd(_)
        | Finding::NoTpHeader(_)
        | Finding::Session(_) => Some(Subject::nothing()),
        Finding::BadRun(about) | Finding::NoEndpoint(about) => {
            Some(Subject::service(about.service))
        }
        Finding::Offer(key, _) => Some(Subject::service(key.service)),
        Finding::Subscription(key, _) => Some(Subject::service(key.service)),
        Finding::Receiver(key, _) => Some(Subject::service(key.service)),
        Finding::Call(header, _) => {
            Some(Subject::call(header.service, header.method, header.client))
        }
        Finding::Event(delivery, _) => Some(Subject::event(delivery.service, delivery.event)),
        Finding::EventSession(flow, _, _) => Some(Subject::event(flow.service, flow.event)),
        Finding::Server(header, servers::Finding::Interface { .. }) => {
            Some(Subject::event(header.service, header.method))
        }
        Finding::Error(header)
        | Finding::Server(header, servers::Finding::NotOffered)
        | Finding::Segment(header, _) => {
            Some(Subject::call(header.service, header.method, header.client))
        }
    }
}

/// What it is about that fell due.
pub(crate) fn subject_of_due(told: &FellDue) -> Subject
    ensures { result ≡ subject_of_due told.now }
{
    match told {
        FellDue::Unanswered(told) => {
            Subject::call(told.call.service, told.call.method, told.call.client)
        }
        FellDue::Missing(told) => {
            Subject::call(told.key.service, told.key.method, told.key.client)
        }
        FellDue::Expired(told) => Subject::service(told.key.service),
        FellDue::SubscribeUnanswered(told) => Subject::service(told.key.service),
        FellDue::EventLost(told) => Subject::event(told.shown_by.service, told.shown_by.event),
        FellDue::Silent(told) => Subject::event(told.flow.service, told.flow.event),
    }
}

/// Whether a finding about a subject is told, where its line has this time and its datagram this origin. One
/// about the audit itself always is.
pub fn is_told(
    wanted: &Wanted<'_>,
    time: Option<Time>,
    origin: &Origin,
    subject: Option<Subject>,
) -> bool
    ensures { result ≡ is_told (view_wanted wanted.now) time origin.now subject }
{
    let Some(subject) = subject else {
        return true;
    };
    is_of_services(wanted.services, &subject)
        && is_of_client(wanted.client, &subject)
        && is_of_addresses(wanted.addresses, origin)
        && is_in_span(wanted.from, wanted.until, time)
}

/// Whether a subject is of one of the services that are asked for; where none is, each is.
pub fn is_of_services(services: Option<&[AskedService]>, subject: &Subject) -> bool
    ensures { result ≡ is_of_services (option_map (λ s. s.now) services.entry) subject.now }
{
    match services {
        Some(services) => names_one_of(services, subject),
        None => true,
    }
}

fn names_one_of(services: &[AskedService], subject: &Subject) -> bool
    ensures { result ≡ list_any (names_service subject.now) services.now }
{
    services.iter().any(|asked| names_service(subject, asked))
}

fn names_service(subject: &Subject, asked: &AskedService) -> bool
    ensures { result ≡ names_service subject.now asked.now }
{
    is_named(asked.service, subject.service) && names_method(asked.method, subject.method)
}

fn names_method(asked: Option<u16>, method: Option<u16>) -> bool
    ensures { result ≡ names_method asked method }
{
    match asked {
        Some(asked) => is_named(asked, method),
        None => true,
    }
}

/// Whether a number that is asked for is named.
fn is_named(asked: u16, named: Option<u16>) -> bool
    ensures { result ≡ is_named asked named }
{
    match named {
        Some(named) => asked == named,
        None => false,
    }
}

/// Whether a subject is of the client that is asked for, if one is.
pub fn is_of_client(client: Option<u16>, subject: &Subject) -> bool
    ensures { result ≡ is_of_client client subject.now }
{
    match client {
        Some(client) => is_named(client, subject.client),
        None => true,
    }
}

fn is_of_addresses(addresses: Option<&[u32]>, origin: &Origin) -> bool
    ensures { result ≡ is_of_addresses (option_map (λ a. a.now) addresses.entry) origin.now }
{
    match addresses {
        Some(addresses) => {
            addresses.contains(&number_of_ip(&origin.from))
                || addresses.contains(&number_of_ip(&origin.to))
        }
        None => true,
    }
}

/// The address of an endpoint as a number, whose highest byte stands first.
fn number_of_ip(endpoint: &SocketAddrV4) -> u32
    ensures { result ≡ number_of_ip endpoint.now }
{
    u32::from_be_bytes(endpoint.ip().octets())
}
