//! What the audit of a recording shows to its figures.
ghost use Rattle.std.specs.Prelude.{◌≡◌, ◌<◌, ◌^◌};
ghost use Rattle.someipctl_stats.specs.Shown.{flow_of, shown_of, shown_of_due, shown_of_event, shown_of_session, subject_of, way_of};

use audit_sd::sessions;
use audit_stats::{Flow, Way};
use audit_traffic::events::EventFlow;
use audit_traffic::sequence;
use someip_audit::{FellDue, Finding};
use someip_tables::hashed::Origin;
use someipctl_audit::subject::Subject;

/// What the audit shows to the figures.
#[derive(Clone, Copy)]
pub(crate) enum Shown {
    /// Nothing that they count.
    Nothing,
    /// So many sessions of an event are lost, and a run of them counts as one.
    Lost(Flow, u64),
    /// The sender of a way began again.
    BeganAgain(Way),
    /// A book is full, so the figures lack something from then on.
    Full(Lack),
}

/// What figures lack since a book of the audit was full.
#[derive(Clone, Copy)]
pub(crate) enum Lack {
    /// Datagrams at endpoints that were not learnt.
    Endpoints,
    /// Sessions of events that are lost.
    Gaps,
    /// Senders that began again.
    Reboots,
}

/// What a finding of a datagram shows.
pub(crate) fn shown_of(origin: &Origin, finding: &Finding) -> Shown
    ensures { result ≡ shown_of origin.now finding.now }
{
    match finding {
        Finding::Session(shown) => shown_of_session(origin, shown),
        Finding::EventSession(_, _, shown) => shown_of_event(shown),
        Finding::EndpointsFull => Shown::Full(Lack::Endpoints),
        _ => Shown::Nothing,
    }
}

/// What the session of a message of Service Discovery shows.
fn shown_of_session(origin: &Origin, shown: &sessions::Finding) -> Shown
    ensures { result ≡ shown_of_session origin.now shown.now }
{
    match shown {
        sessions::Finding::Reboot => Shown::BeganAgain(way_of(origin)),
        sessions::Finding::Full => Shown::Full(Lack::Reboots),
        _ => Shown::Nothing,
    }
}

/// What the session of an event shows.
fn shown_of_event(shown: &sequence::Finding) -> Shown
    ensures { result ≡ shown_of_event shown.now }
{
    match shown {
        sequence::Finding::EventsFull | sequence::Finding::GapsFull => Shown::Full(Lack::Gaps),
        _ => Shown::Nothing,
    }
}

/// What it shows that something fell due.
pub(crate) fn shown_of_due(told: &FellDue) -> Shown
    ensures { result ≡ shown_of_due told.now }
{
    match told {
        FellDue::EventLost(lost) => Shown::Lost(flow_of(&lost.shown_by), 1),
        _ => Shown::Nothing,
    }
}

/// The flow of an event.
fn flow_of(flow: &EventFlow) -> Flow
    ensures { result ≡ flow_of flow.now }
{
    Flow {
        service: flow.service,
        method: flow.event,
        from: flow.sender,
        to: flow.receiver,
    }
}

/// The way of a datagram.
pub(crate) fn way_of(origin: &Origin) -> Way
    ensures { result ≡ way_of origin.now }
{
    Way {
        from: origin.from,
        to: origin.to,
    }
}

/// What it is about that counts: an event, or messages of Service Discovery. That a book is full is about the audit
/// itself.
pub(crate) fn subject_of(shown: &Shown) -> Option<Subject>
    ensures { result ≡ subject_of shown.now }
{
    match shown {
        Shown::Lost(flow, _) => Some(Subject::event(flow.service, flow.method)),
        Shown::BeganAgain(_) => Some(Subject::event(0xffff, 0x8100)),
        Shown::Full(_) | Shown::Nothing => None,
    }
}
