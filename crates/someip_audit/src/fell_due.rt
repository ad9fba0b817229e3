//! What falls due between datagrams.
use audit_sd::offers::Expired;
use audit_sd::subscriptions::Unanswered as SubscribeUnanswered;
use audit_traffic::calls::Unanswered;
use audit_traffic::cycles::SilentEvent;
use audit_traffic::gaps::LostEvent;
use audit_traffic::segments::Missing;

/// What falls due between datagrams, in the order in which it is told at one deadline.
#[derive(Clone, Copy, Debug, PartialEq, Eq)]
pub enum FellDue {
    /// A call had no answer until its deadline.
    Unanswered(Unanswered),
    /// Segments of a message are missing: it stayed in part until its timeout.
    Missing(Missing),
    /// The TTL of an offer passed with no Offer, StopOffer or reboot before.
    Expired(Expired),
    /// A Subscribe had neither an Ack nor a Nack in time.
    SubscribeUnanswered(SubscribeUnanswered),
    /// A session of an event was skipped, or a run of them, and did not come in time.
    EventLost(LostEvent),
    /// An event that comes in cycles did not come for three of them.
    Silent(SilentEvent),
}
