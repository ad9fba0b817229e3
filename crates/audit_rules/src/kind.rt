//! The kinds of findings.
ghost use Rattle.std.specs.Prelude.{◌≡◌, ◌<◌};
ghost use Rattle.audit_rules.specs.Kinds.{all_kinds, kind_name, kind_number, kind_words};

/// A kind of findings, as the summary of an audit names it.
#[derive(Clone, Copy, Debug, PartialEq, Eq)]
pub enum Kind {
    /// A message, a payload of Service Discovery or a segment that cannot be read.
    Malformed,
    /// An entry of Service Discovery has a run that goes past the options.
    BadRun,
    /// An entry of Service Discovery lacks an endpoint.
    NoEndpoint,
    /// A sender of Service Discovery began again.
    Reboot,
    /// A message of Service Discovery is not the one after the last.
    SdSession,
    /// A message of Service Discovery was overtaken by the last.
    SdOvertaken,
    /// A call had no answer in time.
    Unanswered,
    /// An answer came late.
    Late,
    /// A call was answered with an error.
    Error,
    /// An answer came to no call.
    Unasked,
    /// An answer came twice.
    Repeated,
    /// A call has the key of one that is open.
    KeyReused,
    /// A message has another version than its server offers.
    Interface,
    /// A call went to a server that is offered no more.
    NotOffered,
    /// An event came twice.
    EventRepeated,
    /// An event came after a later one.
    EventOvertaken,
    /// Events before an event were lost.
    EventGap,
    /// An event went to an endpoint without a subscription.
    EventUnsubscribed,
    /// An event did not come for three cycles.
    Silent,
    /// A segment is refused.
    Segments,
    /// A message stayed in part.
    SegmentsMissing,
    /// The TTL of an offer passed.
    OfferExpired,
    /// An offer moved while it stood.
    OfferMoved,
    /// A subscription was refused.
    Nack,
    /// A Subscribe had no answer in time.
    SubscribeUnanswered,
    /// An Ack came that no Subscribe was owed.
    UnaskedAck,
    /// A Nack came that no Subscribe was owed.
    UnaskedNack,
    /// A table is full.
    Full,
}

/// How many kinds there are.
pub const KIND_COUNT: usize = 28;

/// All kinds, in the order of the summary.
#[tactic(auto, unfolding(crate::specs::Kinds::all_kinds))]
pub fn kinds() -> [Kind; KIND_COUNT]
    ensures { result ≡ all_kinds }
{
    [
        Kind::Malformed,
        Kind::BadRun,
        Kind::NoEndpoint,
        Kind::Reboot,
        Kind::SdSession,
        Kind::SdOvertaken,
        Kind::Unanswered,
        Kind::Late,
        Kind::Error,
        Kind::Unasked,
        Kind::Repeated,
        Kind::KeyReused,
        Kind::Interface,
        Kind::NotOffered,
        Kind::EventRepeated,
        Kind::EventOvertaken,
        Kind::EventGap,
        Kind::EventUnsubscribed,
        Kind::Silent,
        Kind::Segments,
        Kind::SegmentsMissing,
        Kind::OfferExpired,
        Kind::OfferMoved,
        Kind::Nack,
        Kind::SubscribeUnanswered,
        Kind::UnaskedAck,
        Kind::UnaskedNack,
        Kind::Full,
    ]
}

impl Kind {
    /// Its words, which are the first of the line of a finding: `sd session`.
    pub fn words(self) -> &'static str
        ensures { result.now ≡ kind_words self }
    {
        match self {
            Kind::Malformed => "malformed",
            Kind::BadRun => "bad run",
            Kind::NoEndpoint => "no endpoint",
            Kind::Reboot => "reboot",
            Kind::SdSession => "sd session",
            Kind::SdOvertaken => "sd overtaken",
            Kind::Unanswered => "unanswered",
            Kind::Late => "late",
            Kind::Error => "error",
            Kind::Unasked => "unasked",
            Kind::Repeated => "repeated",
            Kind::KeyReused => "key reused",
            Kind::Interface => "interface",
            Kind::NotOffered => "not offered",
            Kind::EventRepeated => "event repeated",
            Kind::EventOvertaken => "event overtaken",
            Kind::EventGap => "event gap",
            Kind::EventUnsubscribed => "event unsubscribed",
            Kind::Silent => "silent",
            Kind::Segments => "segments",
            Kind::SegmentsMissing => "segments missing",
            Kind::OfferExpired => "offer expired",
            Kind::OfferMoved => "offer moved",
            Kind::Nack => "nack",
            Kind::SubscribeUnanswered => "subscribe unanswered",
            Kind::UnaskedAck => "unasked ack",
            Kind::UnaskedNack => "unasked nack",
            Kind::Full => "full",
        }
    }

    /// Its name in an object, which has `-` between its words: `sd-session`.
    pub fn name(self) -> &'static str
        ensures { result.now ≡ kind_name self }
    {
        match self {
            Kind::Malformed => "malformed",
            Kind::BadRun => "bad-run",
            Kind::NoEndpoint => "no-endpoint",
            Kind::Reboot => "reboot",
            Kind::SdSession => "sd-session",
            Kind::SdOvertaken => "sd-overtaken",
            Kind::Unanswered => "unanswered",
            Kind::Late => "late",
            Kind::Error => "error",
            Kind::Unasked => "unasked",
            Kind::Repeated => "repeated",
            Kind::KeyReused => "key-reused",
            Kind::Interface => "interface",
            Kind::NotOffered => "not-offered",
            Kind::EventRepeated => "event-repeated",
            Kind::EventOvertaken => "event-overtaken",
            Kind::EventGap => "event-gap",
            Kind::EventUnsubscribed => "event-unsubscribed",
            Kind::Silent => "silent",
            Kind::Segments => "segments",
            Kind::SegmentsMissing => "segments-missing",
            Kind::OfferExpired => "offer-expired",
            Kind::OfferMoved => "offer-moved",
            Kind::Nack => "nack",
            Kind::SubscribeUnanswered => "subscribe-unanswered",
            Kind::UnaskedAck => "unasked-ack",
            Kind::UnaskedNack => "unasked-nack",
            Kind::Full => "full",
        }
    }

    /// Its number in the order of the summary, from 0.
    pub fn number(self) -> usize
        ensures number { result ≡ kind_number self }
        ensures below { result < KIND_COUNT }
    {
        self as usize
    }

    /// The same number, as a key of a group has it.
    pub fn code(self) -> u8
        ensures { result ≡ kind_number self }
    {
        self as u8
    }
}
