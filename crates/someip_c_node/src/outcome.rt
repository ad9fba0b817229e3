//! How a call ended.
ghost use Rattle.std.specs.Prelude.{◌≡◌, true, Some, slice_get};
ghost use Rattle.std.specs.Option.{option_and_then};
ghost use Rattle.someip_node.specs.Refusals.{is_call_refusal, is_rpc_refusal};
ghost use Rattle.someip_c_node.specs.Outcomes.{number_of, outcome_name, outcome_of, refusal_outcome, refusal_text};
ghost use Rattle.someip_node_rules.specs.declared.error.NodeError.TheVariants.{Rpc};

use someip_node_rules::NodeError;
use someip_rpc::RpcError;

/// How a call ended. All but `Done` are refusals; unless its doc says otherwise, a refused call
/// changes nothing.
#[derive(Clone, Copy, PartialEq, Eq)]
pub enum Outcome {
    /// It was done.
    Done,
    /// The handle has no node.
    Closed,
    /// The handle has a node already.
    Held,
    /// Outputs of an earlier call are to be taken first.
    OutputsWait,
    /// All outputs were taken.
    NothingLeft,
    /// The payload of the next output is longer than the buffer.
    BufferTooSmall,
    /// The clock alone gives nothing any more.
    NothingDue,
    /// The text is not UTF-8.
    NotText,
    /// The text is no TOML.
    NotToml,
    /// A key of the setup is needed and is not there.
    Missing,
    /// The value at a key of the setup is of another kind.
    WrongKind,
    /// The value at a key of the setup is outside its range.
    OutOfRange,
    /// The setup has a key that the format does not have.
    UnknownKey,
    /// Values of the setup may not be the same.
    Clash,
    /// The setup has no node of the name.
    NoSuchNode,
    /// The delay is outside the range that the setup gives. (15 is no number any more.)
    BadDelay = 16,
    /// The clock would go past 2^63 - 1 milliseconds.
    ClockPast,
    /// The eventgroup is not one of those that the setup wants.
    NotWanted,
    /// Memory ran out in an earlier call, and the node was not restarted since.
    Failed,
    /// Memory ran out. A node whose call this was has failed; a call without one changed nothing.
    OutOfMemory,
    /// The instance is not offered.
    NotOffered,
    /// No further call can wait for its answer.
    Busy,
    /// The payload is longer than the message limit.
    TooLong,
    /// No request waits under the token.
    UnknownToken,
    /// An ERROR has the code of no error. (25 is no number any more.)
    BadErrorCode = 26,
    /// There is no such event.
    UnknownEvent,
    /// The endpoint has no such subscription.
    NotSubscribed,
    /// The line is no step that a node does.
    BadStep,
    /// The payload of the step is longer than the message limit, which is judged before all else.
    PayloadTooLong,
    /// Memory ran out, and nothing has changed.
    NoMemory,
    /// The text is no shape, or no payload can have it.
    BadShape,
    /// The payload is not the bytes of a value of the shape.
    BadPayload,
    /// The text is no value of the shape, or none that a payload can have.
    BadValue,
}

/// The outcomes by their numbers.
const NUMBERED: [Option<Outcome>; 35] = [
    Some(Outcome::Done),
    Some(Outcome::Closed),
    Some(Outcome::Held),
    Some(Outcome::OutputsWait),
    Some(Outcome::NothingLeft),
    Some(Outcome::BufferTooSmall),
    Some(Outcome::NothingDue),
    Some(Outcome::NotText),
    Some(Outcome::NotToml),
    Some(Outcome::Missing),
    Some(Outcome::WrongKind),
    Some(Outcome::OutOfRange),
    Some(Outcome::UnknownKey),
    Some(Outcome::Clash),
    Some(Outcome::NoSuchNode),
    None,
    Some(Outcome::BadDelay),
    Some(Outcome::ClockPast),
    Some(Outcome::NotWanted),
    Some(Outcome::Failed),
    Some(Outcome::OutOfMemory),
    Some(Outcome::NotOffered),
    Some(Outcome::Busy),
    Some(Outcome::TooLong),
    Some(Outcome::UnknownToken),
    None,
    Some(Outcome::BadErrorCode),
    Some(Outcome::UnknownEvent),
    Some(Outcome::NotSubscribed),
    Some(Outcome::BadStep),
    Some(Outcome::PayloadTooLong),
    Some(Outcome::NoMemory),
    Some(Outcome::BadShape),
    Some(Outcome::BadPayload),
    Some(Outcome::BadValue),
];

impl Outcome {
    /// The number by which C is told.
    pub fn number(self) -> u32
        ensures { result ≡ number_of self }
    {
        self as u32
    }

    /// The outcome that a number tells, if it tells one.
    pub fn of_number(number: u32) -> Option<Outcome>
        ensures { result ≡ outcome_of number }
    {
        outcome_at(&NUMBERED, number)
    }

    /// Its name.
    pub fn name(self) -> &'static str
        ensures { result.now ≡ outcome_name self }
    {
        match self {
            Outcome::Done => "Done",
            Outcome::Closed => "Closed",
            Outcome::Held => "Held",
            Outcome::OutputsWait => "OutputsWait",
            Outcome::NothingLeft => "NothingLeft",
            Outcome::BufferTooSmall => "BufferTooSmall",
            Outcome::NothingDue => "NothingDue",
            Outcome::NotText => "NotText",
            Outcome::NotToml => "NotToml",
            Outcome::Missing => "Missing",
            Outcome::WrongKind => "WrongKind",
            Outcome::OutOfRange => "OutOfRange",
            Outcome::UnknownKey => "UnknownKey",
            Outcome::Clash => "Clash",
            Outcome::NoSuchNode => "NoSuchNode",
            Outcome::BadDelay => "BadDelay",
            Outcome::ClockPast => "ClockPast",
            Outcome::NotWanted => "NotWanted",
            Outcome::Failed => "Failed",
            Outcome::OutOfMemory => "OutOfMemory",
            Outcome::NotOffered => "NotOffered",
            Outcome::Busy => "Busy",
            Outcome::TooLong => "TooLong",
            Outcome::UnknownToken => "UnknownToken",
            Outcome::BadErrorCode => "BadErrorCode",
            Outcome::UnknownEvent => "UnknownEvent",
            Outcome::NotSubscribed => "NotSubscribed",
            Outcome::BadStep => "BadStep",
            Outcome::PayloadTooLong => "PayloadTooLong",
            Outcome::NoMemory => "NoMemory",
            Outcome::BadShape => "BadShape",
            Outcome::BadPayload => "BadPayload",
            Outcome::BadValue => "BadValue",
        }
    }

    /// What a trace tells of a call that ended so, and no text where it has no line of it.
    pub fn refusal_text(self) -> &'static str
        ensures { result.now ≡ refusal_text self }
    {
        match self {
            Outcome::NotWanted => "refused NotWanted",
            Outcome::NotOffered => "refused NotOffered",
            Outcome::Busy => "refused Busy",
            Outcome::UnknownToken => "refused UnknownToken",
            Outcome::BadErrorCode => "refused BadErrorCode",
            Outcome::UnknownEvent => "refused UnknownEvent",
            Outcome::NotSubscribed => "refused NotSubscribed",
            _ => "",
        }
    }
}

/// What stands at a place, if anything does.
fn outcome_at(numbered: &[Option<Outcome>], place: u32) -> Option<Outcome>
    ensures { result ≡ option_and_then (λ outcome. outcome) (slice_get numbered.now place) }
{
    match numbered.get(place as usize) {
        Some(outcome) => *outcome,
        None => None,
    }
}

/// The refusal of a node that was started, as an outcome.
pub(crate) fn refusal(error: NodeError) -> Outcome
    requires { is_call_refusal error ≡ true }
    ensures { refusal_outcome error ≡ Some result }
{
    match error {
        NodeError::BadConfig | NodeError::BadDelay => unreachable!(),
        NodeError::ClockPast => Outcome::ClockPast,
        NodeError::NotWanted => Outcome::NotWanted,
        NodeError::Failed => Outcome::Failed,
        NodeError::OutOfMemory => Outcome::OutOfMemory,
        NodeError::Rpc(refusal) => rpc_refusal(refusal),
    }
}

/// The refusal of a call, an answer or a publication, as an outcome.
fn rpc_refusal(refusal: RpcError) -> Outcome
    requires { is_rpc_refusal refusal ≡ true }
    ensures { refusal_outcome (Rpc refusal) ≡ Some result }
{
    match refusal {
        RpcError::NotPending | RpcError::OutOfMemory => unreachable!(),
        RpcError::NotOffered => Outcome::NotOffered,
        RpcError::Busy => Outcome::Busy,
        RpcError::TooLong => Outcome::TooLong,
        RpcError::UnknownToken => Outcome::UnknownToken,
        RpcError::BadErrorCode => Outcome::BadErrorCode,
        RpcError::UnknownEvent => Outcome::UnknownEvent,
        RpcError::NotSubscribed => Outcome::NotSubscribed,
    }
}
