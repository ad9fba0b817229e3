//! The kinds of steps, and the first words of their lines.
ghost use Rattle.std.specs.Prelude.{◌≡◌, bytes_eq};
ghost use Rattle.std.specs.List.{find};
ghost use Rattle.someip_world_schedule.specs.Steps.{step_kind_in, step_word};

/// What is done in a step.
#[derive(Clone, Copy)]
pub enum StepKind {
    /// The clock of a node goes on.
    Tick,
    /// A datagram is delivered.
    Deliver,
    /// A method is called, and an answer awaited.
    Call,
    /// A method is called without an answer.
    Oneway,
    /// A request is answered by a RESPONSE.
    Answer,
    /// A request is answered by an ERROR.
    Error,
    /// An event is published.
    Publish,
    /// An event is published to one subscriber.
    PublishTo,
    /// An eventgroup is subscribed to.
    Subscribe,
    /// A subscription is given up.
    Unsubscribe,
    /// An instance is no longer offered.
    StopOffer,
    /// A node starts anew.
    Restart,
    /// A liar sends any bytes.
    Inject,
}

/// All of them.
const STEP_KINDS: [StepKind; 13] = [
    StepKind::Tick,
    StepKind::Deliver,
    StepKind::Call,
    StepKind::Oneway,
    StepKind::Answer,
    StepKind::Error,
    StepKind::Publish,
    StepKind::PublishTo,
    StepKind::Subscribe,
    StepKind::Unsubscribe,
    StepKind::StopOffer,
    StepKind::Restart,
    StepKind::Inject,
];

impl StepKind {
    /// The first word of its line.
    fn word(self) -> &'static str
        ensures { result.now ≡ step_word self }
    {
        match self {
            StepKind::Tick => "tick",
            StepKind::Deliver => "deliver",
            StepKind::Call => "call",
            StepKind::Oneway => "oneway",
            StepKind::Answer => "answer",
            StepKind::Error => "error",
            StepKind::Publish => "publish",
            StepKind::PublishTo => "publish_to",
            StepKind::Subscribe => "subscribe",
            StepKind::Unsubscribe => "unsubscribe",
            StepKind::StopOffer => "stop_offer",
            StepKind::Restart => "restart",
            StepKind::Inject => "inject",
        }
    }
}

/// The kind of the steps whose lines begin with a word.
pub fn step_kind_of(word: &str) -> Option<StepKind>
    ensures { result ≡ step_kind_in word.now }
{
    named(&STEP_KINDS, word)
}

/// The first of some kinds whose word this is.
fn named(kinds: &[StepKind], word: &str) -> Option<StepKind>
    ensures { result ≡ find (λ kind. bytes_eq word.now (step_word kind)) kinds.now }
{
    kinds.iter().copied().find(|kind| word == kind.word())
}
