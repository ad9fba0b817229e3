//! Steps of a schedule, done at a node.
ghost use Rattle.std.specs.Prelude.{◌≡◌, if◌then◌else◌, Some, None, MatchOption};
ghost use Rattle.someip_node_rules.specs.forms.GoodConfigs.{is_good_delay};
ghost use Rattle.someip_world_schedule.specs.StepWords.{IsReadOf, cut_in};
ghost use Rattle.someip_c_node.specs.Calls.{Restarts};
ghost use Rattle.someip_c_node.specs.Acts.{Acts, DoesStep, Lends, OrLacksMemory, step_of_parts, step_without_node};

use crate::node::CNode;
use crate::outcome::Outcome;
use someip_node_rules::{Config, Payload};
use someip_texts::text_of;
use someip_world_schedule::{Step, StepPayload, WordFault, step_of_line};
use std::alloc::Global;

impl CNode {
    /// Does the step of a schedule that a line spells without its node, as `call 1111.0001 0421 0102`:
    /// what the method of its name does.
    ///
    /// It is refused as `OutputsWait`, and as `BadStep` where the line spells no step, or one of `tick`,
    /// `deliver` or `inject`. A payload that is longer than the message limit is `PayloadTooLong`
    /// whatever else the call would be refused for. `NoMemory` says that the line or its payload found no
    /// memory, and that nothing has changed.
    pub fn act(&mut self, alloc: Global, line: &[u8]) -> Outcome
        ensures { Acts line.now self.old result self.new }
    {
        if self.has_outputs() {
            return Outcome::OutputsWait;
        }
        match step_without_node(alloc, line) {
            Ok(step) => self.does(alloc, &step),
            Err(WordFault::Bad) => Outcome::BadStep,
            Err(WordFault::OutOfMemory) => Outcome::NoMemory,
        }
    }

    /// Does a step.
    fn does(&mut self, alloc: Global, step: &Step) -> Outcome
        ensures { OrLacksMemory (DoesStep step.now) self.old result self.new }
    {
        match step {
            Step::Call {
                kind,
                instance,
                method,
                payload,
                ..
            } => match payload_within(alloc, self.config(), payload) {
                Ok(bytes) => self.call(*kind, *instance, method.id(), bytes.as_slice()),
                Err(outcome) => outcome,
            },
            Step::Answer {
                token,
                reply,
                payload,
                ..
            } => match payload_within(alloc, self.config(), payload) {
                Ok(bytes) => self.answer(*token, *reply, bytes.as_slice()),
                Err(outcome) => outcome,
            },
            Step::Publish {
                instance,
                event,
                payload,
                ..
            } => match payload_within(alloc, self.config(), payload) {
                Ok(bytes) => self.publish(*instance, *event, bytes.as_slice()),
                Err(outcome) => outcome,
            },
            Step::PublishTo {
                eventgroup,
                to,
                event,
                payload,
                ..
            } => match payload_within(alloc, self.config(), payload) {
                Ok(bytes) => self.publish_to(*eventgroup, *to, *event, bytes.as_slice()),
                Err(outcome) => outcome,
            },
            Step::Subscribe { eventgroup, .. } => self.subscribe(*eventgroup),
            Step::Unsubscribe { eventgroup, .. } => self.unsubscribe(*eventgroup),
            Step::StopOffer { instance, .. } => self.stop_offer(*instance),
            Step::Restart { delay, .. } => self.restart_after(*delay),
            Step::Tick { .. } | Step::Deliver { .. } | Step::Inject { .. } => Outcome::BadStep,
        }
    }

    /// Starts the node again, with any delay.
    fn restart_after(&mut self, delay: u64) -> Outcome
        ensures { Restarts delay self.old result self.new }
    {
        if self.has_outputs() {
            return Outcome::OutputsWait;
        }
        match delay_within(self.config(), delay) {
            Some(delay) => self.restart(delay),
            None => Outcome::BadDelay,
        }
    }
}

/// The step that a line spells without its node.
fn step_without_node(alloc: Global, line: &[u8]) -> Result<Step, WordFault>
    ensures { IsReadOf (step_without_node line.now) result }
{
    let Some(text) = text_of(line) else {
        return Err(WordFault::Bad);
    };
    match cut_at_space(text) {
        Some((word, others)) => step_of_parts(alloc, word, others),
        None => Err(WordFault::Bad),
    }
}

/// The step that is spelled by two parts of a line with a node's name between them.
fn step_of_parts(alloc: Global, word: &str, others: &str) -> Result<Step, WordFault>
    ensures { IsReadOf (step_of_parts (word.now, others.now)) result }
{
    let whole = format!(in alloc; "{word} n {others}")?;
    step_of_line(alloc, whole.as_str())
}

/// What stands before the first space of a text, and after it.
fn cut_at_space(text: &str) -> Option<(&str, &str)>
    ensures { MatchOption result (cut_in 0x20 text.now ≡ None)
        (λ parts. cut_in 0x20 text.now ≡ Some (parts.0.now, parts.1.now)) }
{
    text.split_once(' ')
}

/// The bytes of a payload, if a message may be so long.
fn payload_within(alloc: Global, config: &Config, payload: &StepPayload) -> Result<Payload, Outcome>
    ensures { Lends config.now payload.now result }
{
    if config.common.message_limit < payload.len() {
        return Err(Outcome::PayloadTooLong);
    }
    match payload.to_payload(alloc) {
        Ok(bytes) => Ok(bytes),
        Err(_) => Err(Outcome::NoMemory),
    }
}

/// A delay, if it is in the range that the configuration gives.
fn delay_within(config: &Config, delay: u64) -> Option<u32>
    ensures { result ≡ (if is_good_delay config.now delay then Some delay else None) }
{
    let least = u64::from(config.common.initial_min_ms);
    let greatest = u64::from(config.common.initial_max_ms);
    if least <= delay && delay <= greatest {
        Some(delay as u32)
    } else {
        None
    }
}
