//! The steps that words spell.
ghost use Rattle.std.specs.Prelude.{◌≡◌, map, IfOk};
ghost use Rattle.someip_world_schedule.specs.StepWords.{IsReadOf};
ghost use Rattle.someip_world_schedule.specs.Steps.{words_in, tick_step, deliver_step, call_step, answer_step};
ghost use Rattle.someip_world_schedule.specs.Steps.{publish_step, publish_to_step, subscription, subscription_step};
ghost use Rattle.someip_world_schedule.specs.Steps.{answered, stop_offer_step, restart_step, inject_step, step_of_kind, step_of_words};

use crate::step::Step;
use crate::step_kind::{StepKind, step_kind_of};
use crate::step_name::name;
use crate::step_payload::payload;
use crate::step_port::source_port;
use crate::step_words::{WordFault, code, endpoint, eventgroup, id, instance, method};
use someip_rpc::{CallKind, Reply};
use someip_texts::plain_u64;
use someip_wire::ReturnCode;
use std::alloc::{AllocError, Global};

/// How a request is answered.
#[derive(Clone, Copy)]
enum AnswerKind {
    Response,
    Error,
}

impl AnswerKind {
    /// The answer with a Return Code.
    fn reply(self, code: ReturnCode) -> Reply
        ensures { result ≡ answered self code }
    {
        match self {
            AnswerKind::Response => Reply::Response(code),
            AnswerKind::Error => Reply::Error(code),
        }
    }
}

/// What becomes of a subscription.
#[derive(Clone, Copy)]
enum SubscriptionKind {
    Begun,
    Ended,
}

/// The words of a line.
fn words_of<'t>(alloc: Global, line: &'t str) -> Result<Vec<&'t str>, AllocError>
    ensures { IfOk result (λ words. map (λ w. w.now) words.items ≡ words_in line.now) }
{
    line.split(' ').collect(alloc)
}

/// The step that a line of UTF-8 spells.
pub fn step_of_line(alloc: Global, line: &str) -> Result<Step, WordFault>
    ensures { IsReadOf (step_of_words (words_in line.now)) result }
{
    let words = words_of(alloc, line)?;
    step_of_words(alloc, words.as_slice())
}

/// The step that words spell.
fn step_of_words(alloc: Global, words: &[&str]) -> Result<Step, WordFault>
    ensures { IsReadOf (step_of_words (map (λ w. w.now) words.now)) result }
{
    let [word, others @ ..] = words else {
        return Err(WordFault::Bad);
    };
    match step_kind_of(word) {
        Some(kind) => step_of(alloc, kind, others),
        None => Err(WordFault::Bad),
    }
}

/// The step of a kind, and of the words after the first.
fn step_of(alloc: Global, kind: StepKind, words: &[&str]) -> Result<Step, WordFault>
    ensures { IsReadOf (step_of_kind kind (map (λ w. w.now) words.now)) result }
{
    match kind {
        StepKind::Tick => tick(alloc, words),
        StepKind::Deliver => deliver(alloc, words),
        StepKind::Call => call(alloc, CallKind::Request, words),
        StepKind::Oneway => call(alloc, CallKind::RequestNoReturn, words),
        StepKind::Answer => answer(alloc, AnswerKind::Response, words),
        StepKind::Error => answer(alloc, AnswerKind::Error, words),
        StepKind::Publish => publish(alloc, words),
        StepKind::PublishTo => publish_to(alloc, words),
        StepKind::Subscribe => subscription(alloc, SubscriptionKind::Begun, words),
        StepKind::Unsubscribe => subscription(alloc, SubscriptionKind::Ended, words),
        StepKind::StopOffer => stop_offer(alloc, words),
        StepKind::Restart => restart(alloc, words),
        StepKind::Inject => inject(alloc, words),
    }
}

/// NODE MS.
fn tick(alloc: Global, words: &[&str]) -> Result<Step, WordFault>
    ensures { IsReadOf (tick_step (map (λ w. w.now) words.now)) result }
{
    let [node, ms] = words else {
        return Err(WordFault::Bad);
    };
    let node = name(alloc, node)?;
    let ms = plain_u64(ms).ok_or(WordFault::Bad)?;
    Ok(Step::Tick { node, ms })
}

/// N NODE.
fn deliver(alloc: Global, words: &[&str]) -> Result<Step, WordFault>
    ensures { IsReadOf (deliver_step (map (λ w. w.now) words.now)) result }
{
    let [first, node] = words else {
        return Err(WordFault::Bad);
    };
    let number = plain_u64(first).ok_or(WordFault::Bad)?;
    let node = name(alloc, node)?;
    Ok(Step::Deliver { number, node })
}

/// NODE SI METHOD PAYLOAD.
fn call(alloc: Global, kind: CallKind, words: &[&str]) -> Result<Step, WordFault>
    ensures { IsReadOf (call_step kind (map (λ w. w.now) words.now)) result }
{
    let [node, si, id, bytes] = words else {
        return Err(WordFault::Bad);
    };
    let node = name(alloc, node)?;
    let instance = instance(si).ok_or(WordFault::Bad)?;
    let method = method(id).ok_or(WordFault::Bad)?;
    let payload = payload(alloc, bytes)?;
    Ok(Step::Call {
        node,
        kind,
        instance,
        method,
        payload,
    })
}

/// NODE T CODE PAYLOAD, of a RESPONSE or an ERROR.
fn answer(alloc: Global, kind: AnswerKind, words: &[&str]) -> Result<Step, WordFault>
    ensures { IsReadOf (answer_step (answered kind) (map (λ w. w.now) words.now)) result }
{
    let [node, token, code_word, bytes] = words else {
        return Err(WordFault::Bad);
    };
    let node = name(alloc, node)?;
    let token = plain_u64(token).ok_or(WordFault::Bad)?;
    let code = code(code_word).ok_or(WordFault::Bad)?;
    let payload = payload(alloc, bytes)?;
    Ok(Step::Answer {
        node,
        token,
        reply: kind.reply(code),
        payload,
    })
}

/// NODE SI EVENT PAYLOAD.
fn publish(alloc: Global, words: &[&str]) -> Result<Step, WordFault>
    ensures { IsReadOf (publish_step (map (λ w. w.now) words.now)) result }
{
    let [node, si, event, bytes] = words else {
        return Err(WordFault::Bad);
    };
    let node = name(alloc, node)?;
    let instance = instance(si).ok_or(WordFault::Bad)?;
    let event = id(event).ok_or(WordFault::Bad)?;
    let payload = payload(alloc, bytes)?;
    Ok(Step::Publish {
        node,
        instance,
        event,
        payload,
    })
}

/// NODE SI GROUP EP EVENT PAYLOAD.
fn publish_to(alloc: Global, words: &[&str]) -> Result<Step, WordFault>
    ensures { IsReadOf (publish_to_step (map (λ w. w.now) words.now)) result }
{
    let [node, si, group, ep, event, bytes] = words else {
        return Err(WordFault::Bad);
    };
    let node = name(alloc, node)?;
    let eventgroup = eventgroup(si, group).ok_or(WordFault::Bad)?;
    let to = endpoint(ep).ok_or(WordFault::Bad)?;
    let event = id(event).ok_or(WordFault::Bad)?;
    let payload = payload(alloc, bytes)?;
    Ok(Step::PublishTo {
        node,
        eventgroup,
        to,
        event,
        payload,
    })
}

/// NODE SI GROUP, of a subscription that begins or ends.
fn subscription(alloc: Global, kind: SubscriptionKind, words: &[&str]) -> Result<Step, WordFault>
    ensures { IsReadOf (subscription_step (subscription kind) (map (λ w. w.now) words.now)) result }
{
    let [node, si, group] = words else {
        return Err(WordFault::Bad);
    };
    let node = name(alloc, node)?;
    let eventgroup = eventgroup(si, group).ok_or(WordFault::Bad)?;
    match kind {
        SubscriptionKind::Begun => Ok(Step::Subscribe { node, eventgroup }),
        SubscriptionKind::Ended => Ok(Step::Unsubscribe { node, eventgroup }),
    }
}

/// NODE SI.
fn stop_offer(alloc: Global, words: &[&str]) -> Result<Step, WordFault>
    ensures { IsReadOf (stop_offer_step (map (λ w. w.now) words.now)) result }
{
    let [node, si] = words else {
        return Err(WordFault::Bad);
    };
    let node = name(alloc, node)?;
    let instance = instance(si).ok_or(WordFault::Bad)?;
    Ok(Step::StopOffer { node, instance })
}

/// NODE DELAY.
fn restart(alloc: Global, words: &[&str]) -> Result<Step, WordFault>
    ensures { IsReadOf (restart_step (map (λ w. w.now) words.now)) result }
{
    let [node, delay] = words else {
        return Err(WordFault::Bad);
    };
    let node = name(alloc, node)?;
    let delay = plain_u64(delay).ok_or(WordFault::Bad)?;
    Ok(Step::Restart { node, delay })
}

/// NODE PORT EP PAYLOAD.
fn inject(alloc: Global, words: &[&str]) -> Result<Step, WordFault>
    ensures { IsReadOf (inject_step (map (λ w. w.now) words.now)) result }
{
    let [node, port, ep, bytes] = words else {
        return Err(WordFault::Bad);
    };
    let node = name(alloc, node)?;
    let port = source_port(port).ok_or(WordFault::Bad)?;
    let to = endpoint(ep).ok_or(WordFault::Bad)?;
    let payload = payload(alloc, bytes)?;
    Ok(Step::Inject {
        node,
        port,
        to,
        payload,
    })
}
