//! The lines of a schedule that are printed of steps.
ghost use Rattle.std.specs.Prelude.{◌≡◌, ◌==◌, ◌++◌, ◌∷◌, [], IfOk, OnOk, codes, decimal, map, string_bytes};
ghost use Rattle.std.specs.List.{list_all};
ghost use Rattle.someip_texts.specs.Words.{bytes_text, hex2, hex4, word_text};
ghost use Rattle.someip_world_schedule.specs.declared.step.Step.TheVariants.{Answer, Call, Deliver, Inject};
ghost use Rattle.someip_world_schedule.specs.declared.step.Step.TheVariants.{Publish, PublishTo, StopOffer};
ghost use Rattle.someipctl_explore.specs.StepLines.{call_head, instance_word, is_run, line_text, payload_word, reply_code};
ghost use Rattle.someipctl_explore.specs.StepLines.{reply_head, step_line, steps_text};

use sd_core::{Eventgroup, InstanceId};
use someip_rpc::{CallKind, Reply};
use someip_world::{NodeName, Step};
use someip_world_schedule::{MethodId, SourcePort, StepPayload};
use someipctl_io::{Buffer, Word, put_end};
use std::alloc::{AllocError, Global};
use std::net::SocketAddrV4;

/// The longest run of one byte that a schedule can spell as `HH*N`.
const RUN_LIMIT: usize = 1_048_576;

/// A line: its first word, and others.
pub(crate) fn line_text(
    alloc: Global,
    head: &str,
    words: &[Word<'_>],
) -> Result<Vec<u8>, AllocError>
    ensures { IfOk result (λ text. text.items ≡ line_text head.now (map word_text words.now)) }
{
    let mut text = Vec::new(alloc);
    let mut buffer = Buffer::new(alloc)?;
    buffer
        .put(&mut text, head.as_bytes())
        .map_err(|_| AllocError)?;
    put_end(&mut buffer, &mut text, words).map_err(|_| AllocError)?;
    buffer.flush(&mut text).map_err(|_| AllocError)?;
    Ok(text)
}

/// Whether bytes are all the same one.
fn are_all(bytes: &[u8], byte: u8) -> bool
    ensures { result ≡ list_all (λ b. b == byte) bytes.now }
{
    bytes.iter().all(|b| *b == byte)
}

/// Whether bytes are a run of one byte, from 8 times on, that a schedule can spell.
fn is_run(bytes: &[u8]) -> bool
    ensures { result ≡ is_run bytes.now }
{
    let [first, others @ ..] = bytes else {
        return false;
    };
    7 <= others.len() && others.len() < RUN_LIMIT && are_all(others, *first)
}

/// The word of a payload: `HH*N` for a run of one byte, and else its bytes in hex, or `-` for none.
fn payload_word(alloc: Global, payload: &StepPayload) -> Result<String, AllocError>
    ensures { IfOk result (λ word. string_bytes word ≡ payload_word payload.now) }
{
    let bytes = payload.to_payload(alloc)?;
    bytes_word(alloc, bytes.as_slice())
}

/// The same of these bytes.
fn bytes_word(alloc: Global, bytes: &[u8]) -> Result<String, AllocError>
    ensures { IfOk result (λ word. string_bytes word ≡ payload_word bytes.now) }
{
    let [first, ..] = bytes else {
        return hex_word(alloc, bytes);
    };
    if is_run(bytes) {
        return run_word(alloc, *first, bytes.len());
    }
    hex_word(alloc, bytes)
}

/// A byte, so many times: `HH*N`.
fn run_word(alloc: Global, byte: u8, count: usize) -> Result<String, AllocError>
    ensures { IfOk result (λ word. string_bytes word ≡ hex2 byte ++ codes "*" ++ decimal count) }
{
    let first = Word::Byte(byte);
    let mut word = format!(in alloc; "{first}")?;
    let number = format!(in alloc; "{count}")?;
    word.push_str("*")?;
    word.push_str(number.as_str())?;
    Ok(word)
}

/// Bytes in hex, or `-` for none.
fn hex_word(alloc: Global, bytes: &[u8]) -> Result<String, AllocError>
    ensures { IfOk result (λ word. string_bytes word ≡ bytes_text bytes.now) }
{
    let word = Word::Bytes(bytes);
    format!(in alloc; "{word}")
}

/// The first word of a call.
fn call_head(kind: CallKind) -> &'static str
    ensures { result.now ≡ call_head kind }
{
    match kind {
        CallKind::Request => "call",
        CallKind::RequestNoReturn => "oneway",
    }
}

/// The first word of an answer.
fn reply_head(reply: Reply) -> &'static str
    ensures { result.now ≡ reply_head reply }
{
    match reply {
        Reply::Response(_) => "answer",
        Reply::Error(_) => "error",
    }
}

/// Its Return Code.
fn reply_code(reply: Reply) -> u8
    ensures { result ≡ reply_code reply }
{
    match reply {
        Reply::Response(code) => code.0,
        Reply::Error(code) => code.0,
    }
}

/// The line of a step that names a node and a time.
fn timed_line(alloc: Global, head: &str, node: &NodeName, ms: u64) -> Result<Vec<u8>, AllocError>
    ensures { IfOk result (λ text. text.items ≡ line_text head.now (node.now ∷ decimal ms ∷ [])) }
{
    let words = [Word::Text(node.as_str()), Word::Number(ms as usize)];
    line_text(alloc, head, &words)
}

/// The line of a delivery.
fn deliver_line(alloc: Global, number: u64, node: &NodeName) -> Result<Vec<u8>, AllocError>
    ensures { IfOk result (λ text. text.items ≡ step_line (Deliver number node.now)) }
{
    let words = [Word::Number(number as usize), Word::Text(node.as_str())];
    line_text(alloc, "deliver", &words)
}

/// The line of a call.
fn call_line(
    alloc: Global,
    node: &NodeName,
    kind: CallKind,
    instance: InstanceId,
    method: MethodId,
    payload: &StepPayload,
) -> Result<Vec<u8>, AllocError>
    ensures { IfOk result (λ text. text.items
        ≡ step_line (Call node.now kind instance method payload.now)) }
{
    let payload = payload_word(alloc, payload)?;
    let words = [
        Word::Text(node.as_str()),
        Word::Ids(instance.service, instance.instance),
        Word::Id(method.id()),
        Word::Text(payload.as_str()),
    ];
    line_text(alloc, call_head(kind), &words)
}

/// The line of an answer.
fn answer_line(
    alloc: Global,
    node: &NodeName,
    token: u64,
    reply: Reply,
    payload: &StepPayload,
) -> Result<Vec<u8>, AllocError>
    ensures { IfOk result (λ text. text.items ≡ step_line (Answer node.now token reply payload.now)) }
{
    let payload = payload_word(alloc, payload)?;
    let words = [
        Word::Text(node.as_str()),
        Word::Number(token as usize),
        Word::Byte(reply_code(reply)),
        Word::Text(payload.as_str()),
    ];
    line_text(alloc, reply_head(reply), &words)
}

/// The line of an event that is published.
fn publish_line(
    alloc: Global,
    node: &NodeName,
    instance: InstanceId,
    event: u16,
    payload: &StepPayload,
) -> Result<Vec<u8>, AllocError>
    ensures { IfOk result (λ text. text.items
        ≡ step_line (Publish node.now instance event payload.now)) }
{
    let payload = payload_word(alloc, payload)?;
    let words = [
        Word::Text(node.as_str()),
        Word::Ids(instance.service, instance.instance),
        Word::Id(event),
        Word::Text(payload.as_str()),
    ];
    line_text(alloc, "publish", &words)
}

/// The line of an event that is published to one subscriber.
fn publish_to_line(
    alloc: Global,
    node: &NodeName,
    eventgroup: Eventgroup,
    to: SocketAddrV4,
    event: u16,
    payload: &StepPayload,
) -> Result<Vec<u8>, AllocError>
    ensures { IfOk result (λ text. text.items
        ≡ step_line (PublishTo node.now eventgroup to event payload.now)) }
{
    let payload = payload_word(alloc, payload)?;
    let words = [
        Word::Text(node.as_str()),
        Word::Ids(eventgroup.instance.service, eventgroup.instance.instance),
        Word::Id(eventgroup.id),
        Word::Endpoint(to),
        Word::Id(event),
        Word::Text(payload.as_str()),
    ];
    line_text(alloc, "publish_to", &words)
}

/// The line of a step that names an eventgroup.
fn eventgroup_line(
    alloc: Global,
    head: &str,
    node: &NodeName,
    eventgroup: Eventgroup,
) -> Result<Vec<u8>, AllocError>
    ensures { IfOk result (λ text. text.items ≡ line_text head.now
        (node.now ∷ instance_word eventgroup.instance ∷ hex4 eventgroup.id ∷ [])) }
{
    let words = [
        Word::Text(node.as_str()),
        Word::Ids(eventgroup.instance.service, eventgroup.instance.instance),
        Word::Id(eventgroup.id),
    ];
    line_text(alloc, head, &words)
}

/// The line of an instance that is no longer offered.
fn stop_offer_line(
    alloc: Global,
    node: &NodeName,
    instance: InstanceId,
) -> Result<Vec<u8>, AllocError>
    ensures { IfOk result (λ text. text.items ≡ step_line (StopOffer node.now instance)) }
{
    let words = [
        Word::Text(node.as_str()),
        Word::Ids(instance.service, instance.instance),
    ];
    line_text(alloc, "stop_offer", &words)
}

/// The line of what a liar sends.
fn inject_line(
    alloc: Global,
    node: &NodeName,
    port: SourcePort,
    to: SocketAddrV4,
    payload: &StepPayload,
) -> Result<Vec<u8>, AllocError>
    ensures { IfOk result (λ text. text.items ≡ step_line (Inject node.now port to payload.now)) }
{
    let payload = payload_word(alloc, payload)?;
    let words = [
        Word::Text(node.as_str()),
        Word::Number(port.number() as usize),
        Word::Endpoint(to),
        Word::Text(payload.as_str()),
    ];
    line_text(alloc, "inject", &words)
}

/// The line of a schedule that is printed of a step.
fn step_line(alloc: Global, step: &Step) -> Result<Vec<u8>, AllocError>
    ensures { IfOk result (λ text. text.items ≡ step_line step.now) }
{
    match step {
        Step::Tick { node, ms } => timed_line(alloc, "tick", node, *ms),
        Step::Deliver { number, node } => deliver_line(alloc, *number, node),
        Step::Call {
            node,
            kind,
            instance,
            method,
            payload,
        } => call_line(alloc, node, *kind, *instance, *method, payload),
        Step::Answer {
            node,
            token,
            reply,
            payload,
        } => answer_line(alloc, node, *token, *reply, payload),
        Step::Publish {
            node,
            instance,
            event,
            payload,
        } => publish_line(alloc, node, *instance, *event, payload),
        Step::PublishTo {
            node,
            eventgroup,
            to,
            event,
            payload,
        } => publish_to_line(alloc, node, *eventgroup, *to, *event, payload),
        Step::Subscribe { node, eventgroup } => eventgroup_line(
            alloc,
            "subscribe",
            node,
            *eventgroup,
        ),
        Step::Unsubscribe { node, eventgroup } => {
            eventgroup_line(alloc, "unsubscribe", node, *eventgroup)
        }
        Step::StopOffer { node, instance } => stop_offer_line(alloc, node, *instance),
        Step::Restart { node, delay } => timed_line(alloc, "restart", node, *delay),
        Step::Inject {
            node,
            port,
            to,
            payload,
        } => inject_line(alloc, node, *port, *to, payload),
    }
}

/// Adds the lines of steps to a text.
pub(crate) fn put_steps(alloc: Global, steps: &[Step], text: &mut Vec<u8>) -> Result<(), AllocError>
    ensures { OnOk result (text.new.items ≡ text.old.items ++ steps_text steps.now) }
{
    for step in steps {
        let line = step_line(alloc, step)?;
        text.extend_from_slice(line.as_slice())?;
    }
    Ok(())
}
