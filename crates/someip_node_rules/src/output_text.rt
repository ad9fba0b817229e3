//! The words that tell what a node gives.
//!
//! A program that embeds a node prints an output by its `Display`. The line of a trace is made of the same
//! words.
ghost use Rattle.std.specs.Prelude.{◌≡◌, ◌∷◌, ◌++◌, [], Some, codes, map};
ghost use Rattle.std.specs.Net.Text.{socket_v4_text};
ghost use Rattle.std.specs.Fmt.{WritesOnOk};
ghost use Rattle.someip_texts.specs.Words.{spaced, word_text};
ghost use Rattle.someip_node_rules.specs.forms.OutputWords.{bytes_of, instance_word, number_words};
ghost use Rattle.someip_node_rules.specs.forms.OutputWords.{output_text, output_words, token_word};

use crate::output::Output;
use sd_core::Eventgroup;
use someip_texts::Word;
use std::fmt;
use std::fmt::Display;
use std::marker::Model;
use std::net::SocketAddrV4;

/// The most words that tell an output.
const MOST_WORDS: usize = 5;

/// The words that tell an output. Contracts see their texts.
#[derive(Drop)]
pub struct OutputWords<'o> {
    /// The words, and after them some that nobody reads.
    words: [Word<'o>; MOST_WORDS],
    /// How many words there are.
    count: usize,
}

impl<'o> Model for OutputWords<'o> {
    ghost use Rattle.std.specs.Prelude.{List, ℕ, map, take, ◌≤◌};
    ghost use Rattle.someip_texts.specs.Words.{word_text};

    ghost Value = { List (List ℕ) };

    ghost view = { λ w. map word_text (take w.count w.words) };

    ghost invariant = { λ w. w.count ≤ 5 };
}

impl<'o> OutputWords<'o> {
    /// The words, one after the other.
    pub fn as_slice(&self) -> &[Word<'o>]
        ensures { map word_text result.now ≡ self.now }
    {
        &self.words[..self.count]
    }

    fn two(a: Word<'o>, b: Word<'o>) -> OutputWords<'o>
        ensures { result ≡ word_text a.entry ∷ word_text b.entry ∷ [] }
    {
        let none = Word::Text("");
        OutputWords {
            words: [a, b, none, none, none],
            count: 2,
        }
    }

    fn three(a: Word<'o>, b: Word<'o>, c: Word<'o>) -> OutputWords<'o>
        ensures { result ≡ word_text a.entry ∷ word_text b.entry ∷ word_text c.entry ∷ [] }
    {
        let none = Word::Text("");
        OutputWords {
            words: [a, b, c, none, none],
            count: 3,
        }
    }

    fn four(a: Word<'o>, b: Word<'o>, c: Word<'o>, d: Word<'o>) -> OutputWords<'o>
        ensures { result ≡ word_text a.entry ∷ word_text b.entry ∷ word_text c.entry ∷ word_text d.entry ∷ [] }
    {
        let none = Word::Text("");
        OutputWords {
            words: [a, b, c, d, none],
            count: 4,
        }
    }

    fn five(words: [Word<'o>; MOST_WORDS]) -> OutputWords<'o>
        ensures { result ≡ map word_text words.entry }
    {
        OutputWords {
            words,
            count: MOST_WORDS,
        }
    }
}

impl Output {
    /// The words that tell it: IDs have four hex digits, codes two, and payloads are hex, or `-` where they
    /// are empty. A datagram that is sent is told with its number, if it has one.
    pub fn words(&self, number: Option<usize>) -> OutputWords<'_>
        ensures { result ≡ output_words (number_words number) self.now }
    {
        let bytes = Word::Bytes(bytes_of(self));
        match self {
            Output::Sent { from, to, .. } => return sent(number, *from, *to, bytes),
            Output::Answered {
                message,
                session,
                code,
                ..
            } => {
                return OutputWords::five([
                    Word::Text("answer"),
                    Word::Ids(message.service, message.method),
                    Word::Id(*session),
                    Word::Byte(code.0),
                    bytes,
                ]);
            }
            Output::Request {
                token,
                instance,
                method,
                ..
            } => {
                return OutputWords::five([
                    Word::Text("request"),
                    token_word(*token),
                    Word::Ids(instance.service, instance.instance),
                    Word::Id(*method),
                    bytes,
                ]);
            }
            Output::Event {
                instance,
                event,
                ..
            } => {
                return OutputWords::four(
                    Word::Text("event"),
                    Word::Ids(instance.service, instance.instance),
                    Word::Id(*event),
                    bytes,
                );
            }
            Output::Called { message, session } => OutputWords::three(
                Word::Text("call"),
                Word::Ids(message.service, message.method),
                Word::Id(*session),
            ),
            Output::TimedOut { message, session } => OutputWords::three(
                Word::Text("timeout"),
                Word::Ids(message.service, message.method),
                Word::Id(*session),
            ),
            Output::Known { instance, endpoint } => OutputWords::three(
                Word::Text("known"),
                Word::Ids(instance.service, instance.instance),
                Word::Endpoint(*endpoint),
            ),
            Output::Gone { instance } => OutputWords::two(
                Word::Text("gone"),
                Word::Ids(instance.service, instance.instance),
            ),
            Output::Subscribed {
                eventgroup,
                counter,
            } => OutputWords::four(
                Word::Text("subscribed"),
                instance_of(eventgroup),
                Word::Id(eventgroup.id),
                Word::Number(counter.number() as usize),
            ),
            Output::Unsubscribed { eventgroup } => OutputWords::three(
                Word::Text("unsubscribed"),
                instance_of(eventgroup),
                Word::Id(eventgroup.id),
            ),
            Output::Accepted {
                eventgroup,
                endpoint,
                counter,
            } => OutputWords::five([
                Word::Text("accepted"),
                instance_of(eventgroup),
                Word::Id(eventgroup.id),
                Word::Endpoint(*endpoint),
                Word::Number(counter.number() as usize),
            ]),
            Output::Nacked { eventgroup, cause } => OutputWords::four(
                Word::Text("nacked"),
                instance_of(eventgroup),
                Word::Id(eventgroup.id),
                Word::Text(cause.name()),
            ),
            Output::Rebooted { peer } => {
                OutputWords::two(Word::Text("reboot"), Word::Address(*peer))
            }
            Output::Dropped { reason } => {
                OutputWords::two(Word::Text("dropped"), Word::Text(reason.name()))
            }
        }
    }
}

/// The bytes of an output that has some.
fn bytes_of(output: &Output) -> &[u8]
    ensures { result.now ≡ bytes_of output.now }
{
    match output {
        Output::Sent { bytes, .. } => bytes.as_slice(),
        Output::Answered { payload, .. }
        | Output::Request { payload, .. }
        | Output::Event { payload, .. } => payload.as_slice(),
        _ => &[],
    }
}

/// A datagram that is sent, with its number, if it has one.
fn sent<'o>(
    number: Option<usize>,
    from: SocketAddrV4,
    to: SocketAddrV4,
    bytes: Word<'o>,
) -> OutputWords<'o>
    ensures { result ≡ codes "sent" ∷ (number_words number ++ (socket_v4_text from ∷ socket_v4_text to ∷ word_text bytes.entry ∷ [])) }
{
    let (from, to) = (Word::Endpoint(from), Word::Endpoint(to));
    match number {
        Some(number) => OutputWords::five([
            Word::Text("sent"),
            Word::Number(number),
            from,
            to,
            bytes,
        ]),
        None => OutputWords::four(Word::Text("sent"), from, to, bytes),
    }
}

/// The instance of an eventgroup.
fn instance_of(eventgroup: &Eventgroup) -> Word<'static>
    ensures { word_text result ≡ instance_word eventgroup.now.instance }
{
    Word::Ids(eventgroup.instance.service, eventgroup.instance.instance)
}

/// The number of a token, or `-` for none.
fn token_word(token: Option<u64>) -> Word<'static>
    ensures { word_text result ≡ token_word token }
{
    match token {
        Some(token) => Word::Number(token as usize),
        None => Word::Text("-"),
    }
}

/// As a line of a trace tells it, without the number of a datagram.
///
/// ```text
/// known 1111.0001 192.168.0.1:30509
/// call 1111.0421 0001
/// sent 192.168.0.2:40001 192.168.0.1:30509 111104210000000a01020001010100000102
/// ```
impl Display for Output {
    ghost output = { λ output. Some (output_text output) };

    fn fmt<W: fmt::Write>(&self, f: &mut fmt::Formatter<W>) -> fmt::Result {
        let words = self.words(None);
        match words.as_slice() {
            [first, others @ ..] => {
                write!(f, "{first}")?;
                write_others(f, others)
            }
            [] => Ok(()),
        }
    }
}

/// Writes words, each after a space.
fn write_others<W: fmt::Write>(f: &mut fmt::Formatter<W>, words: &[Word<'_>]) -> fmt::Result
    ensures { WritesOnOk W.write_str_gives f.old result (spaced (map word_text words.now)) f.new }
{
    for word in words {
        write!(f, " {word}")?;
    }
    Ok(())
}
