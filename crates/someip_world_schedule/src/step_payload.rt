//! The payloads of steps.
ghost use Rattle.std.specs.Prelude.{◌≡◌, ◌↔◌, IfOk, IsTrue, length};
ghost use Rattle.someip_wire.specs.Spelling.{IsBytes};
ghost use Rattle.someip_texts.specs.Numbers.{number_in};
ghost use Rattle.someip_world_schedule.specs.StepWords.{IsReadOf, hex_in, repeated_in, payload_in};

use crate::step_words::{WordFault, byte, cut};
use hex::FromHexError;
use someip_node_rules::Payload;
use someip_texts::plain_u64;
use std::alloc::{AllocError, Global};
use std::marker::Model;

/// The largest N of `HH*N`.
const REPEATED_LIMIT: u64 = 1_048_576;

/// The payload of a step. Contracts see its bytes.
///
/// `HH*N` is kept as the byte and the number N, so that a schedule takes no more memory than its
/// text does, but for a constant factor, however large the payloads are that it spells.
#[derive(Drop)]
pub struct StepPayload {
    /// The bytes that the line spells one by one.
    bytes: Vec<u8>,
    /// The byte that follows them, so many times.
    repeated: u8,
    /// How many times.
    count: usize,
}

impl Model for StepPayload {
    ghost use Rattle.std.specs.Prelude.{ℕ, List, ◌++◌, ◌≤◌, replicate};

    ghost Value = { List ℕ };

    ghost view = { λ p. p.bytes.items ++ replicate p.count p.repeated };

    ghost invariant = { λ p. p.count ≤ 1048576 };
}

impl StepPayload {
    /// How many bytes it has.
    pub fn len(&self) -> usize
        ensures { result ≡ length self.now }
    {
        self.bytes.len() + self.count
    }

    /// Whether it has none.
    pub fn is_empty(&self) -> bool
        ensures { IsTrue result ↔ (length self.now ≡ 0) }
    {
        self.len() == 0
    }

    /// Does nothing: its contract says that the payload holds bytes.
    pub fn holds_bytes(&self)
        ensures { IsBytes self.now }
    {
        are_bytes(self.bytes.as_slice());
        are_bytes(&[self.repeated]);
    }

    /// The payload, byte for byte.
    pub fn to_payload(&self, alloc: Global) -> Result<Payload, AllocError>
        ensures { IfOk result (λ payload. payload ≡ self.now) }
    {
        let mut bytes = self.bytes.to_vec(alloc)?;
        bytes.resize(self.len(), self.repeated)?;
        Ok(Payload::from_vec(bytes))
    }

    /// These bytes.
    fn from_vec(bytes: Vec<u8>) -> StepPayload
        ensures { result ≡ bytes.items }
    {
        StepPayload {
            bytes,
            repeated: 0,
            count: 0,
        }
    }
}

/// Does nothing: its contract says what the type of bytes says of them.
fn are_bytes(bytes: &[u8])
    ensures { IsBytes bytes.now }
{}

/// Reads a payload: `-`, `HH*N` or pairs of hex digits.
pub fn payload(alloc: Global, word: &str) -> Result<StepPayload, WordFault>
    ensures { IsReadOf (payload_in word.now) result }
{
    if word == "-" {
        return Ok(StepPayload::from_vec(Vec::new(alloc)));
    }
    match cut(word, '*') {
        Some((digits, count)) => match repeated(alloc, digits, count) {
            Some(payload) => Ok(payload),
            None => Err(WordFault::Bad),
        },
        None => hex_bytes(alloc, word),
    }
}

/// So many times one byte.
fn repeated(alloc: Global, digits: &str, count: &str) -> Option<StepPayload>
    ensures { result ≡ repeated_in digits.now count.now }
{
    let repeated = byte(digits)?;
    let count = repetitions(count)?;
    Some(StepPayload {
        bytes: Vec::new(alloc),
        repeated,
        count,
    })
}

/// How often a byte is repeated.
fn repetitions(word: &str) -> Option<usize>
    ensures { result ≡ number_in 1048577 word.now }
{
    let count = plain_u64(word)?;
    if count <= REPEATED_LIMIT {
        Some(count as usize)
    } else {
        None
    }
}

/// The bytes of pairs of hex digits.
fn hex_bytes(alloc: Global, word: &str) -> Result<StepPayload, WordFault>
    ensures { IsReadOf (hex_in word.now) result }
{
    if word.is_empty() {
        return Err(WordFault::Bad);
    }
    match hex::decode(alloc, word) {
        Ok(bytes) => Ok(StepPayload::from_vec(bytes)),
        Err(FromHexError::OutOfMemory) => Err(WordFault::OutOfMemory),
        Err(_) => Err(WordFault::Bad),
    }
}
