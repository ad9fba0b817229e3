//! Bytes that a node gives.

use std::alloc::{AllocError, Global};
use std::marker::Model;

/// Bytes that a node gives: a payload, or a whole datagram. A contract sees the list of bytes.
#[derive(Drop)]
pub struct Payload {
    bytes: Vec<u8>,
}

impl Model for Payload {
    ghost use Rattle.std.specs.Prelude.{ℕ, List};

    ghost Value = { List ℕ };

    ghost view = { λ p. p.bytes.items };
}

impl Payload {
    ghost use Rattle.std.specs.Prelude.{◌≡◌, IfOk};

    /// These bytes.
    pub fn from_vec(bytes: Vec<u8>) -> Payload
        ensures { result ≡ bytes.items }
    {
        Payload { bytes }
    }

    /// A copy of a slice.
    pub fn copy(alloc: Global, bytes: &[u8]) -> Result<Payload, AllocError>
        ensures { IfOk result (λ copy. copy ≡ bytes.now) }
    {
        Ok(Payload {
            bytes: bytes.to_vec(alloc)?,
        })
    }

    /// The bytes.
    pub fn as_slice(&self) -> &[u8]
        ensures { result.now ≡ self.now }
    {
        self.bytes.as_slice()
    }
}
