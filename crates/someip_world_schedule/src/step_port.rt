//! Ports that datagrams are sent from.
ghost use Rattle.std.specs.Prelude.{◌≡◌, ◌==◌, if◌then◌else◌, Some, None};
ghost use Rattle.someip_world_schedule.specs.StepWords.{source_port_in};

use someip_texts::plain_u16;
use std::marker::Model;

/// The port that a datagram is sent from: from 1 to 65535 (RFC 768, "Fields": port 0 says that there is
/// none). Contracts see the number.
#[derive(Clone, Copy, Debug, PartialEq, Eq)]
pub struct SourcePort(u16);

impl Model for SourcePort {
    ghost use Rattle.std.specs.Prelude.{ℕ, ◌<◌};

    ghost Value = { ℕ };

    ghost view = { λ p. p.0 };

    ghost invariant = { λ p. 0 < p.0 };

    ghost inverse = { λ n. record { 0 = n } };
}

impl SourcePort {
    /// The port of this number, if it is not 0.
    pub fn new(port: u16) -> Option<SourcePort>
        ensures { result ≡ (if port == 0 then None else Some port) }
    {
        if port == 0 {
            None
        } else {
            Some(SourcePort(port))
        }
    }

    /// The number.
    pub fn number(self) -> u16
        ensures { result ≡ self }
    {
        self.0
    }
}

/// Reads a port that is sent from.
pub fn source_port(word: &str) -> Option<SourcePort>
    ensures { result ≡ source_port_in word.now }
{
    SourcePort::new(plain_u16(word)?)
}
