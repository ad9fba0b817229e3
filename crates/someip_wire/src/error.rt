//! Why bytes are no message.
ghost use Rattle.std.specs.Prelude.{◌≡◌};
ghost use Rattle.someip_wire.specs.Faults.{fault_name, fault_place};

use thiserror::Error;

/// The fault that ends a datagram, with the place at which it shows: a number of bytes from the
/// datagram's first one. Printed, it is the name and the place, as in `Truncated at 47`.
///
/// The faults of one message are judged in this order: fewer than 16 bytes, the Length field, the
/// Protocol Version, the Message Type, a payload that goes past the datagram's end.
#[derive(Clone, Copy, Debug, PartialEq, Eq, Error)]
pub enum WireError {
    /// The datagram ends before the header or the payload does. The place is the datagram's end.
    #[error("Truncated at {0}")]
    Truncated(usize),
    /// The Length field is below 8, the bytes that it counts of the header. Its first byte's place.
    #[error("LengthTooSmall at {0}")]
    LengthTooSmall(usize),
    /// The Protocol Version is not 01. That byte's place.
    #[error("WrongProtocolVersion at {0}")]
    WrongProtocolVersion(usize),
    /// No Message Type has this number. That byte's place.
    #[error("UnknownMessageType at {0}")]
    UnknownMessageType(usize),
}

impl WireError {
    /// The name, as it is printed: `Truncated`.
    pub fn name(&self) -> &'static str
        ensures { result.now ≡ fault_name self.now }
    {
        match self {
            WireError::Truncated(_) => "Truncated",
            WireError::LengthTooSmall(_) => "LengthTooSmall",
            WireError::WrongProtocolVersion(_) => "WrongProtocolVersion",
            WireError::UnknownMessageType(_) => "UnknownMessageType",
        }
    }

    /// The place: a number of bytes from the datagram's first one.
    pub fn place(&self) -> usize
        ensures { result ≡ fault_place self.now }
    {
        match self {
            WireError::Truncated(place)
            | WireError::LengthTooSmall(place)
            | WireError::WrongProtocolVersion(place)
            | WireError::UnknownMessageType(place) => *place,
        }
    }
}
