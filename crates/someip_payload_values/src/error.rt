//! Why a payload could not be read or written.

ghost use Rattle.std.specs.Prelude.{◌≡◌};
ghost use Rattle.someip_payload_values.specs.Names.{fault_name, fault_place};
ghost use Rattle.someip_payload_values.specs.declared.error.PayloadError.TheVariants.{OutOfMemory};

use std::alloc::{AllocError, AllocFailed};
use thiserror::Error;

/// Why a payload could not be read or written. The place is that of the first byte of what is at
/// fault, and of its length field where that is a body or a text, also where the input ends within
/// it. It is 0 where a value or a shape is at fault.
#[derive(Clone, Copy, Debug, Error, PartialEq, Eq)]
pub enum PayloadError {
    /// A value passes the end of the input.
    #[error("Truncated at {0}")]
    Truncated(usize),
    /// A text has no byte order mark where it needs one, or is not in its encoding.
    #[error("BadText at {0}")]
    BadText(usize),
    /// A text does not end in a zero character.
    #[error("NoTerminator at {0}")]
    NoTerminator(usize),
    /// A union has no variant of this type number.
    #[error("UnknownVariant at {0}")]
    UnknownVariant(usize),
    /// Something passes the end that a length field sets, or a union without a value has a length.
    #[error("LengthMismatch at {0}")]
    LengthMismatch(usize),
    /// An array has more elements than its shape allows.
    #[error("TooMany at {0}")]
    TooMany(usize),
    /// More than 16 shapes lie inside each other.
    #[error("TooDeep at {0}")]
    TooDeep(usize),
    /// The value is not one of the shape.
    #[error("NotOfShape at {0}")]
    NotOfShape(usize),
    /// A body is longer than its length field can say.
    #[error("TooLong at {0}")]
    TooLong(usize),
    /// Memory ran out.
    #[error("out of memory")]
    OutOfMemory,
    /// The shape has a part that no shape may have: a Fixed of no elements or of Fixed elements, a
    /// Struct or a Tagged without members, a Union without variants, a variant number that is 0 or
    /// stands twice, a Data ID that is above 4095 or stands twice, or a member of a Tagged that is a
    /// Fixed, or a Struct without a width.
    #[error("BadShape at {0}")]
    BadShape(usize),
    /// A tagged structure has a second item of one member. The place is that of its tag.
    #[error("DuplicateMember at {0}")]
    DuplicateMember(usize),
    /// An item of a tagged structure has a wire type that its member cannot have. The place is that
    /// of its tag.
    #[error("WrongWireType at {0}")]
    WrongWireType(usize),
    /// A tagged structure has no item of a member that is not optional. The place is that of its
    /// length field.
    #[error("MissingMember at {0}")]
    MissingMember(usize),
}

impl PayloadError {
    /// The name of the variant, as it is printed.
    pub fn name(&self) -> &'static str
        ensures { result.now ≡ fault_name self.now }
    {
        match self {
            PayloadError::Truncated(_) => "Truncated",
            PayloadError::BadText(_) => "BadText",
            PayloadError::NoTerminator(_) => "NoTerminator",
            PayloadError::UnknownVariant(_) => "UnknownVariant",
            PayloadError::LengthMismatch(_) => "LengthMismatch",
            PayloadError::TooMany(_) => "TooMany",
            PayloadError::TooDeep(_) => "TooDeep",
            PayloadError::NotOfShape(_) => "NotOfShape",
            PayloadError::TooLong(_) => "TooLong",
            PayloadError::OutOfMemory => "OutOfMemory",
            PayloadError::BadShape(_) => "BadShape",
            PayloadError::DuplicateMember(_) => "DuplicateMember",
            PayloadError::WrongWireType(_) => "WrongWireType",
            PayloadError::MissingMember(_) => "MissingMember",
        }
    }

    /// The place in the input. `OutOfMemory` has none, for which 0 stands.
    pub fn place(&self) -> usize
        ensures { result ≡ fault_place self.now }
    {
        match self {
            PayloadError::Truncated(place)
            | PayloadError::BadText(place)
            | PayloadError::NoTerminator(place)
            | PayloadError::UnknownVariant(place)
            | PayloadError::LengthMismatch(place)
            | PayloadError::TooMany(place)
            | PayloadError::TooDeep(place)
            | PayloadError::NotOfShape(place)
            | PayloadError::TooLong(place)
            | PayloadError::BadShape(place)
            | PayloadError::DuplicateMember(place)
            | PayloadError::WrongWireType(place)
            | PayloadError::MissingMember(place) => *place,
            PayloadError::OutOfMemory => 0,
        }
    }
}

impl From<AllocError> for PayloadError {
    ghost from_gives = { λ _ e. e ≡ OutOfMemory };

    fn from(_e: AllocError) -> PayloadError {
        PayloadError::OutOfMemory
    }
}

impl<T: Drop> From<AllocFailed<T>> for PayloadError {
    ghost from_gives = { λ _ e. e ≡ OutOfMemory };

    fn from(_e: AllocFailed<T>) -> PayloadError {
        PayloadError::OutOfMemory
    }
}
