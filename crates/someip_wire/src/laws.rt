//! Laws of the definitions behind the contracts. Each is the contract of a function that does
//! nothing: it says what holds of messages and datagrams, whatever code reads them.
ghost use Rattle.std.specs.Prelude.{◌≡◌, ◌==◌, ◌↔◌, ◌++◌, ℕ, List, [], ◌∷◌, length, Option, Some, None, bit_and, bit_or};
ghost use Rattle.someip_wire.specs.declared.header.MessageType.{MessageType};
ghost use Rattle.someip_wire.specs.declared.error.WireError.{WireError};
ghost use Rattle.someip_wire.specs.declared.error.WireError.TheVariants.{Truncated};
ghost use Rattle.someip_wire.specs.declared.error.WireError.TheVariants.{LengthTooSmall};
ghost use Rattle.someip_wire.specs.Kinds.{kind_byte, kind_of, has_tp_flag, with_tp_flag};
ghost use Rattle.someip_wire.specs.Kinds.{without_tp_flag};
ghost use Rattle.someip_wire.specs.Spelling.{MessageValue, IsBytes, Fits, Spells, BeginsWith};
ghost use Rattle.someip_wire.specs.Spelling.{spelling};
ghost use Rattle.someip_wire.specs.Faults.{fault_at};
ghost use Rattle.someip_wire.specs.Datagram.{Datagram, items};
ghost use Rattle.someip_wire.specs.Reading.{items_of};
ghost use Rattle.someip_wire.specs.Examples.{request_message, request_bytes, length_seven_bytes, cut_bytes};

use crate::header::ReturnCode;

/// No spelling of a message is a proper beginning of another: bytes that begin with a message begin
/// with one message only.
pub fn no_spelling_begins_another()
    ensures { (message other : MessageValue) (bytes rest : List ℕ) → Spells message bytes
        → Spells other (bytes ++ rest) → (rest ≡ []) × (message ≡ other) }
{}

/// Bytes have a fault exactly where they begin with no message.
pub fn a_fault_is_where_no_message_begins()
    ensures { (place : ℕ) (bytes : List ℕ) → IsBytes bytes
        → (fault_at place bytes ≡ None)
        ↔ ((message : MessageValue) × (size : ℕ) × BeginsWith message size bytes) }
{}

/// All bytes are a datagram, in one way, and that way is the one that the plain program reads.
pub fn each_datagram_is_read_in_one_way()
    ensures some { (bytes : List ℕ) → IsBytes bytes
        → (messages : List MessageValue) × (end : Option WireError) × Datagram messages end bytes }
    ensures one { (bytes : List ℕ) (messages others : List MessageValue)
        (end other : Option WireError)
        → Datagram messages end bytes → Datagram others other bytes
        → (messages ≡ others) × (end ≡ other) }
    ensures read { (bytes : List ℕ) (messages : List MessageValue) (end : Option WireError)
        → Datagram messages end bytes → items_of bytes ≡ items messages end }
{}

/// What is written is read: bytes that a message's spelling stands in front of begin with it.
pub fn a_spelling_is_what_bytes_begin_with()
    ensures { (message : MessageValue) (rest : List ℕ) → Fits message
        → BeginsWith message (length (spelling message)) (spelling message ++ rest) }
{}

/// Each message type has a number of its own.
pub fn each_type_has_its_own_number()
    ensures { (kind : MessageType) → kind_of (kind_byte kind) ≡ Some kind }
{}

/// The TP flag is the bit hex 20 of a type's number: a type has it where that bit is set, and with and
/// without it the type is the one whose number differs in that bit alone (SOME/IP Protocol, "Message
/// Type").
pub fn the_tp_flag_is_bit_hex_20()
    ensures has { (kind : MessageType)
        → has_tp_flag kind ≡ (bit_and (kind_byte kind) 0x20 == 0x20) }
    ensures with { (kind : MessageType)
        → kind_byte (with_tp_flag kind) ≡ bit_or (kind_byte kind) 0x20 }
    ensures without { (kind : MessageType)
        → kind_byte (without_tp_flag kind) ≡ bit_and (kind_byte kind) 0xdf }
{}

/// The return codes that have names (SOME/IP Protocol, "Return Code").
pub fn return_codes_have_their_numbers()
    ensures ok { ReturnCode.E_OK.0 ≡ 0x00 }
    ensures not_ok { ReturnCode.E_NOT_OK.0 ≡ 0x01 }
    ensures unknown_service { ReturnCode.E_UNKNOWN_SERVICE.0 ≡ 0x02 }
    ensures unknown_method { ReturnCode.E_UNKNOWN_METHOD.0 ≡ 0x03 }
    ensures not_ready { ReturnCode.E_NOT_READY.0 ≡ 0x04 }
    ensures not_reachable { ReturnCode.E_NOT_REACHABLE.0 ≡ 0x05 }
    ensures timeout { ReturnCode.E_TIMEOUT.0 ≡ 0x06 }
    ensures wrong_protocol_version { ReturnCode.E_WRONG_PROTOCOL_VERSION.0 ≡ 0x07 }
    ensures wrong_interface_version { ReturnCode.E_WRONG_INTERFACE_VERSION.0 ≡ 0x08 }
    ensures malformed_message { ReturnCode.E_MALFORMED_MESSAGE.0 ≡ 0x09 }
    ensures wrong_message_type { ReturnCode.E_WRONG_MESSAGE_TYPE.0 ≡ 0x0a }
{}

/// Examples: a request of 16 bytes, the same with a Length of 7, and the request twice with 15 bytes
/// of a third one after them.
pub fn worked_datagrams()
    ensures request { Spells request_message request_bytes }
    ensures no_other { (size : ℕ) → BeginsWith request_message size request_bytes → size ≡ 16 }
    ensures length_seven { fault_at 0 length_seven_bytes ≡ Some (LengthTooSmall 4) }
    ensures length_seven_is_none { (message : MessageValue) (size : ℕ)
        → BeginsWith message size length_seven_bytes → ⊥ }
    ensures cut { Datagram (request_message ∷ request_message ∷ []) (Some (Truncated 47)) cut_bytes }
    ensures cut_has_a_fault { Datagram (request_message ∷ request_message ∷ []) None cut_bytes → ⊥ }
    ensures empty { Datagram [] None [] }
{}
