//! Laws of the definitions behind the contracts. Each is the contract of a function that does
//! nothing: it says what holds of segments and timeouts, whatever code keeps them.
ghost use Rattle.std.specs.Prelude.{◌≡◌, ◌<◌, ℕ, List, length, false, Option, Some, None, Ok, Err};
ghost use Rattle.std.specs.declared.net.socket_addr.SocketAddrV4.{SocketAddrV4};
ghost use Rattle.someip_wire.specs.declared.header.Header.{Header};
ghost use Rattle.someip_wire.specs.Spelling.{MessageValue};
ghost use Rattle.someip_wire.specs.Kinds.{has_tp_flag};
ghost use Rattle.someip_reassembly.specs.declared.error.TpError.{TpError};
ghost use Rattle.someip_reassembly.specs.declared.reassembly.Offered.TheVariants.{Part, Whole};
ghost use Rattle.audit_traffic.specs.calls.Scenes.{numbered};
ghost use Rattle.audit_traffic.specs.segments.SegmentBooks.{segment_of, told_by, whole_message, first_of};
ghost use Rattle.audit_traffic.specs.segments.SegmentWaits.{still_until};

/// A message without the TP flag is no segment, and one without room for a TP header says none.
pub fn what_is_no_segment_is_nothing()
    ensures no_flag { (from to : SocketAddrV4) (message : MessageValue)
        → has_tp_flag message.header.kind ≡ false → segment_of from to message ≡ None }
    ensures no_header { (from to : SocketAddrV4) (message : MessageValue)
        → length message.payload < 4 → segment_of from to message ≡ None }
{}

/// Of a segment is told that its message is whole, with these bytes and without the TP flag, or why it
/// is refused; and nothing while bytes are still to come.
pub fn segments_are_told()
    ensures part { (header : Header) (whole : Option (List ℕ)) → told_by header (Ok Part) whole ≡ None }
    ensures whole { (header : Header) (bytes : List ℕ)
        → told_by header (Ok Whole) (Some bytes) ≡ Some (Ok (whole_message header bytes)) }
    ensures refused { (header : Header) (refusal : TpError) (whole : Option (List ℕ))
        → told_by header (Err refusal) whole ≡ Some (Err refusal) }
{}

/// Examples: a message waits until its timeout, and not at it; and it is told with the datagram that it
/// began with, unless that one's message is over.
pub fn timeouts_by_example()
    ensures waits { still_until 6999 (Some (record { numbers = numbered 3; until = 7000 })) ≡ Some 7000 }
    ensures over { still_until 7000 (Some (record { numbers = numbered 3; until = 7000 })) ≡ None }
    ensures first { first_of 6999 (numbered 9) (Some (record { numbers = numbered 3; until = 7000 })) ≡ numbered 3 }
    ensures begins_anew { first_of 7000 (numbered 9) (Some (record { numbers = numbered 3; until = 7000 })) ≡ numbered 9 }
    ensures begins { first_of 7000 (numbered 9) None ≡ numbered 9 }
{}
