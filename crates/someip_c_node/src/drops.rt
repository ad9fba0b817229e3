//! The numbers of reasons.
ghost use Rattle.std.specs.Prelude.{◌≡◌};
ghost use Rattle.someip_c_node.specs.Reasons.{cause_number, drop_number, detail_of, answer_number, request_number, wire_number, sd_number, tp_number};

use sd_core::Cause;
use sd_wire::SdError;
use someip_node_rules::DropReason;
use someip_rpc::{DropCause, RequestFault};
use someip_tp::TpError;
use someip_wire::WireError;

/// The number of a reason for which a subscription is refused.
pub(crate) fn cause_number(cause: &Cause) -> u32
    ensures { result ≡ cause_number cause.now }
{
    match cause {
        Cause::NotOffered => 1,
        Cause::WrongMajor => 2,
        Cause::UnknownEventgroup => 3,
        Cause::NoEndpoint => 4,
        Cause::Full => 5,
    }
}

/// The number of a reason for which something is dropped.
pub(crate) fn drop_number(reason: &DropReason) -> u32
    ensures { result ≡ drop_number reason.now }
{
    match reason {
        DropReason::Own => 1,
        DropReason::NoPort => 2,
        DropReason::NotSd => 3,
        DropReason::PeersFull => 4,
        DropReason::BadRun => 5,
        DropReason::NoEndpoint => 6,
        DropReason::OtherPeer => 7,
        DropReason::NotPending => 8,
        DropReason::NotSubscribed => 9,
        DropReason::Answer(_) => 10,
        DropReason::Request(_) => 11,
        DropReason::Wire(_) => 12,
        DropReason::Sd(_) => 13,
        DropReason::Tp(_) => 14,
    }
}

/// Which fault of the reason it was: 0 where the reason has none of its own.
pub(crate) fn detail_of(reason: &DropReason) -> u32
    ensures { result ≡ detail_of reason.now }
{
    match reason {
        DropReason::Answer(cause) => answer_number(cause),
        DropReason::Request(fault) => request_number(fault),
        DropReason::Wire(fault) => wire_number(fault),
        DropReason::Sd(fault) => sd_number(fault),
        DropReason::Tp(fault) => tp_number(fault),
        _ => 0,
    }
}

/// The number of a cause for which an answer is dropped.
fn answer_number(cause: &DropCause) -> u32
    ensures { result ≡ answer_number cause.now }
{
    match cause {
        DropCause::NotPending => 1,
        DropCause::WrongType => 2,
    }
}

/// The number of a fault of a request.
fn request_number(fault: &RequestFault) -> u32
    ensures { result ≡ request_number fault.now }
{
    match fault {
        RequestFault::UnknownService => 1,
        RequestFault::WrongInterface => 2,
        RequestFault::UnknownMethod => 3,
        RequestFault::WrongType => 4,
        RequestFault::NotReady => 5,
    }
}

/// The number of a fault of a message's bytes.
fn wire_number(fault: &WireError) -> u32
    ensures { result ≡ wire_number fault.now }
{
    match fault {
        WireError::Truncated(_) => 1,
        WireError::LengthTooSmall(_) => 2,
        WireError::WrongProtocolVersion(_) => 3,
        WireError::UnknownMessageType(_) => 4,
    }
}

/// The number of a fault of a Service Discovery message that came. `TooManyOptions` is a fault of
/// writing alone. (5 is no number any more.)
fn sd_number(fault: &SdError) -> u32
    ensures { result ≡ sd_number fault.now }
{
    match fault {
        SdError::Truncated(_) => 1,
        SdError::EntriesLength(_) => 2,
        SdError::UnknownEntryType(_) => 3,
        SdError::OptionLength(_) => 4,
        SdError::TooManyOptions(_) => 0,
        SdError::TrailingBytes(_) => 6,
        SdError::OutOfMemory => 7,
    }
}

/// The number of a fault of a segment.
fn tp_number(fault: &TpError) -> u32
    ensures { result ≡ tp_number fault.now }
{
    match fault {
        TpError::Unaligned => 1,
        TpError::TooLong => 2,
        TpError::Conflict => 3,
        TpError::NoSlot => 4,
        TpError::OutOfMemory => 5,
        TpError::NoHeader => 6,
    }
}
