//! Why a call is refused, and why what came is dropped.
//!
//! What comes and is not taken has causes of its own, `DropCause`: they are told of messages, while
//! `RpcError` is what a caller did wrong or has to wait for.
ghost use Rattle.std.specs.Prelude.{◌≡◌};
ghost use Rattle.someip_rpc.specs.Names.{drop_cause_name, rpc_error_name};

use std::alloc::AllocError;
use thiserror::Error;

/// Why a call of a core is refused. The core is as it was.
#[derive(Clone, Copy, Debug, PartialEq, Eq, Error)]
pub enum RpcError {
    /// The service instance is not offered.
    #[error("NotOffered")]
    NotOffered,
    /// So many calls wait for an answer that no further one can.
    #[error("Busy")]
    Busy,
    /// The payload is longer than the message limit.
    #[error("TooLong")]
    TooLong,
    /// No open request has this token.
    #[error("UnknownToken")]
    UnknownToken,
    /// No call waits for an answer. No call of a core is refused so: an answer that came is dropped by
    /// this name ([`DropCause::NotPending`]).
    #[error("NotPending")]
    NotPending,
    /// An ERROR cannot have the code E_OK.
    #[error("BadErrorCode")]
    BadErrorCode,
    /// The event is not one of the instance, or none of the named eventgroup.
    #[error("UnknownEvent")]
    UnknownEvent,
    /// The endpoint has no subscription.
    #[error("NotSubscribed")]
    NotSubscribed,
    /// Memory ran out.
    #[error("out of memory")]
    OutOfMemory,
}

impl RpcError {
    /// The name of the refusal, as a trace tells it.
    pub fn name(&self) -> &'static str
        ensures { result.now ≡ rpc_error_name self.now }
    {
        match self {
            RpcError::NotOffered => "NotOffered",
            RpcError::Busy => "Busy",
            RpcError::TooLong => "TooLong",
            RpcError::UnknownToken => "UnknownToken",
            RpcError::NotPending => "NotPending",
            RpcError::BadErrorCode => "BadErrorCode",
            RpcError::UnknownEvent => "UnknownEvent",
            RpcError::NotSubscribed => "NotSubscribed",
            RpcError::OutOfMemory => "OutOfMemory",
        }
    }
}

impl From<AllocError> for RpcError {
    ghost use Rattle.std.specs.Prelude.{◌≡◌};
    ghost use Rattle.someip_rpc.specs.declared.error.RpcError.TheVariants.{OutOfMemory};

    ghost from_gives = { λ _ error. error ≡ OutOfMemory };

    fn from(_error: AllocError) -> RpcError {
        RpcError::OutOfMemory
    }
}

/// Why an answer that came is dropped: what comes from a peer is refused to nobody, and a node tells
/// its drops by these names. The core is as it was.
#[derive(Clone, Copy, Debug, PartialEq, Eq, Error)]
pub enum DropCause {
    /// No call waits for this answer.
    #[error("NotPending")]
    NotPending,
    /// The Message Type is none that is taken here.
    #[error("WrongType")]
    WrongType,
}

impl DropCause {
    /// The name of the cause, as a trace tells it.
    pub fn name(&self) -> &'static str
        ensures { result.now ≡ drop_cause_name self.now }
    {
        match self {
            DropCause::NotPending => "NotPending",
            DropCause::WrongType => "WrongType",
        }
    }
}
