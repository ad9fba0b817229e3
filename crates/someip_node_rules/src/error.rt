//! Why a call of a node is refused.
ghost use Rattle.std.specs.Prelude.{◌≡◌};
ghost use Rattle.someip_node_rules.specs.declared.error.NodeError.TheVariants.{OutOfMemory};
ghost use Rattle.someip_node_rules.specs.rules.Errors.{rpc_error};
ghost use Rattle.someip_node_rules.specs.rules.DropNames.{node_error_name};

use someip_rpc::RpcError;
use std::alloc::{AllocError, AllocFailed};
use thiserror::Error;

/// Why a call of a node is refused. But for `OutOfMemory` the node is as it was.
#[derive(Clone, Copy, Debug, PartialEq, Eq, Error)]
pub enum NodeError {
    /// A value of the configuration is outside its range, or two of them clash.
    #[error("BadConfig")]
    BadConfig,
    /// The delay is outside the range that the configuration gives.
    #[error("BadDelay")]
    BadDelay,
    /// The clock would go past 2^63 - 1 milliseconds.
    #[error("ClockPast")]
    ClockPast,
    /// The eventgroup is not one of those that the configuration wants.
    #[error("NotWanted")]
    NotWanted,
    /// Memory ran out in an earlier call, and the node was not restarted since.
    #[error("Failed")]
    Failed,
    /// Memory ran out: the node has failed.
    #[error("out of memory")]
    OutOfMemory,
    /// A call, an answer or a publication is refused, for a reason other than memory.
    #[error("{0}")]
    Rpc(RpcError),
}

impl NodeError {
    /// The name of the refusal, as a trace tells it.
    pub fn name(&self) -> &'static str
        ensures { result.now ≡ node_error_name self.now }
    {
        match self {
            NodeError::BadConfig => "BadConfig",
            NodeError::BadDelay => "BadDelay",
            NodeError::ClockPast => "ClockPast",
            NodeError::NotWanted => "NotWanted",
            NodeError::Failed => "Failed",
            NodeError::OutOfMemory => "OutOfMemory",
            NodeError::Rpc(refusal) => refusal.name(),
        }
    }
}

impl From<AllocError> for NodeError {
    ghost from_gives = { λ _ error. error ≡ OutOfMemory };

    fn from(_error: AllocError) -> NodeError {
        NodeError::OutOfMemory
    }
}

impl<T: Drop> From<AllocFailed<T>> for NodeError {
    ghost from_gives = { λ _ error. error ≡ OutOfMemory };

    fn from(_error: AllocFailed<T>) -> NodeError {
        NodeError::OutOfMemory
    }
}

impl From<RpcError> for NodeError {
    ghost from_gives = { λ refusal error. error ≡ rpc_error refusal };

    fn from(refusal: RpcError) -> NodeError {
        match refusal {
            RpcError::OutOfMemory => NodeError::OutOfMemory,
            refusal => NodeError::Rpc(refusal),
        }
    }
}
