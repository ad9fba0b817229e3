//! Why a message was not entered in the table of peers.
use std::alloc::AllocError;
use thiserror::Error;

/// Why a message was not entered in the table of peers. The table is as it was.
#[derive(Clone, Copy, Debug, PartialEq, Eq, Error)]
pub enum SessionError {
    /// The peer is new, and the table holds as many as it may.
    #[error("PeersFull")]
    PeersFull,
    /// Memory ran out.
    #[error("out of memory")]
    OutOfMemory,
}

impl From<AllocError> for SessionError {
    ghost use Rattle.std.specs.Prelude.{◌≡◌};
    ghost use Rattle.sd_session.specs.declared.error.SessionError.TheVariants.{OutOfMemory};

    ghost from_gives = { λ _ error. error ≡ OutOfMemory };

    fn from(_error: AllocError) -> SessionError {
        SessionError::OutOfMemory
    }
}
