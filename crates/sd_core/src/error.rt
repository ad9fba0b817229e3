//! Why a Subscribe is not accepted.
ghost use Rattle.std.specs.Prelude.{◌≡◌};
ghost use Rattle.sd_core.specs.Names.{cause_name};

use std::alloc::AllocError;
use thiserror::Error;

/// Why a Subscribe is answered by a Nack (SOME/IP Service Discovery Protocol, "Subscribe Eventgroup
/// Negative Acknowledgement"), in the order in which they are looked at.
#[derive(Clone, Copy, Debug, PartialEq, Eq, Error)]
pub enum Cause {
    /// The instance is not offered.
    #[error("NotOffered")]
    NotOffered,
    /// The instance is offered with another major version.
    #[error("WrongMajor")]
    WrongMajor,
    /// The instance has no such eventgroup.
    #[error("UnknownEventgroup")]
    UnknownEventgroup,
    /// The Subscribe has no IPv4 UDP endpoint option.
    #[error("NoEndpoint")]
    NoEndpoint,
    /// The eventgroup has as many live subscriptions as it may have, this one not among them.
    #[error("Full")]
    Full,
}

impl Cause {
    /// The name of the reason, as a trace tells it.
    pub fn name(&self) -> &'static str
        ensures { result.now ≡ cause_name self.now }
    {
        match self {
            Cause::NotOffered => "NotOffered",
            Cause::WrongMajor => "WrongMajor",
            Cause::UnknownEventgroup => "UnknownEventgroup",
            Cause::NoEndpoint => "NoEndpoint",
            Cause::Full => "Full",
        }
    }
}

/// Why a Subscribe is not accepted. The subscriptions are as they were.
#[derive(Clone, Copy, Debug, PartialEq, Eq, Error)]
pub enum SubscribeError {
    /// It is answered by a Nack.
    #[error("{0}")]
    Nack(Cause),
    /// Memory ran out.
    #[error("out of memory")]
    OutOfMemory,
}

impl From<Cause> for SubscribeError {
    ghost use Rattle.std.specs.Prelude.{◌≡◌};
    ghost use Rattle.sd_core.specs.declared.error.SubscribeError.TheVariants.{Nack};

    ghost from_gives = { λ cause error. error ≡ Nack cause };

    fn from(cause: Cause) -> SubscribeError {
        SubscribeError::Nack(cause)
    }
}

impl From<AllocError> for SubscribeError {
    ghost use Rattle.std.specs.Prelude.{◌≡◌};
    ghost use Rattle.sd_core.specs.declared.error.SubscribeError.TheVariants.{OutOfMemory};

    ghost from_gives = { λ _ error. error ≡ OutOfMemory };

    fn from(_error: AllocError) -> SubscribeError {
        SubscribeError::OutOfMemory
    }
}
