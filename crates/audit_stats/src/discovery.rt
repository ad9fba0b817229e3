//! What is counted of Service Discovery.
use crate::counts::Counts;
use std::alloc::{AllocError, Global};

/// What is counted under a way of Service Discovery.
#[derive(Clone, Copy)]
pub(crate) enum DiscoveryChange {
    /// A message came.
    Came,
    /// The sender began again.
    BeganAgain,
}

/// The figures of Service Discovery, from one endpoint to another. A counter that has come to 2^64 - 1 stays.
#[derive(Clone, Copy, Drop)]
pub struct DiscoveryFigures {
    /// How many messages came.
    pub messages: u64,
    /// How often the sender began again.
    pub reboots: u64,
}

impl Counts<DiscoveryChange> for DiscoveryFigures {
    ghost use Rattle.audit_stats.specs.Changes.{after_discovery, discovery_takes, no_discovery};

    ghost none = { no_discovery };

    ghost after = { after_discovery };

    ghost takes = { discovery_takes };

    fn none(_alloc: Global) -> DiscoveryFigures {
        DiscoveryFigures {
            messages: 0,
            reboots: 0,
        }
    }

    fn count(&mut self, change: DiscoveryChange) -> Result<(), AllocError> {
        match change {
            DiscoveryChange::Came => self.messages = self.messages.saturating_add(1),
            DiscoveryChange::BeganAgain => self.reboots = self.reboots.saturating_add(1),
        }
        Ok(())
    }
}
