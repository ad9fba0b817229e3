//! A flow that is watched from its last event on.
ghost use Rattle.std.specs.Prelude.{◌≡◌};
ghost use Rattle.audit_traffic.specs.cycles.CycleRules.{watch_from};

use someip_tables::hashed::Numbers;
use someip_tables::{Moment, Waits};

/// The watch of a flow, from its last event on.
#[derive(Clone, Copy, Debug, PartialEq, Eq)]
pub struct Watch {
    /// After how many milliseconds without an event the flow is silent: three cycles.
    pub silent_ms: u64,
    /// The moment at which it is, in milliseconds.
    pub until: u64,
    /// The numbers of the datagram of its last event.
    pub numbers: Numbers,
}

impl Watch {
    /// From an event on, of which the next comes so many milliseconds later.
    pub(crate) fn from(now: Moment, cycle_ms: u32, numbers: Numbers) -> Watch
        ensures { result ≡ watch_from now cycle_ms numbers }
    {
        let silent_ms = 3 * u64::from(cycle_ms);
        Watch {
            silent_ms,
            until: now.as_millis() + silent_ms,
            numbers,
        }
    }
}

/// It waits for the moment at which the flow is silent.
impl Waits for Watch {
    ghost use Rattle.audit_traffic.specs.cycles.CycleRules.{falls_silent_at};

    ghost moment = { falls_silent_at };

    fn waits_for(&self) -> Option<u64> {
        Some(self.until)
    }
}
