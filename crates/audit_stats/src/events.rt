//! What is counted of an event.
ghost use Rattle.std.specs.Prelude.{◌≡◌};
ghost use Rattle.audit_stats.specs.Changes.{time_since};

use crate::counts::Counts;
use crate::methods::add_some;
use crate::sight::Load;
use crate::spread::Spread;
use std::alloc::{AllocError, Global};

/// What is counted of an event.
#[derive(Clone, Copy)]
pub(crate) enum EventChange {
    /// A message or a segment came at a moment, in microseconds.
    Came(u64, Load),
    /// So many sessions were told as lost.
    Lost(u64),
}

/// The figures of an event, from one sender to one receiver. A counter that has come to 2^64 - 1 stays.
#[derive(Drop)]
pub struct EventFigures {
    /// How often it came. In segments it comes with the last one.
    pub count: u64,
    /// How many bytes of payload came, without the TP headers of segments.
    pub bytes: u64,
    /// How many sessions were told as lost.
    pub gaps: u64,
    /// When it came last, in microseconds.
    pub last: Option<u64>,
    /// How long it took from one to the next, in microseconds.
    pub cycle: Spread,
}

impl Counts<EventChange> for EventFigures {
    ghost use Rattle.audit_stats.specs.Changes.{after_event, event_takes, no_events};

    ghost none = { no_events };

    ghost after = { after_event };

    ghost takes = { event_takes };

    fn none(alloc: Global) -> EventFigures {
        EventFigures {
            count: 0,
            bytes: 0,
            gaps: 0,
            last: None,
            cycle: Spread::new(alloc),
        }
    }

    fn count(&mut self, change: EventChange) -> Result<(), AllocError> {
        match change {
            EventChange::Came(at, load) => {
                if load.ends {
                    add_some(&mut self.cycle, time_since(at, self.last))?;
                    self.count = self.count.saturating_add(1);
                    self.last = Some(at);
                }
                self.bytes = self.bytes.saturating_add(load.bytes);
            }
            EventChange::Lost(number) => self.gaps = self.gaps.saturating_add(number),
        }
        Ok(())
    }
}

/// How long ago a moment was, if there was one.
pub(crate) fn time_since(now: u64, at: Option<u64>) -> Option<u64>
    ensures { result ≡ time_since now at }
{
    match at {
        Some(at) => Some(now.saturating_sub(at)),
        None => None,
    }
}
