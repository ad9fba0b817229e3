//! What is kept of the present life of a node.
ghost use Rattle.std.specs.Prelude.{◌≡◌, OnOk};
ghost use Rattle.someip_world_verdict.specs.Books.{arrival_at, new_life};
ghost use Rattle.someip_world_verdict.specs.Booking.{arrived, clock_after};
ghost use Rattle.someip_world_verdict.specs.Views.{view_life};

use crate::stream::Stream;
use sd_core::Eventgroup;
use someip_rpc::EventId;
use someip_tables::{Moment, put_value, value_at};
use std::alloc::{AllocError, Global};
use std::collections::BTreeMap;

/// The last segment that came under a reassembly key.
#[derive(Clone, Copy)]
pub(crate) struct Arrival {
    /// When it came, by the node's clock.
    pub(crate) moment: Moment,
    /// The number of its message's payload.
    pub(crate) payload: usize,
}

/// What is kept of the present life of a node.
#[derive(Drop)]
pub(crate) struct Life {
    /// Its clock.
    pub(crate) clock: Moment,
    /// The counter of the last Subscribe of each eventgroup.
    pub(crate) counters: BTreeMap<Eventgroup, u8>,
    /// The session that each event was published with last.
    pub(crate) sessions: BTreeMap<EventId, u16>,
    /// The step that sent the request of each token.
    pub(crate) tokens: BTreeMap<u64, usize>,
    /// The last segment under each reassembly key.
    pub(crate) arrivals: BTreeMap<Stream, Arrival>,
}

impl Life {
    /// A node starts, or starts again.
    pub(crate) fn new(alloc: Global) -> Life
        ensures { view_life result ≡ new_life }
    {
        Life {
            clock: Moment::start(),
            counters: BTreeMap::new(alloc),
            sessions: BTreeMap::new(alloc),
            tokens: BTreeMap::new(alloc),
            arrivals: BTreeMap::new(alloc),
        }
    }

    /// The clock goes on.
    pub(crate) fn tick(&mut self, ms: u64)
        ensures { view_life self.new
            ≡ record (view_life self.old) { clock = clock_after (view_life self.old).clock ms } }
    {
        if let Some(clock) = self.clock.after(ms) {
            self.clock = clock;
        }
    }

    /// The last segment under a reassembly key.
    pub(crate) fn arrival(&self, stream: Option<Stream>) -> Option<Arrival>
        ensures { result ≡ arrival_at (view_life self.now) stream }
    {
        value_at(&self.arrivals, stream?)
    }

    /// A segment of a message comes, if it is one.
    pub(crate) fn arrive(
        &mut self,
        stream: Option<Stream>,
        payload: Option<usize>,
    ) -> Result<(), AllocError>
        ensures { OnOk result (view_life self.new ≡ arrived stream payload (view_life self.old)) }
    {
        match (stream, payload) {
            (Some(stream), Some(payload)) => {
                let arrival = Arrival {
                    moment: self.clock,
                    payload,
                };
                put_value(&mut self.arrivals, stream, arrival)
            }
            _ => Ok(()),
        }
    }
}
