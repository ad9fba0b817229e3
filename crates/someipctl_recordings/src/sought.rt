//! Which datagrams of recordings are told of, where endpoints may be learned.
ghost use Rattle.std.specs.Prelude.{◌≡◌, IfOk, OnOk, option_map};
ghost use Rattle.recording_packets.specs.View.{view_arrival};
ghost use Rattle.someipctl_recordings.specs.Sought.{is_full, is_looked_at, is_sought, learned_from, learner_of, origin_of};
ghost use Rattle.someipctl_recordings.specs.Wanted.{ports_of, view_wanted};

use crate::reassembly::socket_of;
use crate::wanted::Wanted;
use audit_endpoints::{Learner, WatchRules};
use recording_packets::Arrival;
use someip_tables::hashed::{Numbers, Origin};
use std::alloc::{AllocError, Global};

/// How many endpoints are learned at most.
const MOST_LEARNED: usize = 65536;

/// What learns endpoints, where that is asked for.
pub fn learner_of(alloc: Global, wanted: &Wanted<'_>) -> Result<Option<Learner>, AllocError>
    ensures { IfOk result (λ learner. learner ≡ learner_of (view_wanted wanted.now)) }
{
    if !wanted.learned {
        return Ok(None);
    }
    let watch = WatchRules {
        ports: ports_of(wanted.ports),
        learns: true,
    };
    let learner = Learner::new(alloc, &watch, MOST_LEARNED)?;
    Ok(Some(learner))
}

/// The ports that are named, if any are.
fn ports_of<'p>(ports: Option<&'p [u16]>) -> &'p [u16]
    ensures { result.now ≡ ports_of (option_map (λ ports. ports.now) ports.entry) }
{
    match ports {
        Some(ports) => ports,
        None => &[],
    }
}

/// Whether a datagram is told of, by what was learned before it; what it names is learned then. Where memory
/// runs out nothing is promised of what was learned.
pub fn seeks(
    alloc: Global,
    wanted: &Wanted<'_>,
    learner: &mut Option<Learner>,
    arrival: &Arrival<'_>,
) -> Result<bool, AllocError>
    ensures sought { IfOk result (λ is. is ≡ is_sought (view_wanted wanted.now) learner.old (view_arrival arrival.now)) }
    ensures learned { OnOk result (learner.new ≡ learned_from learner.old (view_arrival arrival.now)) }
{
    let is_looked_at = looks_at(alloc, learner, arrival)?;
    Ok(is_looked_at && wanted.wants(&arrival.datagram))
}

/// Whether a datagram is looked at; what it names is learned then.
fn looks_at(
    alloc: Global,
    learner: &mut Option<Learner>,
    arrival: &Arrival<'_>,
) -> Result<bool, AllocError>
    ensures looks { IfOk result (λ is. is ≡ is_looked_at learner.old (view_arrival arrival.now)) }
    ensures learned { OnOk result (learner.new ≡ learned_from learner.old (view_arrival arrival.now)) }
{
    let Some(learner) = learner else {
        return Ok(true);
    };
    let origin = origin_of(arrival);
    let is_looked_at = learner.looks_at(&origin);
    learner.saw(alloc, &origin, arrival.datagram.payload)?;
    Ok(is_looked_at)
}

/// Where a datagram came from and went to; of its numbers that of its packet.
fn origin_of(arrival: &Arrival<'_>) -> Origin
    ensures { result ≡ origin_of (view_arrival arrival.now) }
{
    Origin {
        numbers: Numbers {
            datagram: arrival.frame as u64,
            frame: arrival.frame as u64,
        },
        from: socket_of(arrival.datagram.from),
        to: socket_of(arrival.datagram.to),
    }
}

/// Whether an endpoint was named where no more may be learned.
pub fn is_full(learner: &Option<Learner>) -> bool
    ensures { result ≡ is_full learner.now }
{
    match learner {
        Some(learner) => learner.is_full(),
        None => false,
    }
}
