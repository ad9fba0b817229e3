//! The sessions of a gap as they begin to wait, and the first that is lost.
ghost use Rattle.std.specs.Prelude.{◌≡◌, None, OnErr, OnOk, not};
ghost use Rattle.std.specs.FinMap as finite;
ghost use Rattle.someip_tables.specs.Tables.{map_of};
ghost use Rattle.someip_tables.specs.Retained.{retain};
ghost use Rattle.audit_traffic.specs.gaps.MissingKeys.{is_from, missing_cmp, missing_of};
ghost use Rattle.audit_traffic.specs.gaps.GapTables.{FallsDue, IsBegunGap, IsSkippedInPart, once_skipped, or_waits, with_missing};

use crate::events::EventFlow;
use crate::gaps::awaited::Awaited;
use crate::gaps::finding::LostEvent;
use crate::gaps::gap::Gap;
use crate::gaps::key::MissingEvent;
use audit_index::OwnedTable;
use someip_tables::{Moment, next_session};
use std::alloc::AllocError;
use std::net::Ipv4Addr;

/// The sessions of a gap wait, or the run of them.
pub(crate) fn wait_for_gap(
    waiting: &mut OwnedTable<MissingEvent, Awaited>,
    gap: &Gap,
    awaited: Awaited,
) -> Result<(), AllocError>
    ensures ok { OnOk result (map_of missing_cmp waiting.new ≡ once_skipped gap.now awaited (map_of missing_cmp waiting.old)) }
    ensures err { OnErr result (IsSkippedInPart gap.now awaited (map_of missing_cmp waiting.old) (map_of missing_cmp waiting.new)) }
{
    if gap.is_wide() {
        let run = MissingEvent::run(&gap.flow, gap.first, gap.last());
        wait_for_one(waiting, run, awaited)
    } else {
        wait_for(waiting, &gap.flow, gap.first, gap.count(), awaited)
    }
}

/// So many sessions of a flow wait, from the first on. One that waits already goes on as it does.
fn wait_for(
    waiting: &mut OwnedTable<MissingEvent, Awaited>,
    flow: &EventFlow,
    first: u16,
    count: u16,
    awaited: Awaited,
) -> Result<(), AllocError>
    ensures ok { OnOk result (map_of missing_cmp waiting.new
        ≡ with_missing flow.now first awaited count (map_of missing_cmp waiting.old)) }
    ensures err { OnErr result (IsBegunGap flow.now first awaited count (map_of missing_cmp waiting.old) (map_of missing_cmp waiting.new)) }
{
    let mut session = first;
    for _ in 0..count {
        wait_for_one(waiting, MissingEvent::of(flow, session), awaited)?;
        session = next_session(session);
    }
    Ok(())
}

/// A session waits, unless it does so already.
fn wait_for_one(
    waiting: &mut OwnedTable<MissingEvent, Awaited>,
    key: MissingEvent,
    awaited: Awaited,
) -> Result<(), AllocError>
    ensures ok { OnOk result (map_of missing_cmp waiting.new ≡ or_waits key awaited (map_of missing_cmp waiting.old)) }
    ensures err { OnErr result (waiting.new ≡ waiting.old) }
    ensures grows { OnErr result (finite.get (map_of missing_cmp waiting.old) key ≡ None) }
{
    if waiting.get(&key).is_some() {
        return Ok(());
    }
    waiting.insert(key, awaited)
}

/// What was missing of the senders at an address waits no more.
pub(crate) fn forget(waiting: &mut OwnedTable<MissingEvent, Awaited>, address: Ipv4Addr)
    ensures { map_of missing_cmp waiting.new
        ≡ retain (map_of missing_cmp waiting.old) (λ key _. not (is_from address key)) }
{
    waiting.forget(address);
}

/// The session or the run that is lost first, if one is.
pub(crate) fn first_lost(
    waiting: &OwnedTable<MissingEvent, Awaited>,
    now: Moment,
) -> Option<LostEvent>
    ensures { FallsDue now (map_of missing_cmp waiting.now) result }
{
    let Some(due) = waiting.first_due() else {
        return None;
    };
    if now.as_millis() < due.at {
        return None;
    }
    match waiting.get(&due.key) {
        Some(awaited) => Some(LostEvent {
            at: awaited.until,
            key: due.key,
            shown_by: awaited.shown_by,
            numbers: awaited.numbers,
        }),
        None => None,
    }
}
