//! Why subscriptions end, and their end.
ghost use Rattle.std.specs.Prelude.{◌≡◌, ◌≢◌, ◌||◌, IfOk, OnOk, OnErr, is_some};
ghost use Rattle.std.specs.BTreeSet.{InsertsAll, IsOrdered};
ghost use Rattle.std.specs.FinMap as finite;
ghost use Rattle.std.specs.List.{list_any};
ghost use Rattle.std.specs.Ordering.{eq_by_cmp};
ghost use Rattle.someip_tables.specs.Tables.{map_of};
ghost use Rattle.sd_core.specs.declared.eventgroup.Eventgroup.{Eventgroup};
ghost use Rattle.sd_core.specs.Eventgroups.{eventgroup_cmp};
ghost use Rattle.sd_core.specs.Endings.{ends_at, ends_by};
ghost use Rattle.sd_core.specs.Wishes.{is_with};
ghost use Rattle.sd_core.specs.WishTables.{begun_where, ended_where};
ghost use Rattle.sd_core.specs.WishTables.{any_begun, begun_of_any, is_of_any};

use crate::chosen::keys_where;
use crate::wish_table::{WishTable, begun_of, has_begun};
use crate::{Eventgroup, InstanceId, Stage};
use someip_tables::Moment;
use std::alloc::{AllocError, Global};
use std::collections::BTreeSet;
use std::net::Ipv4Addr;

/// Why subscriptions that were begun end.
#[derive(Clone, Copy)]
pub(crate) enum Ending {
    /// The known offer of this instance ended.
    Offer(InstanceId),
    /// This peer began again.
    Reboot(Ipv4Addr),
    /// The moment came at which the time of their Acks has passed, or that of the known offers of some
    /// instances, which are told beside it.
    Time(Moment),
}

/// Ends the subscriptions that end so, and tells them.
pub(crate) fn end(
    table: &mut WishTable,
    alloc: Global,
    ending: Ending,
    passed: &[InstanceId],
) -> Result<Vec<Eventgroup>, AllocError>
    ensures ended { IfOk result (λ ended. ended.items
        ≡ finite.keys (begun_where (ends_by ending passed.now) (map_of eventgroup_cmp table.old))) }
    ensures after { OnOk result (map_of eventgroup_cmp table.new
        ≡ ended_where (ends_by ending passed.now) (map_of eventgroup_cmp table.old)) }
    ensures err { OnErr result (table.new ≡ table.old) }
    ensures grows { OnErr result
        (begun_where (ends_by ending passed.now) (map_of eventgroup_cmp table.old) ≢ finite.empty) }
{
    let ended = ended_by(table, alloc, ending, passed)?;
    table.change_those(&ended, |_, wish| wish.at(Stage::Waiting));
    Ok(ended)
}

/// The eventgroups whose subscriptions end so. Only a reboot has it look at all.
fn ended_by(
    table: &WishTable,
    alloc: Global,
    ending: Ending,
    passed: &[InstanceId],
) -> Result<Vec<Eventgroup>, AllocError>
    ensures ended { IfOk result (λ ended. ended.items
        ≡ finite.keys (begun_where (ends_by ending passed.now) (map_of eventgroup_cmp table.now))) }
    ensures grows { OnErr result
        (begun_where (ends_by ending passed.now) (map_of eventgroup_cmp table.now) ≢ finite.empty) }
{
    match ending {
        Ending::Offer(instance) => begun_of(table, alloc, instance),
        Ending::Reboot(peer) => begun_with(table, alloc, peer),
        Ending::Time(now) => ended_at(table, alloc, now, passed),
    }
}

/// The eventgroups whose subscriptions were begun at a peer.
fn begun_with(
    table: &WishTable,
    alloc: Global,
    peer: Ipv4Addr,
) -> Result<Vec<Eventgroup>, AllocError>
    ensures ended { IfOk result (λ ended. ended.items ≡ finite.keys
        (begun_where (λ eventgroup beginning. is_with peer beginning) (map_of eventgroup_cmp table.now))) }
    ensures grows { OnErr result
        (begun_where (λ eventgroup beginning. is_with peer beginning) (map_of eventgroup_cmp table.now)
        ≢ finite.empty) }
{
    keys_where(
        table.held(),
        alloc,
        |_, wish| wish.stage.is_begun_with(peer),
    )
}

/// The eventgroups whose subscriptions end as a moment comes. It looks at those whose Ack's time has
/// passed, and at those of these instances.
fn ended_at(
    table: &WishTable,
    alloc: Global,
    now: Moment,
    passed: &[InstanceId],
) -> Result<Vec<Eventgroup>, AllocError>
    ensures ended { IfOk result (λ ended. ended.items
        ≡ finite.keys (begun_where (ends_at now passed.now) (map_of eventgroup_cmp table.now))) }
    ensures grows { OnErr result
        (begun_where (ends_at now passed.now) (map_of eventgroup_cmp table.now) ≢ finite.empty) }
{
    let due = table.due_keys(alloc, now)?;
    if !has_any_begun(table, passed) {
        return Ok(due);
    }
    let ended = with_begun(table, alloc, &due, passed)?;
    ended.into_iter().collect(alloc)
}

/// Whether a subscription of one of these instances was begun.
fn has_any_begun(table: &WishTable, instances: &[InstanceId]) -> bool
    ensures { result ≡ any_begun (λ eventgroup beginning. is_of_any instances.now eventgroup)
        (map_of eventgroup_cmp table.now) }
{
    instances.iter().any(|instance| has_begun(table, *instance))
}

/// Some eventgroups, and beside them those of these instances whose subscriptions were begun.
fn with_begun(
    table: &WishTable,
    alloc: Global,
    others: &[Eventgroup],
    instances: &[InstanceId],
) -> Result<BTreeSet<Eventgroup>, AllocError>
    ensures ordered { IfOk result (λ all. IsOrdered eventgroup_cmp all) }
    ensures gathered { IfOk result (λ all. (q : Eventgroup)
        → list_any (eq_by_cmp eventgroup_cmp q) all.keys
        ≡ (list_any (eq_by_cmp eventgroup_cmp q) others.now || is_some
        (finite.get (begun_of_any instances.now (map_of eventgroup_cmp table.now)) q))) }
{
    let mut all = BTreeSet::new(alloc);
    add_all(&mut all, others)?;
    for instance in instances {
        let begun = begun_of(table, alloc, *instance)?;
        add_all(&mut all, &begun)?;
    }
    Ok(all)
}

/// Adds eventgroups to others.
fn add_all(all: &mut BTreeSet<Eventgroup>, more: &[Eventgroup]) -> Result<(), AllocError>
    requires { IsOrdered eventgroup_cmp all.old }
    ensures { OnOk result (InsertsAll eventgroup_cmp all.old more.now all.new) }
{
    for eventgroup in more {
        all.insert(*eventgroup)?;
    }
    Ok(())
}
