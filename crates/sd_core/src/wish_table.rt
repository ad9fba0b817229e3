//! The table of the wishes of a client. Those of an instance stand one after the other in it: what asks
//! for these looks at no other.
ghost use Rattle.std.specs.Prelude.{◌≡◌, ◌≢◌, ◌<◌, ◌^◌, [], Bool, IfOk, OnErr, filter, length};
ghost use Rattle.std.specs.FinMap as finite;
ghost use Rattle.std.specs.Map.Iter.{ShowsInOrder, deref_pair};
ghost use Rattle.std.specs.Ordering.{is_le};
ghost use Rattle.someip_tables.specs.Tables.{map_of, AnswersAs};
ghost use Rattle.sd_core.specs.declared.wish.Wish.{Wish};
ghost use Rattle.sd_core.specs.declared.eventgroup.Eventgroup.{Eventgroup};
ghost use Rattle.sd_core.specs.Eventgroups.{eventgroup_cmp};
ghost use Rattle.sd_core.specs.Wishes.{wish_of};
ghost use Rattle.sd_core.specs.WishTables.{subscribes};
ghost use Rattle.sd_core.specs.WishTables.{any_begun, begun_of, is_of};
ghost use Rattle.sd_core.specs.WishTables.{least_of, passing_of, wished_of};

use crate::{Eventgroup, InstanceId, OutgoingSubscribe, Wish};
use someip_tables::{Moment, TimedMap, is_same_key};
use std::alloc::{AllocError, Global};
use std::collections::btree_map;
use std::net::Ipv4Addr;

/// The table of the wishes of a client.
pub(crate) type WishTable = TimedMap<Eventgroup, Wish>;

/// What is kept of an eventgroup.
pub(crate) fn wish_in(table: &WishTable, eventgroup: &Eventgroup) -> Wish
    ensures { result ≡ wish_of (finite.get (map_of eventgroup_cmp table.now) eventgroup.now) }
{
    match table.get(eventgroup) {
        Some(wish) => *wish,
        None => Wish::first(),
    }
}

/// The Subscribes that go out to a peer that offers an instance.
pub(crate) fn subscribes(
    table: &WishTable,
    alloc: Global,
    instance: InstanceId,
    peer: Ipv4Addr,
    now: Moment,
) -> Result<Vec<OutgoingSubscribe>, AllocError>
    ensures sent { IfOk result
        (λ sent. sent.items ≡ subscribes now instance peer (map_of eventgroup_cmp table.now)) }
    ensures grows { OnErr result
        (subscribes now instance peer (map_of eventgroup_cmp table.now) ≢ []) }
{
    let mut sent = Vec::new(alloc);
    for (eventgroup, wish) in wishes_from(table, instance) {
        if !is_of(eventgroup, instance) {
            return Ok(sent);
        }
        let Some(subscribe) = wish.subscribe(now, instance, peer, eventgroup) else {
            continue;
        };
        sent.push(subscribe)?;
    }
    Ok(sent)
}

/// The wished eventgroups of an instance, by rising Eventgroup ID.
pub(crate) fn wished_of(
    table: &WishTable,
    alloc: Global,
    instance: InstanceId,
) -> Result<Vec<Eventgroup>, AllocError>
    ensures wished { IfOk result (λ wished. wished.items
        ≡ finite.keys (wished_of instance (map_of eventgroup_cmp table.now))) }
    ensures grows { OnErr result (wished_of instance (map_of eventgroup_cmp table.now) ≢ finite.empty) }
{
    keys_of(table, alloc, instance, |wish| wish.stage.is_wished())
}

/// The eventgroups of an instance whose subscriptions were begun, by rising Eventgroup ID.
pub(crate) fn begun_of(
    table: &WishTable,
    alloc: Global,
    instance: InstanceId,
) -> Result<Vec<Eventgroup>, AllocError>
    ensures begun { IfOk result (λ begun. begun.items
        ≡ finite.keys (begun_of instance (map_of eventgroup_cmp table.now))) }
    ensures grows { OnErr result (begun_of instance (map_of eventgroup_cmp table.now) ≢ finite.empty) }
{
    keys_of(table, alloc, instance, |wish| wish.stage.is_begun())
}

/// The eventgroups of an instance whose wishes pass a test, by rising Eventgroup ID.
fn keys_of<F: Fn(&Wish) -> bool + Drop>(
    table: &WishTable,
    alloc: Global,
    instance: InstanceId,
    test: F,
) -> Result<Vec<Eventgroup>, AllocError>
    requires { F.IsAlwaysCallable test }
    ensures chosen { (p : Wish → Bool) → AnswersAs F.Fn test p → IfOk result (λ keys. keys.items
        ≡ finite.keys (passing_of instance p (map_of eventgroup_cmp table.now))) }
    ensures grows { (p : Wish → Bool) → AnswersAs F.Fn test p
        → OnErr result (passing_of instance p (map_of eventgroup_cmp table.now) ≢ finite.empty) }
{
    let mut keys = Vec::new(alloc);
    for (eventgroup, wish) in wishes_from(table, instance) {
        if !is_of(eventgroup, instance) {
            return Ok(keys);
        }
        if !test(wish) {
            continue;
        }
        keys.push(*eventgroup)?;
    }
    Ok(keys)
}

/// Whether a subscription of an instance was begun.
pub(crate) fn has_begun(table: &WishTable, instance: InstanceId) -> bool
    ensures { result ≡ any_begun (λ eventgroup beginning. is_of instance eventgroup)
        (map_of eventgroup_cmp table.now) }
{
    for (eventgroup, wish) in wishes_from(table, instance) {
        if !is_of(eventgroup, instance) {
            return false;
        }
        if wish.stage.is_begun() {
            return true;
        }
    }
    false
}

/// The wishes from the first one of an instance on.
fn wishes_from(table: &WishTable, instance: InstanceId) -> btree_map::Range<'_, Eventgroup, Wish>
    ensures rest { result ≡ filter (λ e. is_le (eventgroup_cmp (least_of instance) e.0))
        (finite.entries (map_of eventgroup_cmp table.now)) }
    ensures runs { ShowsInOrder (deref_pair {K = Eventgroup} {X = Wish}) }
    ensures fits { length result < 2 ^ 63 }
{
    table.held().range(first_of(instance)..)
}

/// What no eventgroup of an instance comes before.
fn first_of(instance: InstanceId) -> Eventgroup
    ensures { result ≡ least_of instance }
{
    Eventgroup { instance, id: 0 }
}

/// Whether an eventgroup is of an instance.
fn is_of(eventgroup: &Eventgroup, instance: InstanceId) -> bool
    ensures { result ≡ is_of instance eventgroup.now }
{
    is_same_key(&eventgroup.instance, &instance)
}
