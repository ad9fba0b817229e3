//! The table of the subscriptions that a server accepted. Those to an eventgroup stand one after the
//! other in it, and among them those of a peer: what asks for these looks at no other.
ghost use Rattle.std.specs.Prelude.{◌≡◌, ◌≢◌, ◌==◌, true, [], ◌∷◌, not, ◌&&◌, if◌then◌else◌, IfOk, OnOk, OnErr};
ghost use Rattle.std.specs.BTreeSet.{InsertsAll, IsOrdered};
ghost use Rattle.std.specs.FinMap as finite;
ghost use Rattle.std.specs.List.{find, list_any};
ghost use Rattle.std.specs.declared.cmp.Ordering.TheVariants.{Less};
ghost use Rattle.std.specs.Ordering.{eq_by_cmp, is_le};
ghost use Rattle.someip_tables.specs.Deadlines.{has_passed};
ghost use Rattle.someip_tables.specs.Endpoints.{endpoint_cmp};
ghost use Rattle.someip_tables.specs.Lastings.{NeedsMemory, unexpired};
ghost use Rattle.someip_tables.specs.Tables.{map_of};
ghost use Rattle.sd_core.specs.SubscriptionKeys.{subscription_cmp};
ghost use Rattle.sd_core.specs.SubscriptionRuns.{AllHaveOctets, HasOctets, least_of, least_to};
ghost use Rattle.sd_core.specs.SubscriberTables.{count_beside, endpoints_of, is_of_instance, is_of_peer};
ghost use Rattle.sd_core.specs.SubscriberTables.{is_to, subscribed_until};

use crate::InstanceId;
use crate::subscription::Subscription;
use sd_wire::SubscriptionCounter;
use someip_tables::{Deadline, DeadlineMap, Lasting, Moment, is_same_key};
use std::alloc::{AllocError, Global};
use std::cmp::Ordering;
use std::collections::BTreeSet;
use std::net::{Ipv4Addr, SocketAddrV4};

/// The table of the subscriptions that a server accepted.
pub(crate) type SubscriberTable = DeadlineMap<Subscription, ()>;

/// Keeps a subscription until a deadline, and drops what has expired.
pub(crate) fn keep(
    table: &mut SubscriberTable,
    subscription: Subscription,
    until: Deadline,
    now: Moment,
) -> Result<(), AllocError>
    requires known { AllHaveOctets (map_of subscription_cmp table.old) }
    requires new { HasOctets subscription }
    ensures ok { OnOk result (map_of subscription_cmp table.new
        ≡ subscribed_until subscription until now (map_of subscription_cmp table.old)) }
    ensures grows { OnErr result
        (NeedsMemory (finite.get (map_of subscription_cmp table.old) subscription) until) }
    ensures err { OnErr result (table.new ≡ table.old) }
    ensures octets { OnOk result (AllHaveOctets (map_of subscription_cmp table.new)) }
{
    table.insert(subscription, (), until)?;
    table.drop_expired(now);
    Ok(())
}

/// How many live subscriptions there are to the eventgroup of one, that one not among them.
pub(crate) fn count_beside(table: &SubscriberTable, one: &Subscription, now: Moment) -> usize
    requires { AllHaveOctets (map_of subscription_cmp table.now) }
    ensures { result ≡ count_beside one.now (unexpired now (map_of subscription_cmp table.now)) }
{
    let mut count = 0;
    for (other, lasting) in table.iter_from(first_to(one.instance, one.eventgroup)) {
        if !is_to(other, one.instance, one.eventgroup) {
            return count;
        }
        if is_live(lasting, now) && !is_same_key(other, one) {
            count += 1;
        }
    }
    count
}

/// Whether an endpoint has a live subscription to an eventgroup.
pub(crate) fn has_endpoint(
    table: &SubscriberTable,
    instance: InstanceId,
    eventgroup: u16,
    endpoint: SocketAddrV4,
    now: Moment,
) -> bool
    requires { AllHaveOctets (map_of subscription_cmp table.now) }
    ensures { result ≡ list_any (eq_by_cmp endpoint_cmp endpoint) (endpoints_of instance
        (eventgroup ∷ []) (unexpired now (map_of subscription_cmp table.now))) }
{
    for (one, lasting) in table.iter_from(first_to(instance, eventgroup)) {
        if !is_to(one, instance, eventgroup) {
            return false;
        }
        if is_live(lasting, now) && is_same_key(&endpoint, &one.endpoint) {
            return true;
        }
    }
    false
}

/// The endpoints of the live subscriptions to any of these eventgroups.
pub(crate) fn endpoints(
    table: &SubscriberTable,
    alloc: Global,
    instance: InstanceId,
    eventgroups: &[u16],
    now: Moment,
) -> Result<BTreeSet<SocketAddrV4>, AllocError>
    requires { AllHaveOctets (map_of subscription_cmp table.now) }
    ensures live { IfOk result (λ endpoints. endpoints.keys ≡ endpoints_of instance eventgroups.now
        (unexpired now (map_of subscription_cmp table.now))) }
    ensures grows { OnErr result (endpoints_of instance eventgroups.now
        (unexpired now (map_of subscription_cmp table.now)) ≢ []) }
{
    let mut endpoints = BTreeSet::new(alloc);
    for eventgroup in eventgroups {
        add_endpoints(&mut endpoints, table, instance, *eventgroup, now)?;
    }
    Ok(endpoints)
}

/// Adds the endpoints of the live subscriptions to an eventgroup to others.
fn add_endpoints(
    endpoints: &mut BTreeSet<SocketAddrV4>,
    table: &SubscriberTable,
    instance: InstanceId,
    eventgroup: u16,
    now: Moment,
) -> Result<(), AllocError>
    requires octets { AllHaveOctets (map_of subscription_cmp table.now) }
    requires ordered { IsOrdered endpoint_cmp endpoints.old }
    ensures added { OnOk result (InsertsAll endpoint_cmp endpoints.old (endpoints_of instance
        (eventgroup ∷ []) (unexpired now (map_of subscription_cmp table.now))) endpoints.new) }
    ensures grows { OnErr result (list_any (is_to instance eventgroup)
        (finite.keys (unexpired now (map_of subscription_cmp table.now))) ≡ true) }
{
    for (one, lasting) in table.iter_from(first_to(instance, eventgroup)) {
        if !is_to(one, instance, eventgroup) {
            return Ok(());
        }
        if is_live(lasting, now) {
            endpoints.insert(one.endpoint)?;
        }
    }
    Ok(())
}

/// Ends the subscriptions of a peer. In each eventgroup they stand together, so it looks at these, and at
/// two others of an eventgroup at most.
pub(crate) fn end_of_peer(table: &mut SubscriberTable, peer: Ipv4Addr)
    requires { AllHaveOctets (map_of subscription_cmp table.old) }
    ensures { map_of subscription_cmp table.new
        ≡ finite.retain_keys (map_of subscription_cmp table.old) (λ s. not (is_of_peer peer s)) }
{
    let mut next = first(table);
    while let Some(found) = next {
        end_if_of(table, &found, peer);
        next = first_beside(table, &found, beyond(&found, peer));
    }
}

/// Ends a subscription if it is of a peer.
fn end_if_of(table: &mut SubscriberTable, one: &Subscription, peer: Ipv4Addr)
    ensures { map_of subscription_cmp table.new ≡ (if is_of_peer peer one.now
        then finite.remove (map_of subscription_cmp table.old) one.now
        else map_of subscription_cmp table.old) }
{
    if is_same_key(&one.peer, &peer) {
        table.remove(one);
    }
}

/// The first subscription of all.
fn first(table: &SubscriberTable) -> Option<Subscription>
    ensures { result ≡ find (λ _. true) (finite.keys (map_of subscription_cmp table.now)) }
{
    let (one, _) = table.iter().next()?;
    Some(*one)
}

/// The first subscription from a place on, one not among them.
fn first_beside(
    table: &SubscriberTable,
    one: &Subscription,
    place: Subscription,
) -> Option<Subscription>
    ensures { result ≡ find (λ s. is_le (subscription_cmp place s) && not (eq_by_cmp subscription_cmp s one.now))
        (finite.keys (map_of subscription_cmp table.now)) }
{
    let (other, _) = table
        .iter_from(place)
        .find(|(other, _)| !is_same_key(*other, one))?;
    Some(*other)
}

/// From where on the subscriptions of a peer stand after one: where they stand in its eventgroup, or in
/// the next.
fn beyond(one: &Subscription, peer: Ipv4Addr) -> Subscription
    ensures reaches { (s : Subscription) → HasOctets s → is_of_peer peer s ≡ true
        → subscription_cmp one.now s ≡ Less → is_le (subscription_cmp result s) ≡ true }
    ensures rises { is_le (subscription_cmp one.now result) ≡ true }
{
    match one.peer.cmp(&peer) {
        Ordering::Less => first_of(one.instance, one.eventgroup, peer),
        Ordering::Equal => *one,
        Ordering::Greater => match one.eventgroup.checked_add(1) {
            Some(eventgroup) => first_of(one.instance, eventgroup, peer),
            None => *one,
        },
    }
}

/// What no subscription to an eventgroup comes before.
fn first_to(instance: InstanceId, eventgroup: u16) -> Subscription
    ensures { result ≡ least_to instance eventgroup }
{
    first_of(instance, eventgroup, Ipv4Addr::UNSPECIFIED)
}

/// What no subscription of a peer to an eventgroup comes before.
fn first_of(instance: InstanceId, eventgroup: u16, peer: Ipv4Addr) -> Subscription
    ensures { result ≡ least_of instance eventgroup peer }
{
    let Some(counter) = SubscriptionCounter::new(0) else {
        unreachable!()
    };
    Subscription {
        instance,
        eventgroup,
        peer,
        endpoint: SocketAddrV4::new(Ipv4Addr::UNSPECIFIED, 0),
        counter,
    }
}

/// Whether what lasts so has not passed.
fn is_live(lasting: &Lasting<()>, now: Moment) -> bool
    ensures { result ≡ not (has_passed now lasting.now.until) }
{
    !lasting.until.has_passed(now)
}

fn is_to(subscription: &Subscription, instance: InstanceId, eventgroup: u16) -> bool
    ensures { result ≡ is_to instance eventgroup subscription.now }
{
    is_of_instance(subscription, instance) && eventgroup == subscription.eventgroup
}

fn is_of_instance(subscription: &Subscription, instance: InstanceId) -> bool
    ensures { result ≡ is_of_instance instance subscription.now }
{
    is_same_key(&subscription.instance, &instance)
}
