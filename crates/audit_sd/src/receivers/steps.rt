//! What entries and events make of the tables of a book.
ghost use Rattle.std.specs.Prelude.{◌≡◌, ◌||◌, IfOk, OnErr, Option, is_some, nat_lt, true};
ghost use Rattle.std.specs.declared.net.socket_addr.SocketAddrV4.{SocketAddrV4};
ghost use Rattle.someip_tables.specs.declared.lasting.Lasting.{Lasting};
ghost use Rattle.std.specs.FinMap as finite;
ghost use Rattle.someip_tables.specs.Deadlines.{deadline_after};
ghost use Rattle.someip_tables.specs.Lastings.{NeedsMemory};
ghost use Rattle.someip_tables.specs.Tables.{map_of};
ghost use Rattle.someip_tables.specs.hashed.Rooms.{may_hold};
ghost use Rattle.audit_sd.specs.subscriptions.SubscriptionKeys.{subscription_cmp};
ghost use Rattle.audit_sd.specs.subscriptions.SubscribeRules.{is_of};
ghost use Rattle.audit_sd.specs.receivers.ReceiverRules.{goes_by, is_to, standing_from};
ghost use Rattle.audit_sd.specs.receivers.ReceiverTables.{acked, begins, is_subscribed, moves};
ghost use Rattle.audit_sd.specs.receivers.ReceiverPlaces.{endpoint_in};

use crate::receivers::delivery::Delivery;
use crate::receivers::entry::{ReceiverEntry, WithdrawnOffer};
use crate::receivers::places::Held;
use crate::receivers::standing::Standing;
use crate::subscriptions::{EntryKind, SubscriptionKey};
use someip_tables::hashed::{Room, is_same_address, is_same_endpoint};
use someip_tables::{Deadline, Moment};
use std::alloc::AllocError;
use std::net::{Ipv4Addr, SocketAddrV4};

/// Whether the subscription of an entry may be held.
pub(crate) fn may_hold(standing: &Standing, room: Room, entry: &ReceiverEntry) -> bool
    ensures { result ≡ may_hold room.limit (map_of subscription_cmp standing.now) entry.now.key }
{
    room.may_hold(standing.contains(&entry.key), standing.len())
}

/// A subscription stands until the TTL of its Ack has passed.
pub(crate) fn acknowledge(
    standing: &mut Standing,
    now: Moment,
    entry: &ReceiverEntry,
) -> Result<(), AllocError>
    ensures after { IfOk result (λ _. map_of subscription_cmp standing.new ≡ acked now entry.now
        (finite.get (map_of subscription_cmp standing.old) entry.now.key)
        (map_of subscription_cmp standing.old)) }
    ensures err { OnErr result (standing.new ≡ standing.old) }
    ensures known { OnErr result
        (is_some (finite.get (map_of subscription_cmp standing.old) entry.now.key) ≡ true) }
    ensures grows { OnErr result (NeedsMemory
        (finite.get (map_of subscription_cmp standing.old) entry.now.key)
        (deadline_after now entry.now.ttl)) }
{
    match standing.endpoint_of(&entry.key) {
        Some(endpoint) => {
            standing.insert(entry.key, endpoint, Deadline::after_ttl(now, entry.ttl))
        }
        None => Ok(()),
    }
}

/// A Subscribe stands until its TTL has passed.
pub(crate) fn subscribe(
    standing: &mut Standing,
    now: Moment,
    entry: &ReceiverEntry,
    endpoint: SocketAddrV4,
) -> Result<(), AllocError>
    ensures after { IfOk result (λ _. map_of subscription_cmp standing.new ≡ finite.insert
        (map_of subscription_cmp standing.old) entry.now.key (standing_from now entry.now.ttl endpoint)) }
    ensures err { OnErr result (standing.new ≡ standing.old) }
    ensures grows { OnErr result (NeedsMemory
        (finite.get (map_of subscription_cmp standing.old) entry.now.key)
        (deadline_after now entry.now.ttl)) }
{
    standing.insert(entry.key, endpoint, Deadline::after_ttl(now, entry.ttl))
}

/// Whether the endpoint of an event is subscribed. It looks at every subscription, up to the first by
/// which the event may go.
pub(crate) fn is_subscribed(held: &Held, delivery: &Delivery) -> bool
    ensures { result ≡ is_subscribed delivery.now (map_of subscription_cmp held.now) }
{
    for (key, lasting) in held.iter() {
        if goes_by(delivery, key, lasting.value) {
            return true;
        }
    }
    false
}

/// Whether no event is told: the book was full, or has not settled.
pub(crate) fn is_silent(told_full: bool, now: Moment, settled: Moment) -> bool
    ensures { result ≡ told_full || nat_lt now settled }
{
    told_full || now.as_millis() < settled.as_millis()
}

/// Whether an event may go by a subscription with this endpoint.
pub(crate) fn goes_by(delivery: &Delivery, key: &SubscriptionKey, endpoint: SocketAddrV4) -> bool
    ensures { result ≡ goes_by delivery.now key.now endpoint }
{
    is_same_address(&key.server, &delivery.server)
        && (key.service == delivery.service && is_same_endpoint(&endpoint, &delivery.endpoint))
}

/// Whether a subscription is to an offer.
pub(crate) fn is_to(key: &SubscriptionKey, offer: WithdrawnOffer) -> bool
    ensures { result ≡ is_to offer key.now }
{
    is_same_address(&key.server, &offer.server)
        && (key.service == offer.service
            && (key.instance == offer.instance && key.major == offer.major))
}

/// Whether a subscription is of an address or at it.
pub(crate) fn is_of(key: &SubscriptionKey, address: Ipv4Addr) -> bool
    ensures { result ≡ is_of address key.now }
{
    is_same_address(&key.client, &address) || is_same_address(&key.server, &address)
}

/// Whether an entry is a Subscribe with another endpoint than the one that stands.
pub(crate) fn moves(entry: &ReceiverEntry, standing: Option<SocketAddrV4>) -> bool
    ensures { (lasting : Option (Lasting SocketAddrV4)) → standing ≡ endpoint_in lasting
        → result ≡ moves entry.now.kind entry.now.endpoint lasting }
{
    match (entry.kind, entry.endpoint, standing) {
        (EntryKind::Subscribe, Some(endpoint), Some(standing)) => !is_same_endpoint(
            &standing, &endpoint,
        ),
        _ => false,
    }
}

/// Whether an entry with a TTL above 0 begins a subscription, by the endpoint of the one that stands.
pub(crate) fn begins(entry: &ReceiverEntry, standing: Option<SocketAddrV4>) -> bool
    ensures { (lasting : Option (Lasting SocketAddrV4)) → standing ≡ endpoint_in lasting
        → result ≡ begins entry.now.kind entry.now.endpoint lasting }
{
    match (entry.kind, entry.endpoint, standing) {
        (EntryKind::Subscribe, None, _) => false,
        (EntryKind::Subscribe, Some(endpoint), Some(standing)) => !is_same_endpoint(
            &standing, &endpoint,
        ),
        (_, _, standing) => standing.is_none(),
    }
}
