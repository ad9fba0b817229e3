//! Where subscriptions are found, in order beside their table.
ghost use Rattle.std.specs.Prelude.{◌≡◌, ◌≤◌, length, true};
ghost use Rattle.std.specs.FinMap as finite;
ghost use Rattle.someip_tables.specs.Endpoints.{address_cmp};
ghost use Rattle.someip_tables.specs.Tables.{map_of};
ghost use Rattle.audit_index.specs.Places.{AreAt};
ghost use Rattle.audit_index.specs.Slots.{stands};
ghost use Rattle.audit_sd.specs.subscriptions.SubscriptionKeys.{subscription_cmp};
ghost use Rattle.audit_sd.specs.receivers.ReceiverPlaces.{AllStay, OthersStay, end_at, end_by, end_cmp, is_any};
ghost use Rattle.audit_sd.specs.receivers.ReceiverPlaces.{is_by, offer_of, withdrawn_cmp};
ghost use Rattle.audit_sd.specs.receivers.ReceiverTables.{is_subscribed};
ghost use Rattle.audit_sd.specs.declared.receivers.event_end.EventEnd.{EventEnd};
ghost use Rattle.audit_sd.specs.declared.subscriptions.key.SubscriptionKey.{SubscriptionKey};

use crate::receivers::delivery::Delivery;
use crate::receivers::entry::WithdrawnOffer;
use crate::receivers::event_end::EventEnd;
use crate::receivers::steps::goes_by;
use crate::subscriptions::SubscriptionKey;
use audit_index::Index;
use someip_tables::hashed::is_same_endpoint;
use someip_tables::{DeadlineMap, Key};
use std::net::{Ipv4Addr, SocketAddrV4};

/// The subscriptions that stand, each with the endpoint that its events go to.
pub(crate) type Held = DeadlineMap<SubscriptionKey, SocketAddrV4>;

/// By where their events go.
pub(crate) type Ends = Index<EventEnd, SubscriptionKey>;

/// By the offers that they are to.
pub(crate) type Offers = Index<WithdrawnOffer, SubscriptionKey>;

/// By their clients and by their servers.
pub(crate) type Owners = Index<Ipv4Addr, SubscriptionKey>;

/// Puts a subscription with this endpoint at its places, and says whether there was memory for it.
pub(crate) fn enter(
    ends: &mut Ends,
    offers: &mut Offers,
    owners: &mut Owners,
    key: &SubscriptionKey,
    endpoint: SocketAddrV4,
) -> bool
    ensures end { result ≡ true → stands end_cmp subscription_cmp ends.new (end_at key.now endpoint) key.now ≡ true }
    ensures offer { result ≡ true → stands withdrawn_cmp subscription_cmp offers.new (offer_of key.now) key.now ≡ true }
    ensures client { result ≡ true → stands address_cmp subscription_cmp owners.new key.now.client key.now ≡ true }
    ensures server { result ≡ true → stands address_cmp subscription_cmp owners.new key.now.server key.now ≡ true }
    ensures ends { AllStay end_cmp ends.old ends.new }
    ensures offers { AllStay withdrawn_cmp offers.old offers.new }
    ensures owners { AllStay address_cmp owners.old owners.new }
{
    enter_end(ends, offers, key, endpoint) && enter_owners(owners, key)
}

/// Puts a subscription with this endpoint where its events go and at its offer, and says whether there was
/// memory for it.
fn enter_end(
    ends: &mut Ends,
    offers: &mut Offers,
    key: &SubscriptionKey,
    endpoint: SocketAddrV4,
) -> bool
    ensures end { result ≡ true → stands end_cmp subscription_cmp ends.new (end_at key.now endpoint) key.now ≡ true }
    ensures offer { result ≡ true → stands withdrawn_cmp subscription_cmp offers.new (offer_of key.now) key.now ≡ true }
    ensures ends { AllStay end_cmp ends.old ends.new }
    ensures offers { AllStay withdrawn_cmp offers.old offers.new }
{
    put_at(ends, EventEnd::at(key, endpoint), key) && put_at(offers, offer_of(key), key)
}

/// Puts a subscription at its addresses, and says whether there was memory for it.
fn enter_owners(owners: &mut Owners, key: &SubscriptionKey) -> bool
    ensures client { result ≡ true → stands address_cmp subscription_cmp owners.new key.now.client key.now ≡ true }
    ensures server { result ≡ true → stands address_cmp subscription_cmp owners.new key.now.server key.now ≡ true }
    ensures stay { AllStay address_cmp owners.old owners.new }
{
    put_at(owners, key.client, key) && put_at(owners, key.server, key)
}

/// Puts a subscription at a place, and says whether there was memory for it.
fn put_at<P: Key>(places: &mut Index<P, SubscriptionKey>, place: P, key: &SubscriptionKey) -> bool
    ensures put { result ≡ true → stands P.cmp subscription_cmp places.new place key.now ≡ true }
    ensures stay { AllStay P.cmp places.old places.new }
{
    match places.put(place, *key) {
        Ok(()) => true,
        Err(_) => false,
    }
}

/// The offer that a subscription is to.
fn offer_of(key: &SubscriptionKey) -> WithdrawnOffer
    ensures { result ≡ offer_of key.now }
{
    WithdrawnOffer {
        server: key.server,
        service: key.service,
        instance: key.instance,
        major: key.major,
    }
}

/// Takes a subscription with this endpoint out of its places.
fn take_out(
    ends: &mut Ends,
    offers: &mut Offers,
    owners: &mut Owners,
    key: &SubscriptionKey,
    endpoint: SocketAddrV4,
)
    ensures ends { OthersStay end_cmp key.now ends.old ends.new }
    ensures offers { OthersStay withdrawn_cmp key.now offers.old offers.new }
    ensures owners { OthersStay address_cmp key.now owners.old owners.new }
    ensures fewer_offers { length offers.new ≤ length offers.old }
    ensures fewer_owners { length owners.new ≤ length owners.old }
{
    ends.remove(EventEnd::at(key, endpoint), *key);
    offers.remove(offer_of(key), *key);
    owners.remove(key.client, *key);
    owners.remove(key.server, *key);
}

/// Takes a subscription out of its places, if it stands.
pub(crate) fn take_out_held(
    held: &Held,
    ends: &mut Ends,
    offers: &mut Offers,
    owners: &mut Owners,
    key: &SubscriptionKey,
)
    ensures ends { OthersStay end_cmp key.now ends.old ends.new }
    ensures offers { OthersStay withdrawn_cmp key.now offers.old offers.new }
    ensures owners { OthersStay address_cmp key.now owners.old owners.new }
    ensures fewer_offers { length offers.new ≤ length offers.old }
    ensures fewer_owners { length owners.new ≤ length owners.old }
{
    if let Some(lasting) = held.get(key) {
        take_out(ends, offers, owners, key, lasting.value);
    }
}

/// Ends a subscription, and takes it out of its places.
pub(crate) fn drop_one(
    held: &mut Held,
    ends: &mut Ends,
    offers: &mut Offers,
    owners: &mut Owners,
    key: &SubscriptionKey,
)
    ensures gone { map_of subscription_cmp held.new ≡ finite.remove (map_of subscription_cmp held.old) key.now }
    ensures ends { OthersStay end_cmp key.now ends.old ends.new }
    ensures offers { OthersStay withdrawn_cmp key.now offers.old offers.new }
    ensures owners { OthersStay address_cmp key.now owners.old owners.new }
    ensures fewer_offers { length offers.new ≤ length offers.old }
    ensures fewer_owners { length owners.new ≤ length owners.old }
{
    take_out_held(held, ends, offers, owners, key);
    held.remove(key);
}

/// Takes a subscription out of the place of an earlier endpoint, where it has another one now.
pub(crate) fn leave(
    ends: &mut Ends,
    key: &SubscriptionKey,
    earlier: Option<SocketAddrV4>,
    endpoint: SocketAddrV4,
)
    ensures { (end : EventEnd) (other : SubscriptionKey)
        → (other ≡ key.now → end ≡ end_at key.now endpoint)
        → stands end_cmp subscription_cmp ends.old end other ≡ true
        → stands end_cmp subscription_cmp ends.new end other ≡ true }
{
    if let Some(earlier) = earlier {
        leave_unless_same(ends, key, earlier, endpoint);
    }
}

/// The same for an endpoint that it had.
fn leave_unless_same(
    ends: &mut Ends,
    key: &SubscriptionKey,
    earlier: SocketAddrV4,
    endpoint: SocketAddrV4,
)
    ensures { (end : EventEnd) (other : SubscriptionKey)
        → (other ≡ key.now → end ≡ end_at key.now endpoint)
        → stands end_cmp subscription_cmp ends.old end other ≡ true
        → stands end_cmp subscription_cmp ends.new end other ≡ true }
{
    if !is_same_endpoint(&earlier, &endpoint) {
        ends.remove(EventEnd::at(key, earlier), *key);
    }
}

/// Whether the endpoint of an event is subscribed. It looks at its place alone: a subscription that is no longer
/// there is taken out.
pub(crate) fn is_found(held: &Held, ends: &mut Ends, delivery: &Delivery) -> bool
    requires { AreAt end_by is_any (stands end_cmp subscription_cmp ends.old) (map_of subscription_cmp held.now) }
    ensures found { result ≡ is_subscribed delivery.now (map_of subscription_cmp held.now) }
    ensures kept { AreAt end_by is_any (stands end_cmp subscription_cmp ends.new) (map_of subscription_cmp held.now) }
{
    let end = EventEnd::of(delivery);
    while let Some(key) = ends.first(end) {
        if is_by(held, &key, delivery) {
            return true;
        }
        ends.remove(end, key);
    }
    false
}

/// Whether a subscription stands by which an event may go.
fn is_by(held: &Held, key: &SubscriptionKey, delivery: &Delivery) -> bool
    ensures { result ≡ is_by delivery.now key.now (finite.get (map_of subscription_cmp held.now) key.now) }
{
    match held.get(key) {
        Some(lasting) => goes_by(delivery, key, lasting.value),
        None => false,
    }
}
