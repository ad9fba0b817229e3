//! Several subscriptions end at once: those of an address, those to an offer, and those that have expired.
ghost use Rattle.std.specs.Prelude.{◌≡◌, ◌≤◌, length, not};
ghost use Rattle.std.specs.FinMap as finite;
ghost use Rattle.someip_tables.specs.Endpoints.{address_cmp};
ghost use Rattle.someip_tables.specs.Tables.{map_of};
ghost use Rattle.audit_index.specs.Places.{AreOnTheWay};
ghost use Rattle.audit_index.specs.Slots.{stands};
ghost use Rattle.audit_sd.specs.subscriptions.SubscriptionKeys.{subscription_cmp};
ghost use Rattle.audit_sd.specs.subscriptions.SubscribeRules.{is_of};
ghost use Rattle.audit_sd.specs.receivers.ReceiverPlaces.{AreFound, AreFoundButOf, AreFoundButTo, UnlistedStay, becomes_ended};
ghost use Rattle.audit_sd.specs.receivers.ReceiverPlaces.{end_cmp, withdrawn_cmp};
ghost use Rattle.audit_sd.specs.receivers.ReceiverRules.{is_to};

use crate::receivers::entry::WithdrawnOffer;
use crate::receivers::places::{Ends, Held, Offers, Owners, drop_one, take_out_held};
use crate::receivers::steps::{is_of, is_to};
use crate::subscriptions::SubscriptionKey;
use std::collections::BTreeSet;
use std::net::Ipv4Addr;

/// Ends the subscriptions of an address and at it. It looks at these alone.
pub(crate) fn forget_all(
    held: &mut Held,
    ends: &mut Ends,
    offers: &mut Offers,
    owners: &mut Owners,
    address: Ipv4Addr,
)
    requires { AreFound (stands end_cmp subscription_cmp ends.old) (stands withdrawn_cmp subscription_cmp offers.old)
        (stands address_cmp subscription_cmp owners.old) (map_of subscription_cmp held.old) }
    ensures left { map_of subscription_cmp held.new ≡ finite.retain_keys
        (map_of subscription_cmp held.old) (λ key. not (is_of address key)) }
    ensures found { AreFound (stands end_cmp subscription_cmp ends.new) (stands withdrawn_cmp subscription_cmp offers.new)
        (stands address_cmp subscription_cmp owners.new) (map_of subscription_cmp held.new) }
{
    while let Some(key) = owners.take(address) {
        forget_if_of(held, ends, offers, owners, &address, &key);
    }
}

/// Ends a subscription that is no longer at an address, if the address is one of its own.
fn forget_if_of(
    held: &mut Held,
    ends: &mut Ends,
    offers: &mut Offers,
    owners: &mut Owners,
    address: &Ipv4Addr,
    key: &SubscriptionKey,
)
    requires { AreFoundButOf address.now key.now (stands end_cmp subscription_cmp ends.old)
        (stands withdrawn_cmp subscription_cmp offers.old) (stands address_cmp subscription_cmp owners.old)
        (map_of subscription_cmp held.old) }
    ensures way { AreOnTheWay (becomes_ended (is_of address.now)) (map_of subscription_cmp held.old)
        (map_of subscription_cmp held.new) }
    ensures found { AreFound (stands end_cmp subscription_cmp ends.new) (stands withdrawn_cmp subscription_cmp offers.new)
        (stands address_cmp subscription_cmp owners.new) (map_of subscription_cmp held.new) }
    ensures fewer { length owners.new ≤ length owners.old }
{
    if is_of(key, *address) {
        drop_one(held, ends, offers, owners, key);
    }
}

/// Ends the subscriptions to an offer. It looks at these alone.
pub(crate) fn withdraw_all(
    held: &mut Held,
    ends: &mut Ends,
    offers: &mut Offers,
    owners: &mut Owners,
    offer: WithdrawnOffer,
)
    requires { AreFound (stands end_cmp subscription_cmp ends.old) (stands withdrawn_cmp subscription_cmp offers.old)
        (stands address_cmp subscription_cmp owners.old) (map_of subscription_cmp held.old) }
    ensures left { map_of subscription_cmp held.new ≡ finite.retain_keys
        (map_of subscription_cmp held.old) (λ key. not (is_to offer key)) }
    ensures found { AreFound (stands end_cmp subscription_cmp ends.new) (stands withdrawn_cmp subscription_cmp offers.new)
        (stands address_cmp subscription_cmp owners.new) (map_of subscription_cmp held.new) }
{
    while let Some(key) = offers.take(offer) {
        withdraw_if_to(held, ends, offers, owners, &offer, &key);
    }
}

/// Ends a subscription that is no longer at an offer, if it is to this.
fn withdraw_if_to(
    held: &mut Held,
    ends: &mut Ends,
    offers: &mut Offers,
    owners: &mut Owners,
    offer: &WithdrawnOffer,
    key: &SubscriptionKey,
)
    requires { AreFoundButTo offer.now key.now (stands end_cmp subscription_cmp ends.old)
        (stands withdrawn_cmp subscription_cmp offers.old) (stands address_cmp subscription_cmp owners.old)
        (map_of subscription_cmp held.old) }
    ensures way { AreOnTheWay (becomes_ended (is_to offer.now)) (map_of subscription_cmp held.old)
        (map_of subscription_cmp held.new) }
    ensures found { AreFound (stands end_cmp subscription_cmp ends.new) (stands withdrawn_cmp subscription_cmp offers.new)
        (stands address_cmp subscription_cmp owners.new) (map_of subscription_cmp held.new) }
    ensures fewer { length offers.new ≤ length offers.old }
{
    if is_to(key, *offer) {
        drop_one(held, ends, offers, owners, key);
    }
}

/// Takes subscriptions that are to end out of their places.
pub(crate) fn take_out_all(
    held: &Held,
    ends: &mut Ends,
    offers: &mut Offers,
    owners: &mut Owners,
    keys: &BTreeSet<SubscriptionKey>,
)
    ensures ends { UnlistedStay end_cmp keys.now.keys ends.old ends.new }
    ensures offers { UnlistedStay withdrawn_cmp keys.now.keys offers.old offers.new }
    ensures owners { UnlistedStay address_cmp keys.now.keys owners.old owners.new }
{
    for key in keys.iter() {
        take_out_held(held, ends, offers, owners, key);
    }
}
