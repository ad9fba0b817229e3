//! The subscriptions that stand, found by what may be asked of them.
ghost use Rattle.std.specs.Prelude.{◌≡◌, ◌≢◌, IfOk, OnErr, OnOk, Some, is_some, not, true};
ghost use Rattle.std.specs.FinMap as finite;
ghost use Rattle.someip_tables.specs.Lastings.{NeedsMemory, expired, unexpired};
ghost use Rattle.someip_tables.specs.Tables.{map_of};
ghost use Rattle.someip_tables.specs.Waits.{HoldsFrom};
ghost use Rattle.audit_sd.specs.subscriptions.SubscriptionKeys.{subscription_cmp};
ghost use Rattle.audit_sd.specs.subscriptions.SubscribeRules.{is_of};
ghost use Rattle.audit_sd.specs.receivers.ReceiverPlaces.{endpoint_in};
ghost use Rattle.audit_sd.specs.receivers.ReceiverRules.{is_to};
ghost use Rattle.audit_sd.specs.receivers.ReceiverTables.{is_subscribed};

use crate::receivers::delivery::Delivery;
use crate::receivers::ending::{forget_all, take_out_all, withdraw_all};
use crate::receivers::entry::WithdrawnOffer;
use crate::receivers::places::{Ends, Held, Offers, Owners, drop_one, enter, is_found, leave};
use crate::receivers::steps::{is_of, is_subscribed, is_to};
use crate::subscriptions::SubscriptionKey;
use audit_index::Index;
use someip_tables::{Deadline, DeadlineMap, Moment, is_same_key};
use std::alloc::{AllocError, Global};
use std::collections::BTreeSet;
use std::marker::Model;
use std::net::{Ipv4Addr, SocketAddrV4};

/// The subscriptions that stand. They are found by where their events go, by their offers and by their addresses,
/// without a look at the rest. Where memory for this was refused, all are looked at from then on.
#[derive(Drop)]
pub(crate) struct Standing {
    held: Held,
    ends: Ends,
    offers: Offers,
    owners: Owners,
    is_whole: bool,
}

impl Model for Standing {
    ghost use Rattle.std.specs.Prelude.{◌≡◌, List, true};
    ghost use Rattle.std.specs.declared.net.socket_addr.SocketAddrV4.{SocketAddrV4};
    ghost use Rattle.someip_tables.specs.declared.lasting.Lasting.{Lasting};
    ghost use Rattle.someip_tables.specs.Endpoints.{address_cmp};
    ghost use Rattle.someip_tables.specs.Tables.{map_of};
    ghost use Rattle.audit_index.specs.Slots.{stands};
    ghost use Rattle.audit_sd.specs.declared.subscriptions.key.SubscriptionKey.{SubscriptionKey};
    ghost use Rattle.audit_sd.specs.subscriptions.SubscriptionKeys.{subscription_cmp};
    ghost use Rattle.audit_sd.specs.receivers.ReceiverPlaces.{AreFound, end_cmp, withdrawn_cmp};

    ghost Value = { List (SubscriptionKey × Lasting SocketAddrV4) };

    ghost view = { λ s. s.held };

    ghost invariant = { λ s. s.is_whole ≡ true
        → AreFound (stands end_cmp subscription_cmp s.ends) (stands withdrawn_cmp subscription_cmp s.offers)
        (stands address_cmp subscription_cmp s.owners) (map_of subscription_cmp s.held) };
}

impl Standing {
    /// None. It takes no memory.
    pub(crate) fn new(alloc: Global) -> Standing
        ensures { map_of subscription_cmp result ≡ finite.empty }
    {
        Standing {
            held: DeadlineMap::new(alloc),
            ends: Index::new(alloc),
            offers: Index::new(alloc),
            owners: Index::new(alloc),
            is_whole: true,
        }
    }

    /// How many there are.
    pub(crate) fn len(&self) -> usize
        ensures { result ≡ finite.len (map_of subscription_cmp self.now) }
    {
        self.held.len()
    }

    /// Whether one stands.
    pub(crate) fn contains(&self, key: &SubscriptionKey) -> bool
        ensures { result ≡ is_some (finite.get (map_of subscription_cmp self.now) key.now) }
    {
        self.held.get(key).is_some()
    }

    /// The endpoint that its events go to, if it stands.
    pub(crate) fn endpoint_of(&self, key: &SubscriptionKey) -> Option<SocketAddrV4>
        ensures { result ≡ endpoint_in (finite.get (map_of subscription_cmp self.now) key.now) }
    {
        endpoint_in(&self.held, key)
    }

    /// One stands with an endpoint until a deadline, in place of an earlier one. One that goes on with its endpoint
    /// stays at its places.
    pub(crate) fn insert(
        &mut self,
        key: SubscriptionKey,
        endpoint: SocketAddrV4,
        until: Deadline,
    ) -> Result<(), AllocError>
        ensures ok { OnOk result (map_of subscription_cmp self.new
            ≡ finite.insert (map_of subscription_cmp self.old) key (record { value = endpoint; until = until })) }
        ensures err { OnErr result (self.new ≡ self.old) }
        ensures grows { OnErr result
            (NeedsMemory (finite.get (map_of subscription_cmp self.old) key) until) }
    {
        let earlier = endpoint_in(&self.held, &key);
        self.held.insert(key, endpoint, until)?;
        if goes_on(earlier, endpoint) {
            return Ok(());
        }
        let is_entered = enter(
            &mut self.ends,
            &mut self.offers,
            &mut self.owners,
            &key,
            endpoint,
        );
        leave(&mut self.ends, &key, earlier, endpoint);
        if !is_entered {
            self.is_whole = false;
        }
        Ok(())
    }

    /// One ends.
    pub(crate) fn remove(&mut self, key: &SubscriptionKey)
        ensures { map_of subscription_cmp self.new ≡ finite.remove (map_of subscription_cmp self.old) key.now }
    {
        drop_one(
            &mut self.held,
            &mut self.ends,
            &mut self.offers,
            &mut self.owners,
            key,
        );
    }

    /// Drops those that have expired, and tells them. It looks at these alone.
    pub(crate) fn expire(
        &mut self,
        alloc: Global,
        now: Moment,
    ) -> Result<BTreeSet<SubscriptionKey>, AllocError>
        ensures told { IfOk result (λ ended. ended.keys
            ≡ finite.keys (expired now (map_of subscription_cmp self.old))) }
        ensures left { OnOk result (map_of subscription_cmp self.new
            ≡ unexpired now (map_of subscription_cmp self.old)) }
        ensures grows { OnErr result (expired now (map_of subscription_cmp self.old) ≢ finite.empty) }
        ensures err { OnErr result (self.new ≡ self.old) }
    {
        if !self.held.has_expired(now) {
            return Ok(BTreeSet::new(alloc));
        }
        let ended = self.held.expired_keys(alloc, now)?;
        take_out_all(
            &self.held,
            &mut self.ends,
            &mut self.offers,
            &mut self.owners,
            &ended,
        );
        self.held.drop_expired(now);
        Ok(ended)
    }

    /// When one next expires, in milliseconds, if one does.
    pub(crate) fn next_expiry(&self) -> Option<u64>
        ensures { HoldsFrom result
            (λ now. expired now (map_of subscription_cmp self.now) ≢ finite.empty) }
    {
        self.held.first_deadline()
    }

    /// Ends those of an address and at it.
    pub(crate) fn forget(&mut self, address: Ipv4Addr)
        ensures { map_of subscription_cmp self.new ≡ finite.retain_keys
            (map_of subscription_cmp self.old) (λ key. not (is_of address key)) }
    {
        if !self.is_whole {
            self.held.retain_keys(|key| !is_of(key, address));
            return;
        }
        forget_all(
            &mut self.held,
            &mut self.ends,
            &mut self.offers,
            &mut self.owners,
            address,
        );
    }

    /// Ends those to an offer.
    pub(crate) fn withdraw(&mut self, offer: WithdrawnOffer)
        ensures { map_of subscription_cmp self.new ≡ finite.retain_keys
            (map_of subscription_cmp self.old) (λ key. not (is_to offer key)) }
    {
        if !self.is_whole {
            self.held.retain_keys(|key| !is_to(key, offer));
            return;
        }
        withdraw_all(
            &mut self.held,
            &mut self.ends,
            &mut self.offers,
            &mut self.owners,
            offer,
        );
    }

    /// Whether the endpoint of an event is subscribed. What stands is as it was.
    pub(crate) fn is_subscribed(&mut self, delivery: &Delivery) -> bool
        ensures found { result ≡ is_subscribed delivery.now (map_of subscription_cmp self.old) }
        ensures unchanged { self.new ≡ self.old }
    {
        if !self.is_whole {
            return is_subscribed(&self.held, delivery);
        }
        is_found(&self.held, &mut self.ends, delivery)
    }
}

/// Whether a subscription that stood with an endpoint, if it did, goes on with this one.
fn goes_on(earlier: Option<SocketAddrV4>, endpoint: SocketAddrV4) -> bool
    ensures { result ≡ true → earlier ≡ Some endpoint }
{
    match earlier {
        Some(earlier) => is_same_key(&earlier, &endpoint),
        None => false,
    }
}

/// The endpoint that the events of a subscription go to, if it stands.
fn endpoint_in(held: &Held, key: &SubscriptionKey) -> Option<SocketAddrV4>
    ensures { result ≡ endpoint_in (finite.get (map_of subscription_cmp held.now) key.now) }
{
    match held.get(key) {
        Some(lasting) => Some(lasting.value),
        None => None,
    }
}
