//! The subscriptions that a server accepted.
//!
//! The order of a server's subscriptions begins with instance and eventgroup, so those to one eventgroup
//! stand together in its table. The least key that there could be comes before them because addresses have
//! four octets: that is the one thing that the table's invariant says.
//!
//! A Subscribe drops what has expired after it was accepted and not before, so that a refusal for memory
//! leaves all as it was, and a table that nobody ticks does not grow past what is live.
//!
//! `stop` says whether a subscription was live, and takes it out in any case: an expired one counts for
//! nothing.
//!
//! One endpoint under two counters cannot be told twice: `live` answers a set.
ghost use Rattle.std.specs.Prelude.{◌≡◌, ◌≢◌, ◌<◌, ◌≤◌, [], ◌∷◌, not, is_some, None, Some};
ghost use Rattle.std.specs.Prelude.{IfOk, IfErr, IfSome, OnOk, OnErr};
ghost use Rattle.std.specs.FinMap as finite;
ghost use Rattle.std.specs.List.{list_any};
ghost use Rattle.std.specs.Ordering.{eq_by_cmp};
ghost use Rattle.someip_tables.specs.Deadlines.{deadline_after};
ghost use Rattle.someip_tables.specs.Endpoints.{endpoint_cmp};
ghost use Rattle.someip_tables.specs.Lastings.{NeedsMemory, unexpired};
ghost use Rattle.someip_tables.specs.Tables.{map_of};
ghost use Rattle.sd_core.specs.SubscriptionKeys.{subscription_cmp};
ghost use Rattle.sd_core.specs.SubscriptionRuns.{AllHaveOctets, HasOctets};
ghost use Rattle.sd_core.specs.SubscriberTables.{endpoints_of, is_of_instance, is_of_peer};
ghost use Rattle.sd_core.specs.SubscriberTables.{nack_cause, nack_or_memory, subscribed_until};
ghost use Rattle.sd_core.specs.SubscriberTables.{subscriber_count, subscription_at};

use crate::InstanceId;
use crate::error::{Cause, SubscribeError};
use crate::subscribe::{Subscribe, SubscribeRules};
use crate::subscriber_table::{
    SubscriberTable, count_beside, end_of_peer, endpoints, has_endpoint, keep,
};
use crate::subscription::Subscription;
use someip_tables::{Deadline, DeadlineMap, Moment, is_same_key};
use std::alloc::{AllocError, Global};
use std::collections::BTreeSet;
use std::marker::Model;
use std::net::{Ipv4Addr, SocketAddrV4};

/// The subscriptions that a server accepted, each until its TTL is over (SOME/IP Service Discovery
/// Protocol, "Publish/Subscribe"). A contract sees the map from subscriptions to their deadlines.
///
/// What has expired may still be among them, and counts for nothing. How many an eventgroup may have
/// is handed to each call.
#[derive(Drop)]
pub struct Subscribers {
    alloc: Global,
    table: SubscriberTable,
}

impl Model for Subscribers {
    ghost use Rattle.someip_tables.specs.Tables.{map_of};
    ghost use Rattle.sd_core.specs.SubscriptionKeys.{subscription_cmp};
    ghost use Rattle.sd_core.specs.SubscriberTables.{SubscriberMap, coded_subscribers};
    ghost use Rattle.sd_core.specs.SubscriptionRuns.{AllHaveOctets};

    ghost Value = { SubscriberMap };

    ghost coded = { coded_subscribers };

    ghost view = { λ s. map_of subscription_cmp s.table };

    ghost invariant = { λ s. AllHaveOctets (map_of subscription_cmp s.table) };
}

impl Subscribers {
    /// No subscription. It takes no memory.
    pub fn new(alloc: Global) -> Subscribers
        ensures { result ≡ finite.empty }
    {
        Subscribers {
            alloc,
            table: DeadlineMap::new(alloc),
        }
    }

    /// Ends all subscriptions, as when a node starts again. It takes no memory.
    pub fn clear(&mut self)
        ensures { self.new ≡ finite.empty }
    {
        self.table.clear();
    }

    /// Takes a Subscribe (SOME/IP Service Discovery Protocol, "Subscribe Eventgroup entry"). It is
    /// accepted until its TTL is over, also as a renewal, which replaces the deadline.
    ///
    /// The first of these answers it by a Nack: `NotOffered`, `WrongMajor`, `UnknownEventgroup`,
    /// `NoEndpoint`, and `Full` where the eventgroup has as many live subscriptions as it may, this one
    /// not among them. Memory runs out only where none does, and only for a new subscription or a new
    /// deadline.
    pub fn subscribe(
        &mut self,
        rules: SubscribeRules,
        request: Subscribe,
        now: Moment,
    ) -> Result<(), SubscribeError>
        ensures accepted { OnOk result (nack_cause rules request (unexpired now self.old) ≡ None) }
        ensures subscribed { OnOk result (IfSome request.endpoint (λ endpoint. self.new
            ≡ subscribed_until (subscription_at request endpoint)
            (deadline_after now request.ttl) now self.old)) }
        ensures within { OnOk result (subscriber_count request.instance request.eventgroup
            (unexpired now self.new) ≤ rules.limit) }
        ensures refused { IfErr result (λ error. error
            ≡ nack_or_memory (nack_cause rules request (unexpired now self.old))) }
        ensures grows { IfErr result (λ error. error ≡ SubscribeError.OutOfMemory
            → IfSome request.endpoint (λ endpoint. NeedsMemory
            (finite.get self.old (subscription_at request endpoint)) (deadline_after now request.ttl))) }
        ensures unchanged { OnErr result (self.new ≡ self.old) }
    {
        let until = Deadline::after_ttl(now, request.ttl.seconds());
        let subscription = admit(&self.table, rules, request, now)?;
        keep(&mut self.table, subscription, until, now)?;
        Ok(())
    }

    /// Takes a StopSubscribe: ends a subscription, and says whether it was live (SOME/IP Service
    /// Discovery Protocol, "Stop Subscribe Eventgroup entry"). It takes no memory.
    pub fn stop(&mut self, subscription: Subscription, now: Moment) -> bool
        ensures was_live { result ≡ is_some (finite.get (unexpired now self.old) subscription) }
        ensures ended { self.new ≡ finite.remove self.old subscription }
    {
        let was_live = self.table.get_unexpired(&subscription, now).is_some();
        self.table.remove(&subscription);
        was_live
    }

    /// Ends the subscriptions to an instance that is no longer offered. It takes no memory.
    pub fn stop_offer(&mut self, instance: InstanceId)
        ensures { self.new
            ≡ finite.retain_keys self.old (λ s. not (is_of_instance instance s)) }
    {
        self.table.retain_keys(|subscription| !is_same_key(&subscription.instance, &instance));
    }

    /// Ends the subscriptions of a peer that began again (SOME/IP Service Discovery Protocol,
    /// "Detection of reboots"). It looks at those of the peer, and at two others of an eventgroup at most,
    /// and takes no memory.
    pub fn peer_reboot(&mut self, peer: Ipv4Addr)
        ensures { self.new ≡ finite.retain_keys self.old (λ s. not (is_of_peer peer s)) }
    {
        end_of_peer(&mut self.table, peer);
    }

    /// Drops what has expired. It takes no memory.
    pub fn tick(&mut self, now: Moment)
        ensures { self.new ≡ unexpired now self.old }
    {
        self.table.drop_expired(now);
    }

    /// Where an event goes that is in these eventgroups of an instance: the endpoints of the live
    /// subscriptions to any of them, by rising address and then port, each once. It takes memory only
    /// where there are any.
    pub fn live(
        &self,
        instance: InstanceId,
        eventgroups: &[u16],
        now: Moment,
    ) -> Result<BTreeSet<SocketAddrV4>, AllocError>
        ensures live { IfOk result (λ endpoints. endpoints.keys
            ≡ endpoints_of instance eventgroups.now (unexpired now self.now)) }
        ensures grows { OnErr result
            (endpoints_of instance eventgroups.now (unexpired now self.now) ≢ []) }
    {
        endpoints(&self.table, self.alloc, instance, eventgroups, now)
    }

    /// Whether an endpoint has a live subscription to an eventgroup of an instance. It takes no
    /// memory.
    pub fn is_live(
        &self,
        instance: InstanceId,
        eventgroup: u16,
        endpoint: SocketAddrV4,
        now: Moment,
    ) -> bool
        ensures { result ≡ list_any (eq_by_cmp endpoint_cmp endpoint)
            (endpoints_of instance (eventgroup ∷ []) (unexpired now self.now)) }
    {
        has_endpoint(&self.table, instance, eventgroup, endpoint, now)
    }
}

/// The subscription that a Subscribe asks for, if it is not answered by a Nack.
fn admit(
    table: &SubscriberTable,
    rules: SubscribeRules,
    request: Subscribe,
    now: Moment,
) -> Result<Subscription, Cause>
    requires { AllHaveOctets (map_of subscription_cmp table.now) }
    ensures subscription { IfOk result (λ subscription.
        IfSome request.endpoint (λ endpoint. subscription ≡ subscription_at request endpoint)) }
    ensures accepted { OnOk result
        (nack_cause rules request (unexpired now (map_of subscription_cmp table.now)) ≡ None) }
    ensures room { IfOk result (λ subscription.
        subscriber_count request.instance request.eventgroup (finite.remove
        (unexpired now (map_of subscription_cmp table.now)) subscription) < rules.limit) }
    ensures octets { IfOk result HasOctets }
    ensures refused { IfErr result (λ cause.
        nack_cause rules request (unexpired now (map_of subscription_cmp table.now)) ≡ Some cause) }
{
    if !rules.is_offered {
        return Err(Cause::NotOffered);
    }
    if !rules.is_same_major {
        return Err(Cause::WrongMajor);
    }
    if !rules.is_known_eventgroup {
        return Err(Cause::UnknownEventgroup);
    }
    let Some(endpoint) = request.endpoint else {
        return Err(Cause::NoEndpoint);
    };
    let subscription = Subscription {
        instance: request.instance,
        eventgroup: request.eventgroup,
        peer: request.peer,
        endpoint,
        counter: request.counter,
    };
    if count_beside(table, &subscription, now) >= rules.limit {
        return Err(Cause::Full);
    }
    Ok(subscription)
}
