//! A client's half of subscriptions.
//!
//! A subscription that was begun at another peer is not renewed but begun anew. A node never sees this,
//! since a known offer that ends takes its subscriptions along.
//!
//! `stop` and `peer_reboot` tell all subscriptions that were begun, also one whose time has passed and that
//! no tick told yet: each end is told once.
//!
//! `Subscriptions::tick` is handed the instances whose known offers passed at the same moment, so what ends
//! with a moment is one list in order, and memory runs out before anything changed.
ghost use Rattle.std.specs.Prelude.{◌≡◌, ◌≢◌, OnOk, OnErr, IfOk, None, [], false};
ghost use Rattle.std.specs.FinMap as finite;
ghost use Rattle.std.specs.Option.{option_and_then};
ghost use Rattle.std.specs.Ordering.{eq_by_cmp};
ghost use Rattle.someip_tables.specs.Tables.{map_of};
ghost use Rattle.someip_tables.specs.Waits.{HoldsFrom};
ghost use Rattle.sd_core.specs.Keys.{instance_cmp};
ghost use Rattle.sd_core.specs.Eventgroups.{eventgroup_cmp};
ghost use Rattle.someip_tables.specs.Changed.{changed_at};
ghost use Rattle.sd_core.specs.Wishes.{wish_of, wished_with, sent_at_once, standing, unwished};
ghost use Rattle.sd_core.specs.Wishes.{acked_wish, nacked_wish, told_by_ack};
ghost use Rattle.sd_core.specs.WishTables.{offered, subscribes};
ghost use Rattle.sd_core.specs.Wishes.{is_answered, is_over, is_subscribed};
ghost use Rattle.sd_core.specs.WishTables.{begun_where, ended_where};
ghost use Rattle.sd_core.specs.Endings.{ends_at};
ghost use Rattle.sd_core.specs.Wishes.{is_with};

use crate::ending::{Ending, end};
use crate::wish_table::{WishTable, subscribes, wish_in, wished_of};
use crate::{Acked, Beginning, Eventgroup, InstanceId, OutgoingSubscribe, SubscribeAnswer};
use sd_wire::{SubscriptionCounter, Ttl};
use someip_tables::{Moment, TimedMap};
use std::alloc::{AllocError, Global};
use std::marker::Model;
use std::net::Ipv4Addr;

/// The eventgroups that a client wished, and how far each wish is (SOME/IP Service Discovery
/// Protocol, "Publish/Subscribe"). A contract sees the map from eventgroups to wishes.
///
/// A subscription is begun by the first Subscribe after a wish or after its last end, and stands
/// until it is told as ended: by [`Subscriptions::stop`] where a StopOffer ended the known offer, by
/// [`Subscriptions::peer_reboot`], [`Subscriptions::tick`], [`Subscriptions::nack`] or
/// [`Subscriptions::unwant`]. Whoever moves the clock calls `tick` with it: what has passed and was not
/// yet told is no subscription to an Ack, a Nack or an Offer.
///
/// An eventgroup that is wished no more stays in the table, since its counter goes on.
///
/// Beside the wishes stand the moments at which the times of their Acks pass, in order, and the wishes of
/// an instance stand together. So a call looks at the wishes that it concerns; only
/// [`Subscriptions::peer_reboot`] goes over all.
#[derive(Drop)]
pub struct Subscriptions {
    alloc: Global,
    wishes: WishTable,
}

impl Model for Subscriptions {
    ghost use Rattle.someip_tables.specs.Tables.{map_of};
    ghost use Rattle.sd_core.specs.Eventgroups.{eventgroup_cmp};
    ghost use Rattle.sd_core.specs.WishTables.{Wishes, coded_wishes};

    ghost Value = { Wishes };

    ghost coded = { coded_wishes };

    ghost view = { λ s. map_of eventgroup_cmp s.wishes };
}

impl Subscriptions {
    /// No wish. It takes no memory.
    pub fn new(alloc: Global) -> Subscriptions
        ensures { result ≡ finite.empty }
    {
        Subscriptions {
            alloc,
            wishes: TimedMap::new(alloc),
        }
    }

    /// Forgets all wishes and all counters, as when a node starts again. It takes no memory.
    pub fn clear(&mut self)
        ensures { self.new ≡ finite.empty }
    {
        self.wishes.clear();
    }

    /// Wishes an eventgroup. If an offer of its instance is known, from this peer, a Subscribe goes out
    /// at once, and the answer is its counter: it renews the subscription that stands there, and else
    /// begins one with the next counter, from 0 on, modulo 16.
    ///
    /// What is refused because memory ran out leaves all as it was; memory is taken only for an
    /// eventgroup that was never wished.
    pub fn want(
        &mut self,
        eventgroup: Eventgroup,
        peer: Option<Ipv4Addr>,
        now: Moment,
    ) -> Result<Option<SubscriptionCounter>, AllocError>
        ensures sent { IfOk result (λ sent. sent
            ≡ sent_at_once now peer (wish_of (finite.get self.old eventgroup))) }
        ensures wished { OnOk result (self.new ≡ finite.insert self.old eventgroup
            (wished_with now peer (wish_of (finite.get self.old eventgroup)))) }
        ensures err { OnErr result (self.new ≡ self.old) }
        ensures grows { OnErr result (finite.get self.old eventgroup ≡ None) }
    {
        let wish = wish_in(&self.wishes, &eventgroup).wanted(now, peer);
        self.wishes.insert(eventgroup, wish)?;
        Ok(match peer {
            Some(_) => wish.stage.counter(),
            None => None,
        })
    }

    /// Takes a wish back, and answers the subscription that stood and ends with it: its server is told
    /// by a StopSubscribe. Without a wish it does nothing. It takes no memory.
    pub fn unwant(&mut self, eventgroup: Eventgroup, now: Moment) -> Option<Beginning>
        ensures ended { result
            ≡ option_and_then (λ wish. standing now wish.stage) (finite.get self.old eventgroup) }
        ensures unwished { self.new ≡ changed_at eventgroup unwished self.old }
    {
        take_back(&mut self.wishes, eventgroup, now)
    }

    /// An Offer of a wanted instance counted, from this peer: the answer is the Subscribes that go out
    /// to it, one for each wished eventgroup of the instance, by rising Eventgroup ID. Each renews the
    /// subscription that stands there, and else begins one with the next counter.
    ///
    /// What is refused because memory ran out leaves all as it was; memory is taken only where a
    /// Subscribe goes out.
    pub fn offer(
        &mut self,
        instance: InstanceId,
        peer: Ipv4Addr,
        now: Moment,
    ) -> Result<Vec<OutgoingSubscribe>, AllocError>
        ensures sent { IfOk result (λ sent. sent.items ≡ subscribes now instance peer self.old) }
        ensures begun { OnOk result (self.new ≡ offered now instance peer self.old) }
        ensures err { OnErr result (self.new ≡ self.old) }
        ensures grows { OnErr result (subscribes now instance peer self.old ≢ []) }
    {
        let wished = wished_of(&self.wishes, self.alloc, instance)?;
        let sent = subscribes(&self.wishes, self.alloc, instance, peer, now)?;
        self.wishes
            .change_those(&wished, |_, wish| wish.subscribing(now, peer));
        Ok(sent)
    }

    /// Takes an Ack: if it answers the subscription that stands, with its peer, major version and
    /// counter, the client is subscribed until the TTL of this Ack has passed, whatever earlier ones
    /// said. It takes no memory.
    pub fn ack(&mut self, answer: SubscribeAnswer, ttl: Ttl, now: Moment) -> Acked
        ensures told { result ≡ told_by_ack now answer
            (wish_of (finite.get self.old answer.eventgroup)).stage }
        ensures acked { self.new
            ≡ changed_at answer.eventgroup (acked_wish now answer ttl) self.old }
    {
        take_ack(&mut self.wishes, &answer, ttl, now)
    }

    /// Takes a Nack: if it answers the subscription that stands, that ends, and the answer is true.
    /// The wish stands. It takes no memory.
    pub fn nack(&mut self, answer: SubscribeAnswer, now: Moment) -> bool
        ensures ended { result ≡ is_answered now answer
            (wish_of (finite.get self.old answer.eventgroup)).stage }
        ensures nacked { self.new ≡ changed_at answer.eventgroup (nacked_wish now answer) self.old }
    {
        take_nack(&mut self.wishes, &answer, now)
    }

    /// The known offer of an instance ended by a StopOffer: the subscriptions that were begun there end,
    /// and are told by rising Eventgroup ID. The wishes stand.
    ///
    /// What is refused because memory ran out leaves all as it was; memory is taken only where one ends.
    pub fn stop(&mut self, instance: InstanceId) -> Result<Vec<Eventgroup>, AllocError>
        ensures ended { IfOk result (λ ended. ended.items ≡ finite.keys (begun_where
            (λ eventgroup beginning. eq_by_cmp instance_cmp eventgroup.instance instance) self.old)) }
        ensures after { OnOk result (self.new ≡ ended_where
            (λ eventgroup beginning. eq_by_cmp instance_cmp eventgroup.instance instance) self.old) }
        ensures err { OnErr result (self.new ≡ self.old) }
        ensures grows { OnErr result (begun_where
            (λ eventgroup beginning. eq_by_cmp instance_cmp eventgroup.instance instance) self.old
            ≢ finite.empty) }
    {
        end(&mut self.wishes, self.alloc, Ending::Offer(instance), &[])
    }

    /// A peer began again: the subscriptions that were begun there end, and are told by rising service,
    /// instance and Eventgroup ID. The wishes stand.
    ///
    /// What is refused because memory ran out leaves all as it was; memory is taken only where one ends.
    pub fn peer_reboot(&mut self, peer: Ipv4Addr) -> Result<Vec<Eventgroup>, AllocError>
        ensures ended { IfOk result (λ ended. ended.items
            ≡ finite.keys (begun_where (λ eventgroup beginning. is_with peer beginning) self.old)) }
        ensures after { OnOk result (self.new
            ≡ ended_where (λ eventgroup beginning. is_with peer beginning) self.old) }
        ensures err { OnErr result (self.new ≡ self.old) }
        ensures grows { OnErr result
            (begun_where (λ eventgroup beginning. is_with peer beginning) self.old ≢ finite.empty) }
    {
        end(&mut self.wishes, self.alloc, Ending::Reboot(peer), &[])
    }

    /// A moment came: the subscriptions end whose Ack's time has passed, and those of these instances,
    /// whose known offers passed with it. They are told by rising service, instance and Eventgroup ID.
    /// The wishes stand. It looks at these and at the other wishes of these instances alone.
    ///
    /// What is refused because memory ran out leaves all as it was; memory is taken only where one ends.
    pub fn tick(
        &mut self,
        now: Moment,
        instances: &[InstanceId],
    ) -> Result<Vec<Eventgroup>, AllocError>
        ensures ended { IfOk result (λ ended. ended.items
            ≡ finite.keys (begun_where (ends_at now instances.now) self.old)) }
        ensures after { OnOk result (self.new
            ≡ ended_where (ends_at now instances.now) self.old) }
        ensures err { OnErr result (self.new ≡ self.old) }
        ensures grows { OnErr result
            (begun_where (ends_at now instances.now) self.old ≢ finite.empty) }
    {
        end(&mut self.wishes, self.alloc, Ending::Time(now), instances)
    }

    /// When the time of an Ack next passes, in milliseconds since the node's start: at the first moment at
    /// which a subscription ends of itself, if there is one.
    pub fn next_due(&self) -> Option<u64>
        ensures { HoldsFrom result (λ now.
            begun_where (λ eventgroup beginning. is_over now beginning) self.now ≢ finite.empty) }
    {
        self.wishes.first_due()
    }

    /// Whether the client is subscribed: the server acknowledged the subscription that stands, and the
    /// time of its last Ack has not passed.
    pub fn is_subscribed(&self, eventgroup: &Eventgroup, now: Moment) -> bool
        ensures { result
            ≡ is_subscribed now (wish_of (finite.get self.now eventgroup.now)).stage }
    {
        wish_in(&self.wishes, eventgroup).stage.is_subscribed(now)
    }
}

/// Takes a wish back.
fn take_back(table: &mut WishTable, eventgroup: Eventgroup, now: Moment) -> Option<Beginning>
    ensures ended { result ≡ option_and_then (λ wish. standing now wish.stage)
        (finite.get (map_of eventgroup_cmp table.old) eventgroup) }
    ensures unwished { map_of eventgroup_cmp table.new
        ≡ changed_at eventgroup unwished (map_of eventgroup_cmp table.old) }
{
    let wish = *table.get(&eventgroup)?;
    table.replace(eventgroup, wish.unwished());
    wish.stage.standing(now)
}

/// Takes an Ack.
fn take_ack(table: &mut WishTable, answer: &SubscribeAnswer, ttl: Ttl, now: Moment) -> Acked
    ensures told { result ≡ told_by_ack now answer.now (wish_of
        (finite.get (map_of eventgroup_cmp table.old) answer.now.eventgroup)).stage }
    ensures acked { map_of eventgroup_cmp table.new
        ≡ changed_at answer.now.eventgroup (acked_wish now answer.now ttl)
        (map_of eventgroup_cmp table.old) }
{
    let Some(&wish) = table.get(&answer.eventgroup) else {
        return Acked::NotPending;
    };
    table.replace(answer.eventgroup, wish.acked(now, answer, ttl));
    wish.stage.told_by_ack(now, answer)
}

/// Takes a Nack.
fn take_nack(table: &mut WishTable, answer: &SubscribeAnswer, now: Moment) -> bool
    ensures ended { result ≡ is_answered now answer.now (wish_of
        (finite.get (map_of eventgroup_cmp table.old) answer.now.eventgroup)).stage }
    ensures nacked { map_of eventgroup_cmp table.new
        ≡ changed_at answer.now.eventgroup (nacked_wish now answer.now)
        (map_of eventgroup_cmp table.old) }
{
    let Some(&wish) = table.get(&answer.eventgroup) else {
        return false;
    };
    table.replace(answer.eventgroup, wish.nacked(now, answer));
    wish.stage.is_answered(now, answer)
}
