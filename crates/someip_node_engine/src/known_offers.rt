//! What a client learns from the entries of Service Discovery: Offers, StopOffers, Acks and Nacks.
ghost use Rattle.std.specs.Prelude.{◌≡◌, ◌++◌, map, IfErr, IfOk, None, OnErr, OnOk, Some};
ghost use Rattle.std.specs.FinMap as finite;
ghost use Rattle.std.specs.List.{flat_map};
ghost use Rattle.sd_wire.specs.contents.Values.{view_entry};
ghost use Rattle.std.specs.Ordering.{eq_by_cmp};
ghost use Rattle.sd_core.specs.Keys.{instance_cmp};
ghost use Rattle.sd_core.specs.SeekTables.{counted_as, known_at, learned, uncounted};
ghost use Rattle.sd_core.specs.WishTables.{ended_where, offered, subscribes};
ghost use Rattle.someip_node_rules.specs.rules.Learning.{ack_told, answer_in, eventgroup_in, known_told};
ghost use Rattle.someip_node_rules.specs.rules.Learning.{nack_told, offer_endings, subscribe_to, uncounted_by};
ghost use Rattle.someip_node_rules.specs.forms.Outputs.{written};
ghost use Rattle.someip_node_rules.specs.rules.Plans.{act, plain, run};
ghost use Rattle.someip_node_rules.specs.rules.Plans.{TakesAck, TakesNack, TakesOffer, TakesStopOffer};
ghost use Rattle.someip_node_engine.specs.Working.{working};

use crate::endings::tell_unsubscribed;
use crate::engine::Engine;
use crate::entry_making::subscribe_entry;
use crate::outputs::{Giving, tell_dropped};
use crate::server_subscribing::eventgroup_in;
use sd_core::{
    Acked, Counted, InstanceId, OutgoingSubscribe, ReceivedOffer, Seeker, SubscribeAnswer,
    Uncounted,
};
use sd_wire::{Entry, EventgroupEntry};
use someip_node_rules::{DropReason, Output};
use someip_tables::Moment;
use someip_tp::Reassembly;
use std::alloc::AllocError;
use std::net::{Ipv4Addr, SocketAddrV4};

impl<R: Reassembly> Engine<R> {
    /// An Offer comes.
    #[tactic(auto, using(crate::proofs::LearningLemmas::offer_counted))]
    pub(crate) fn offer_came(
        &mut self,
        offer: &ReceivedOffer,
        giving: &mut Giving,
    ) -> Result<(), AllocError>
        ensures work { OnOk result (working self.new giving.new
            ≡ run plain (act (TakesOffer offer.now)) (working self.old giving.old)) }
        ensures config { self.new.config ≡ self.old.config }
    {
        match learn(&mut self.seeker, offer, self.clock) {
            Ok((endpoint, counted)) => {
                tell_known(offer.instance, endpoint, counted, &mut giving.outputs)?;
                self.subscribe_again(offer.instance, offer.peer, &mut giving.replies)?;
            }
            Err(cause) => tell_uncounted(cause, &mut giving.outputs)?,
        }
        Ok(())
    }

    /// Sends a Subscribe for each wished eventgroup of an instance that a peer offers.
    fn subscribe_again(
        &mut self,
        instance: InstanceId,
        peer: Ipv4Addr,
        entries: &mut Vec<Entry>,
    ) -> Result<(), AllocError>
        ensures wishes { OnOk result (self.new ≡ record self.old {
          wishes = offered self.old.clock instance peer self.old.wishes;
        }) }
        ensures entries { OnOk result (map view_entry entries.new.items
            ≡ map view_entry entries.old.items
            ++ flat_map (subscribe_to self.old)
            (subscribes self.old.clock instance peer self.old.wishes)) }
        ensures config { self.new.config ≡ self.old.config }
    {
        let subscribes = self.subscriptions.offer(instance, peer, self.clock)?;
        self.push_subscribes(&subscribes, entries)
    }

    /// Adds some Subscribes.
    #[tactic(auto, using(crate::proofs::SubscribingLemmas::one_added))]
    fn push_subscribes(
        &self,
        subscribes: &[OutgoingSubscribe],
        entries: &mut Vec<Entry>,
    ) -> Result<(), AllocError>
        ensures { OnOk result (map view_entry entries.new.items
            ≡ map view_entry entries.old.items ++ flat_map (subscribe_to self.now) subscribes.now) }
    {
        for subscribe in subscribes {
            self.push_subscribe(*subscribe, entries)?;
        }
        Ok(())
    }

    /// Adds a Subscribe, with the major version and the TTL that are wanted.
    pub(crate) fn push_subscribe(
        &self,
        subscribe: OutgoingSubscribe,
        entries: &mut Vec<Entry>,
    ) -> Result<(), AllocError>
        ensures { OnOk result (map view_entry entries.new.items
            ≡ map view_entry entries.old.items ++ subscribe_to self.now subscribe) }
    {
        if let Some(want) = self.config.wants.get(&subscribe.eventgroup.instance) {
            let endpoint = SocketAddrV4::new(self.config.address, self.config.client_port);
            let entry = subscribe_entry(
                self.alloc,
                endpoint,
                want.major,
                want.ttl,
                subscribe.eventgroup,
                subscribe.counter,
            )?;
            entries.push(entry)?;
        }
        Ok(())
    }

    /// A StopOffer comes.
    pub(crate) fn stop_offer_came(
        &mut self,
        instance: InstanceId,
        major: u8,
        peer: Ipv4Addr,
        giving: &mut Giving,
    ) -> Result<(), AllocError>
        ensures work { OnOk result (working self.new giving.new
            ≡ run plain (act (TakesStopOffer instance major peer)) (working self.old giving.old)) }
        ensures config { self.new.config ≡ self.old.config }
    {
        if self.seeker.stop(instance, major, peer, self.clock) {
            self.end_offer(instance, &mut giving.outputs)?;
        }
        Ok(())
    }

    /// Ends the subscriptions of an instance whose known offer ended, and tells both.
    fn end_offer(
        &mut self,
        instance: InstanceId,
        outputs: &mut Vec<Output>,
    ) -> Result<(), AllocError>
        ensures wishes { OnOk result (self.new ≡ record self.old {
          wishes = ended_where (λ eventgroup beginning. eq_by_cmp instance_cmp eventgroup.instance
              instance) self.old.wishes;
        }) }
        ensures outputs { OnOk result (outputs.new.items
            ≡ outputs.old.items ++ offer_endings instance self.old) }
        ensures config { self.new.config ≡ self.old.config }
    {
        let ended = self.subscriptions.stop(instance)?;
        outputs.push(Output::Gone { instance })?;
        tell_unsubscribed(&ended, outputs)
    }

    /// An Ack comes.
    #[tactic(auto, using(crate::proofs::LearningLemmas::told_as_it_is))]
    pub(crate) fn ack_came(
        &mut self,
        peer: Ipv4Addr,
        head: &EventgroupEntry,
        giving: &mut Giving,
    ) -> Result<(), AllocError>
        ensures work { OnOk result (working self.new giving.new
            ≡ run plain (act (TakesAck peer head.now)) (working self.old giving.old)) }
        ensures config { self.new.config ≡ self.old.config }
    {
        let answer = self.answer_in(peer, head);
        let told = self.subscriptions.ack(answer, head.ttl, self.clock);
        tell_ack(head, told, &mut giving.outputs)
    }

    /// A Nack comes.
    #[tactic(auto, using(crate::proofs::LearningLemmas::told_as_it_is))]
    pub(crate) fn nack_came(
        &mut self,
        peer: Ipv4Addr,
        head: &EventgroupEntry,
        giving: &mut Giving,
    ) -> Result<(), AllocError>
        ensures work { OnOk result (working self.new giving.new
            ≡ run plain (act (TakesNack peer head.now)) (working self.old giving.old)) }
        ensures config { self.new.config ≡ self.old.config }
    {
        let answer = self.answer_in(peer, head);
        let ended = self.subscriptions.nack(answer, self.clock);
        tell_nack(head, ended, &mut giving.outputs)
    }

    /// An Ack or a Nack, as it is taken.
    fn answer_in(&self, peer: Ipv4Addr, head: &EventgroupEntry) -> SubscribeAnswer
        ensures { result ≡ answer_in peer head.now self.now }
    {
        let eventgroup = eventgroup_in(head);
        let has_wanted_major = match self.config.wants.get(&eventgroup.instance) {
            Some(want) => want.major == head.major,
            None => false,
        };
        SubscribeAnswer {
            eventgroup,
            has_wanted_major,
            peer,
            counter: head.counter,
        }
    }
}

/// Learns from an Offer, and gives its endpoint if it counts.
fn learn(
    seeker: &mut Seeker,
    offer: &ReceivedOffer,
    now: Moment,
) -> Result<(SocketAddrV4, Counted), Uncounted>
    ensures counts { OnOk result (uncounted offer.now now seeker.old ≡ None) }
    ensures endpoint { IfOk result (λ r. offer.now.endpoint ≡ Some r.0) }
    ensures counted { IfOk result (λ r. r.1
        ≡ counted_as r.0 (known_at now (finite.get seeker.old.known offer.now.instance))) }
    ensures learned { IfOk result (λ r. seeker.new ≡ learned offer.now r.0 now seeker.old) }
    ensures refused { IfErr result (λ cause. uncounted offer.now now seeker.old ≡ Some cause) }
    ensures unchanged { OnErr result (seeker.new ≡ seeker.old) }
{
    let counted = seeker.offer(offer, now)?;
    match offer.endpoint {
        Some(endpoint) => Ok((endpoint, counted)),
        None => unreachable!(),
    }
}

/// Tells an offer that counted, if it is new or has another endpoint.
fn tell_known(
    instance: InstanceId,
    endpoint: SocketAddrV4,
    counted: Counted,
    outputs: &mut Vec<Output>,
) -> Result<(), AllocError>
    ensures { OnOk result (outputs.new.items
        ≡ outputs.old.items ++ known_told instance endpoint counted) }
{
    match counted {
        Counted::New | Counted::Moved => outputs.push(Output::Known { instance, endpoint })?,
        Counted::Renewed => {}
    }
    Ok(())
}

/// Tells why an Offer does not count, unless its instance is not wanted.
fn tell_uncounted(cause: Uncounted, outputs: &mut Vec<Output>) -> Result<(), AllocError>
    ensures { OnOk result (outputs.new.items ≡ outputs.old.items
        ++ flat_map written (uncounted_by cause).given) }
{
    match cause {
        Uncounted::Unwanted => {}
        Uncounted::NoEndpoint => tell_dropped(outputs, DropReason::NoEndpoint)?,
        Uncounted::OtherPeer => tell_dropped(outputs, DropReason::OtherPeer)?,
    }
    Ok(())
}

/// Tells what an Ack brought about.
fn tell_ack(
    head: &EventgroupEntry,
    told: Acked,
    outputs: &mut Vec<Output>,
) -> Result<(), AllocError>
    ensures { OnOk result (outputs.new.items
        ≡ outputs.old.items ++ ack_told (eventgroup_in head.now) head.now.counter told) }
{
    match told {
        Acked::Subscribed => outputs.push(Output::Subscribed {
            eventgroup: eventgroup_in(head),
            counter: head.counter,
        })?,
        Acked::Renewed => {}
        Acked::NotPending => tell_dropped(outputs, DropReason::NotPending)?,
    }
    Ok(())
}

/// Tells whether a Nack ended a subscription.
fn tell_nack(
    head: &EventgroupEntry,
    ended: bool,
    outputs: &mut Vec<Output>,
) -> Result<(), AllocError>
    ensures { OnOk result (outputs.new.items
        ≡ outputs.old.items ++ nack_told (eventgroup_in head.now) ended) }
{
    if ended {
        outputs.push(Output::Unsubscribed {
            eventgroup: eventgroup_in(head),
        })?;
    } else {
        tell_dropped(outputs, DropReason::NotPending)?;
    }
    Ok(())
}
