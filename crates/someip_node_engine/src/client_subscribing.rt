//! The eventgroups that the application of a client wishes.
ghost use Rattle.std.specs.Prelude.{◌≡◌, map, IfOk, OnOk, ◌≤◌, length};
ghost use Rattle.sd_wire.specs.contents.Values.{view_entry};
ghost use Rattle.someip_node_rules.specs.declared.output.Output.TheVariants.{Unsubscribed};
ghost use Rattle.someip_node_rules.specs.histories.Items.{changed, Unwished, Wished};
ghost use Rattle.someip_node_rules.specs.rules.Plans.{plain, run};
ghost use Rattle.someip_node_rules.specs.forms.Setups.{is_wanted_eventgroup};
ghost use Rattle.someip_node_rules.specs.histories.Tables.{known_peer};
ghost use Rattle.someip_node_engine.specs.Working.{working, told_after};
ghost use Rattle.sd_core.specs.Wishes.{sent_at_once, wish_of};
ghost use Rattle.std.specs.FinMap as finite;
ghost use Rattle.someip_node_rules.specs.rules.ClientSubscribing.{standing_of, stop_subscribe_of, wish_entries_by};
ghost use Rattle.someip_node_engine.specs.Handled.{Handled};
ghost use Rattle.someip_node_rules.specs.rules.Inputs as input;
ghost use Rattle.someip_node_rules.specs.forms.Receivers.{message_plan_to};
ghost use Rattle.someip_node_rules.specs.declared.receiver.Receiver.TheVariants.{Peer};

use crate::engine::Engine;
use crate::entry_making::subscribe_entry;
use crate::outputs::Giving;
use crate::own_config::client_endpoint;
use sd_core::{Beginning, Eventgroup, InstanceId, OutgoingSubscribe};
use sd_wire::{Entry, SubscriptionCounter, Ttl};
use someip_node_rules::{NodeError, Output, Receiver};
use someip_tp::Reassembly;
use std::alloc::AllocError;
use std::net::Ipv4Addr;

impl<R: Reassembly> Engine<R> {
    /// Wishes an eventgroup.
    pub fn subscribe_to(
        &mut self,
        eventgroup: Eventgroup,
        giving: &mut Giving,
    ) -> Result<(), NodeError>
        ensures handled { Handled (input.Subscribe eventgroup)
            self.old giving.old result self.new giving.new }
        ensures config { self.new.config ≡ self.old.config }
    {
        if !self.is_wanted_eventgroup(&eventgroup) {
            return Err(NodeError::NotWanted);
        }
        self.wish(eventgroup, giving)?;
        Ok(())
    }

    /// Takes the wish of an eventgroup back.
    pub fn unsubscribe_from(
        &mut self,
        eventgroup: Eventgroup,
        giving: &mut Giving,
    ) -> Result<(), NodeError>
        ensures handled { Handled (input.Unsubscribe eventgroup)
            self.old giving.old result self.new giving.new }
        ensures config { self.new.config ≡ self.old.config }
    {
        if !self.is_wanted_eventgroup(&eventgroup) {
            return Err(NodeError::NotWanted);
        }
        self.take_back(eventgroup, giving)?;
        Ok(())
    }

    /// Whether the node may subscribe to an eventgroup.
    fn is_wanted_eventgroup(&self, eventgroup: &Eventgroup) -> bool
        ensures { result ≡ is_wanted_eventgroup self.now.config eventgroup.now }
    {
        match self.config.wants.get(&eventgroup.instance) {
            Some(want) => want.groups.contains_key(&eventgroup.id),
            None => false,
        }
    }

    /// Lets a wish stand, and sends a Subscribe at once where an offer of the instance is known.
    fn wish(&mut self, eventgroup: Eventgroup, giving: &mut Giving) -> Result<(), AllocError>
        ensures work { OnOk result (working self.new giving.new
            ≡ run plain (input.subscribe_plan eventgroup) (working self.old giving.old)) }
        ensures config { self.new.config ≡ self.old.config }
    {
        let peer = self.known_peer(eventgroup.instance);
        let counter = self.let_wish(eventgroup, peer)?;
        let entries = self.wish_entries(eventgroup, counter)?;
        self.send_to_known(peer, &entries, giving)
    }

    /// Who made the known offer of an instance.
    fn known_peer(&self, instance: InstanceId) -> Option<Ipv4Addr>
        ensures { result ≡ known_peer self.now instance }
    {
        match self.seeker.known(instance, self.clock) {
            Some(known) => Some(known.peer),
            None => None,
        }
    }

    /// Lets a wish stand, and answers the counter of the Subscribe that goes out.
    fn let_wish(
        &mut self,
        eventgroup: Eventgroup,
        peer: Option<Ipv4Addr>,
    ) -> Result<Option<SubscriptionCounter>, AllocError>
        requires { peer ≡ known_peer self.old eventgroup.instance }
        ensures counter { IfOk result (λ counter. counter ≡ sent_at_once self.old.clock
            (known_peer self.old eventgroup.instance)
            (wish_of (finite.get self.old.wishes eventgroup))) }
        ensures wished { OnOk result (self.new ≡ changed self.old (Wished eventgroup)) }
        ensures config { self.new.config ≡ self.old.config }
    {
        self.subscriptions.want(eventgroup, peer, self.clock)
    }

    /// The Subscribe of an eventgroup, if one goes out.
    fn wish_entries(
        &self,
        eventgroup: Eventgroup,
        counter: Option<SubscriptionCounter>,
    ) -> Result<Vec<Entry>, AllocError>
        ensures entries { IfOk result (λ entries. map view_entry entries.items
            ≡ wish_entries_by self.now eventgroup counter) }
        ensures few { IfOk result (λ entries. length entries.items ≤ 65535) }
    {
        let mut entries = Vec::new(self.alloc);
        if let Some(counter) = counter {
            let subscribe = OutgoingSubscribe {
                eventgroup,
                counter,
            };
            self.push_subscribe(subscribe, &mut entries)?;
        }
        Ok(entries)
    }

    /// Sends entries to the peer whose offer is known, if there is one.
    fn send_to_known(
        &mut self,
        peer: Option<Ipv4Addr>,
        entries: &[Entry],
        giving: &mut Giving,
    ) -> Result<(), AllocError>
        requires { length entries.now ≤ 65535 }
        ensures work { OnOk result (working self.new giving.new
            ≡ run plain (input.peer_plan peer (map view_entry entries.now))
            (working self.old giving.old)) }
        ensures config { self.new.config ≡ self.old.config }
    {
        match peer {
            Some(peer) => self.send_message(Receiver::Peer(peer), entries, giving),
            None => Ok(()),
        }
    }

    /// Takes a wish back: the server of the subscription that stands is told before.
    fn take_back(&mut self, eventgroup: Eventgroup, giving: &mut Giving) -> Result<(), AllocError>
        ensures work { OnOk result (working self.new giving.new
            ≡ run plain (input.unsubscribe_plan eventgroup) (working self.old giving.old)) }
        ensures config { self.new.config ≡ self.old.config }
    {
        match self.unwish(eventgroup) {
            Some(standing) => self.end_subscription(eventgroup, standing, giving),
            None => Ok(()),
        }
    }

    /// Lets a wish stand no more, and answers the subscription that stood.
    fn unwish(&mut self, eventgroup: Eventgroup) -> Option<Beginning>
        ensures standing { result ≡ standing_of eventgroup self.old }
        ensures unwished { self.new ≡ changed self.old (Unwished eventgroup) }
    {
        self.subscriptions.unwant(eventgroup, self.clock)
    }

    /// Tells the server of a subscription that it ended, and then the application.
    fn end_subscription(
        &mut self,
        eventgroup: Eventgroup,
        standing: Beginning,
        giving: &mut Giving,
    ) -> Result<(), AllocError>
        ensures work { OnOk result (working self.new giving.new
            ≡ told_after (Unsubscribed eventgroup) (run plain (message_plan_to (Peer standing.peer)
            (stop_subscribe_of self.old eventgroup standing.counter))
            (working self.old giving.old))) }
        ensures config { self.new.config ≡ self.old.config }
    {
        let entries = self.stop_subscribe_entries(eventgroup, standing.counter)?;
        self.send_message(Receiver::Peer(standing.peer), &entries, giving)?;
        giving.outputs.push(Output::Unsubscribed { eventgroup })?;
        Ok(())
    }

    /// The StopSubscribe of an eventgroup.
    fn stop_subscribe_entries(
        &self,
        eventgroup: Eventgroup,
        counter: SubscriptionCounter,
    ) -> Result<Vec<Entry>, AllocError>
        ensures entries { IfOk result (λ entries. map view_entry entries.items
            ≡ stop_subscribe_of self.now eventgroup counter) }
        ensures few { IfOk result (λ entries. length entries.items ≤ 65535) }
    {
        let mut entries = Vec::new(self.alloc);
        if let Some(want) = self.config.wants.get(&eventgroup.instance) {
            let endpoint = client_endpoint(&self.config);
            let entry = subscribe_entry(
                self.alloc,
                endpoint,
                want.major,
                Ttl::ZERO,
                eventgroup,
                counter,
            )?;
            entries.push(entry)?;
        }
        Ok(entries)
    }
}
