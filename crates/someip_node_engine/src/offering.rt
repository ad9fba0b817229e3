//! What a server does with its offers: it answers Finds, and stops an offer where the application asks for it.
//!
//! `subscribe`, `unsubscribe` and `stop_offer` of the engine act in another order than their plans where
//! the tables do not meet: the contract is the plan's.
ghost use Rattle.std.specs.Prelude.{◌≡◌, ◌++◌, map, IfOk, OnOk, ◌≤◌, length};
ghost use Rattle.std.specs.List.{flat_map};
ghost use Rattle.sd_wire.specs.contents.Values.{view_entry};
ghost use Rattle.someip_node_rules.specs.histories.Items.{changed, OfferStopped};
ghost use Rattle.someip_node_rules.specs.rules.Plans.{act, plain, run, TakesFind};
ghost use Rattle.someip_node_rules.specs.rules.Offering.{offer_of, sought_by};
ghost use Rattle.someip_node_engine.specs.Working.{working};
ghost use Rattle.someip_node_rules.specs.rules.Offering.{stop_offer_of};
ghost use Rattle.someip_node_engine.specs.Handled.{Handled};
ghost use Rattle.someip_node_rules.specs.rules.Inputs as input;

use crate::engine::Engine;
use crate::entry_making::offer_entry;
use crate::outputs::Giving;
use sd_core::{InstanceId, Sought};
use sd_wire::{Entry, ServiceEntry, Ttl};
use someip_node_rules::{NodeError, Receiver};
use someip_rpc::RpcError;
use someip_tp::Reassembly;
use std::alloc::AllocError;

impl<R: Reassembly> Engine<R> {
    /// A Find comes.
    pub(crate) fn find_came(
        &self,
        head: &ServiceEntry,
        giving: &mut Giving,
    ) -> Result<(), AllocError>
        ensures { OnOk result (working self.now giving.new
            ≡ run plain (act (TakesFind head.now)) (working self.now giving.old)) }
    {
        let found = self.offers.find(sought_by(head))?;
        self.push_offers(&found, &mut giving.replies)
    }

    /// Adds the Offers of some instances.
    pub(crate) fn push_offers(
        &self,
        instances: &[InstanceId],
        entries: &mut Vec<Entry>,
    ) -> Result<(), AllocError>
        ensures { OnOk result (map view_entry entries.new.items
            ≡ map view_entry entries.old.items ++ flat_map (offer_of self.now) instances.now) }
    {
        for instance in instances {
            self.push_offer(*instance, entries)?;
        }
        Ok(())
    }

    /// Adds the Offer of an instance.
    fn push_offer(&self, instance: InstanceId, entries: &mut Vec<Entry>) -> Result<(), AllocError>
        ensures { OnOk result (map view_entry entries.new.items
            ≡ map view_entry entries.old.items ++ offer_of self.now instance) }
    {
        if let Some(service) = self.config.offers.get(&instance) {
            let entry = offer_entry(self.alloc, instance, service.ttl, service)?;
            entries.push(entry)?;
        }
        Ok(())
    }

    /// Stops the offer of an instance.
    pub fn stop_offering(
        &mut self,
        instance: InstanceId,
        giving: &mut Giving,
    ) -> Result<(), NodeError>
        ensures handled { Handled (input.StopOffer instance)
            self.old giving.old result self.new giving.new }
        ensures config { self.new.config ≡ self.old.config }
    {
        if !self.offers.is_up(instance) {
            return Err(NodeError::Rpc(RpcError::NotOffered));
        }
        self.withdraw(instance, giving)?;
        Ok(())
    }

    /// Stops the offer of an instance: the group is told before.
    fn withdraw(&mut self, instance: InstanceId, giving: &mut Giving) -> Result<(), AllocError>
        ensures work { OnOk result (working self.new giving.new
            ≡ run plain (input.stop_offer_plan instance) (working self.old giving.old)) }
        ensures config { self.new.config ≡ self.old.config }
    {
        let entries = self.stop_offer_entries(instance)?;
        self.send_message(Receiver::Group, &entries, giving)?;
        self.stop_instance(instance);
        Ok(())
    }

    /// The StopOffer of an instance.
    fn stop_offer_entries(&self, instance: InstanceId) -> Result<Vec<Entry>, AllocError>
        ensures entries { IfOk result (λ entries. map view_entry entries.items
            ≡ stop_offer_of self.now instance) }
        ensures few { IfOk result (λ entries. length entries.items ≤ 65535) }
    {
        let mut entries = Vec::new(self.alloc);
        if let Some(service) = self.config.offers.get(&instance) {
            let entry = offer_entry(self.alloc, instance, Ttl::ZERO, service)?;
            entries.push(entry)?;
        }
        Ok(entries)
    }

    /// Takes an instance down, and ends the subscriptions to it.
    fn stop_instance(&mut self, instance: InstanceId)
        ensures { self.new ≡ changed self.old (OfferStopped instance) }
    {
        self.offers.stop(instance);
        self.subscribers.stop_offer(instance);
    }
}

/// What a Find asks for.
fn sought_by(head: &ServiceEntry) -> Sought
    ensures { result ≡ sought_by head.now }
{
    Sought {
        service: head.service,
        instance: head.instance,
        major: head.major,
        minor: head.minor,
    }
}
