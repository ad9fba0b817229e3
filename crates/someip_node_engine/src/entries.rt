//! Entries of Service Discovery that come.
ghost use Rattle.std.specs.Prelude.{◌≡◌, map, OnOk};
ghost use Rattle.sd_wire.specs.contents.Values.{view_read};
ghost use Rattle.someip_node_rules.specs.rules.Handling.{bad_plan, entry_plan, eventgroup_plan, service_plan};
ghost use Rattle.someip_node_rules.specs.rules.Learning.{received_offer};
ghost use Rattle.someip_node_rules.specs.rules.Plans.{each, plain, run};
ghost use Rattle.someip_node_engine.specs.Working.{working};

use crate::engine::Engine;
use crate::outputs::Giving;
use sd_core::{InstanceId, ReceivedOffer};
use sd_wire::{EntryHead, EventgroupEntry, ReadEntry, ServiceEntry};
use someip_node_rules::DropReason;
use someip_tp::Reassembly;
use std::alloc::AllocError;
use std::net::{Ipv4Addr, SocketAddrV4};

impl<R: Reassembly> Engine<R> {
    /// The entries of a message come.
    pub(crate) fn entries(
        &mut self,
        peer: Ipv4Addr,
        entries: &[ReadEntry],
        giving: &mut Giving,
    ) -> Result<(), AllocError>
        ensures work { OnOk result (working self.new giving.new
            ≡ run plain (each (entry_plan peer) (map view_read entries.now))
            (working self.old giving.old)) }
        ensures config { self.new.config ≡ self.old.config }
    {
        for entry in entries {
            self.entry(peer, entry, giving)?;
        }
        Ok(())
    }

    /// An entry comes.
    fn entry(
        &mut self,
        peer: Ipv4Addr,
        entry: &ReadEntry,
        giving: &mut Giving,
    ) -> Result<(), AllocError>
        ensures work { OnOk result (working self.new giving.new
            ≡ run plain (entry_plan peer (view_read entry.now)) (working self.old giving.old)) }
        ensures config { self.new.config ≡ self.old.config }
    {
        match entry {
            ReadEntry::Good(entry) => match &entry.head {
                EntryHead::Service(head) => {
                    self.service_entry(peer, head, entry.udp_endpoint(), giving)
                }
                EntryHead::Eventgroup(head) => {
                    self.eventgroup_entry(peer, head, entry.udp_endpoint(), giving)
                }
            },
            ReadEntry::BadRun(head) => self.bad_entry(peer, head, giving),
        }
    }

    /// An entry about an instance comes, with this endpoint.
    fn service_entry(
        &mut self,
        peer: Ipv4Addr,
        head: &ServiceEntry,
        endpoint: Option<SocketAddrV4>,
        giving: &mut Giving,
    ) -> Result<(), AllocError>
        ensures work { OnOk result (working self.new giving.new
            ≡ run plain (service_plan peer head.now endpoint) (working self.old giving.old)) }
        ensures config { self.new.config ≡ self.old.config }
    {
        if head.is_find() {
            return self.find_came(head, giving);
        }
        let instance = InstanceId {
            service: head.service,
            instance: head.instance,
        };
        if head.is_stop_offer() {
            return self.stop_offer_came(instance, head.major, peer, giving);
        }
        self.offer_came(&received_offer(peer, head, endpoint), giving)
    }

    /// An entry about an eventgroup comes, with this endpoint.
    fn eventgroup_entry(
        &mut self,
        peer: Ipv4Addr,
        head: &EventgroupEntry,
        endpoint: Option<SocketAddrV4>,
        giving: &mut Giving,
    ) -> Result<(), AllocError>
        ensures work { OnOk result (working self.new giving.new
            ≡ run plain (eventgroup_plan peer head.now endpoint) (working self.old giving.old)) }
        ensures config { self.new.config ≡ self.old.config }
    {
        if head.is_subscribe() {
            self.subscribe_came(peer, head, endpoint, giving)
        } else if head.is_stop_subscribe() {
            self.stop_subscribe_came(peer, head, endpoint, giving)
        } else if head.is_ack() {
            self.ack_came(peer, head, giving)
        } else {
            self.nack_came(peer, head, giving)
        }
    }

    /// An entry comes with a run that goes past the options: a Subscribe is taken as one without
    /// options, and any other is dropped.
    fn bad_entry(
        &mut self,
        peer: Ipv4Addr,
        head: &EntryHead,
        giving: &mut Giving,
    ) -> Result<(), AllocError>
        ensures work { OnOk result (working self.new giving.new
            ≡ run plain (bad_plan peer head.now) (working self.old giving.old)) }
        ensures config { self.new.config ≡ self.old.config }
    {
        match head {
            EntryHead::Eventgroup(head) if head.is_subscribe() => {
                self.subscribe_came(peer, head, None, giving)
            }
            _ => giving.dropped(DropReason::BadRun),
        }
    }
}

/// An Offer, as it is learned from.
fn received_offer(
    peer: Ipv4Addr,
    head: &ServiceEntry,
    endpoint: Option<SocketAddrV4>,
) -> ReceivedOffer
    ensures { result ≡ received_offer peer head.now endpoint }
{
    ReceivedOffer {
        instance: InstanceId {
            service: head.service,
            instance: head.instance,
        },
        major: head.major,
        ttl: head.ttl,
        endpoint,
        peer,
    }
}
