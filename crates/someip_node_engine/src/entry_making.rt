//! The entries of Service Discovery that a node sends.
ghost use Rattle.std.specs.Prelude.{◌≡◌, ◌∷◌, [], IfOk};
ghost use Rattle.sd_wire.specs.contents.Values.{view_entry};
ghost use Rattle.someip_node_rules.specs.forms.Entries.{ack_entry, find_entry, offer_entry, subscribe_entry, udp_option};

use sd_core::{Eventgroup, InstanceId};
use sd_wire::{
    Entry, EntryHead, EventgroupEntry, EventgroupKind, Ipv4Endpoint, Protocol, SdOption,
    ServiceEntry, ServiceKind, SubscriptionCounter, Ttl,
};
use someip_node_rules::OfferedService;
use std::alloc::{AllocError, Global};
use std::net::SocketAddrV4;

/// An Offer of an instance, or with a TTL of 0 its StopOffer, with the instance's endpoint.
pub(crate) fn offer_entry(
    alloc: Global,
    instance: InstanceId,
    ttl: Ttl,
    service: &OfferedService,
) -> Result<Entry, AllocError>
    ensures { IfOk result (λ entry. view_entry entry ≡ offer_entry instance ttl service.now) }
{
    let head = EntryHead::Service(ServiceEntry {
        kind: ServiceKind::Offer,
        service: instance.service,
        instance: instance.instance,
        major: service.rules.major,
        ttl,
        minor: service.minor,
    });
    with_endpoint(alloc, head, service.rules.endpoint)
}

/// A Find of an instance in a major version: any minor version, and a TTL of 3 seconds.
pub(crate) fn find_entry(alloc: Global, instance: InstanceId, major: u8) -> Entry
    ensures { view_entry result ≡ find_entry instance major }
{
    let head = EntryHead::Service(ServiceEntry {
        kind: ServiceKind::Find,
        service: instance.service,
        instance: instance.instance,
        major,
        ttl: find_ttl(),
        minor: ServiceEntry::ANY_MINOR,
    });
    bare(alloc, head)
}

/// The TTL of a Find.
fn find_ttl() -> Ttl
    ensures { result ≡ 3 }
{
    match Ttl::new(3) {
        Some(ttl) => ttl,
        None => unreachable!(),
    }
}

/// A Subscribe, or with a TTL of 0 a StopSubscribe, with the client's endpoint.
pub(crate) fn subscribe_entry(
    alloc: Global,
    endpoint: SocketAddrV4,
    major: u8,
    ttl: Ttl,
    eventgroup: Eventgroup,
    counter: SubscriptionCounter,
) -> Result<Entry, AllocError>
    ensures { IfOk result (λ entry. view_entry entry
        ≡ subscribe_entry endpoint major ttl eventgroup counter) }
{
    let head = EntryHead::Eventgroup(EventgroupEntry {
        kind: EventgroupKind::Subscribe,
        service: eventgroup.instance.service,
        instance: eventgroup.instance.instance,
        major,
        ttl,
        counter,
        eventgroup: eventgroup.id,
    });
    with_endpoint(alloc, head, endpoint)
}

/// The Ack of a Subscribe, or with a TTL of 0 its Nack.
pub(crate) fn ack_entry(alloc: Global, subscribe: &EventgroupEntry, ttl: Ttl) -> Entry
    ensures { view_entry result ≡ ack_entry subscribe.now ttl }
{
    let head = EntryHead::Eventgroup(EventgroupEntry {
        kind: EventgroupKind::Ack,
        service: subscribe.service,
        instance: subscribe.instance,
        major: subscribe.major,
        ttl,
        counter: subscribe.counter,
        eventgroup: subscribe.eventgroup,
    });
    bare(alloc, head)
}

/// An entry with one option, an endpoint over UDP.
fn with_endpoint(
    alloc: Global,
    head: EntryHead,
    endpoint: SocketAddrV4,
) -> Result<Entry, AllocError>
    ensures { IfOk result (λ entry. view_entry entry
        ≡ record { head = head; first = udp_option endpoint ∷ []; second = [] }) }
{
    let option = SdOption::Endpoint4(Ipv4Endpoint {
        socket: endpoint,
        protocol: Protocol::UDP,
    });
    let mut run1 = Vec::new(alloc);
    run1.push(option)?;
    Ok(Entry {
        head,
        run1,
        run2: Vec::new(alloc),
    })
}

/// An entry without options.
fn bare(alloc: Global, head: EntryHead) -> Entry
    ensures { view_entry result ≡ record { head = head; first = []; second = [] } }
{
    Entry {
        head,
        run1: Vec::new(alloc),
        run2: Vec::new(alloc),
    }
}
