//! Entries of Service Discovery as the books take them.
ghost use Rattle.std.specs.Prelude.{◌≡◌};
ghost use Rattle.std.specs.List.{list_any};
ghost use Rattle.sd_wire.specs.contents.Values.{view_entry};
ghost use Rattle.someip_audit.specs.SdEntries.{instance_of, is_endpoint, is_transport, lacks_endpoint};
ghost use Rattle.someip_audit.specs.SdEntries.{needs_endpoint, offer_entry, offers_by, receiver_entry, sd_message};
ghost use Rattle.someip_audit.specs.SdEntries.{served_by, server_key, server_offer, subscribe_entry};
ghost use Rattle.someip_audit.specs.SdEntries.{withdrawn_offer};

use crate::finding::ServiceInstance;
use audit_endpoints::is_offer;
use audit_sd::offers::{OfferEntry, OfferKey};
use audit_sd::receivers::{ReceiverEntry, WithdrawnOffer};
use audit_sd::servers::{Served, ServerKey, ServerOffer};
use audit_sd::sessions::SdMessage;
use audit_sd::subscriptions::{EntryKind, SubscribeEntry, SubscriptionKey};
use sd_session::Stamp;
use sd_wire::{
    Entry, EntryHead, EventgroupEntry, EventgroupKind, Protocol, SdFlags, SdOption, ServiceEntry,
};
use someip_tables::Moment;
use someip_tables::hashed::Origin;
use std::net::SocketAddrV4;

/// A message of Service Discovery with this session and these flags, as far as its sessions go.
pub fn sd_message(now: Moment, origin: &Origin, session: u16, flags: SdFlags) -> SdMessage
    ensures { result ≡ sd_message now origin.now session flags }
{
    SdMessage {
        at: now,
        from: *origin.from.ip(),
        to: *origin.to.ip(),
        stamp: Stamp {
            session,
            reboot: flags.reboot,
        },
    }
}

/// An Offer or a StopOffer.
pub(crate) fn offer_entry(
    origin: &Origin,
    entry: &ServiceEntry,
    endpoint: Option<SocketAddrV4>,
) -> OfferEntry
    ensures { result ≡ offer_entry origin.now entry.now endpoint }
{
    OfferEntry {
        key: OfferKey {
            service: entry.service,
            instance: entry.instance,
            major: entry.major,
        },
        endpoint,
        ttl: entry.ttl.seconds(),
        origin: *origin,
    }
}

/// An Offer with this endpoint, as far as it names a server.
pub(crate) fn server_offer(entry: &OfferEntry, endpoint: SocketAddrV4) -> ServerOffer
    ensures { result ≡ server_offer entry.now endpoint }
{
    ServerOffer {
        server: server_key(entry.key.service, endpoint),
        served: served_by(&entry.key),
        ttl: entry.ttl,
        sender: *entry.origin.from.ip(),
    }
}

/// The server of a service at an endpoint.
pub(crate) fn server_key(service: u16, endpoint: SocketAddrV4) -> ServerKey
    ensures { result ≡ server_key service endpoint }
{
    ServerKey { service, endpoint }
}

/// What an offer offers of its service.
pub(crate) fn served_by(key: &OfferKey) -> Served
    ensures { result ≡ served_by key.now }
{
    Served {
        instance: key.instance,
        major: key.major,
    }
}

/// The offer that a StopOffer withdraws.
pub(crate) fn withdrawn_offer(origin: &Origin, entry: &ServiceEntry) -> WithdrawnOffer
    ensures { result ≡ withdrawn_offer origin.now entry.now }
{
    WithdrawnOffer {
        server: *origin.from.ip(),
        service: entry.service,
        instance: entry.instance,
        major: entry.major,
    }
}

/// An entry of an eventgroup, as to its answer.
pub(crate) fn subscribe_entry(origin: &Origin, entry: &EventgroupEntry) -> SubscribeEntry
    ensures { result ≡ subscribe_entry origin.now entry.now }
{
    let (kind, client, server) = match entry.kind {
        EventgroupKind::Subscribe => (EntryKind::Subscribe, origin.from, origin.to),
        EventgroupKind::Ack => (EntryKind::Answer, origin.to, origin.from),
    };
    SubscribeEntry {
        key: SubscriptionKey {
            client: *client.ip(),
            server: *server.ip(),
            service: entry.service,
            instance: entry.instance,
            major: entry.major,
            eventgroup: entry.eventgroup,
            counter: entry.counter.number(),
        },
        kind,
        ttl: entry.ttl.seconds(),
        origin: *origin,
    }
}

/// The same, as to who is subscribed.
pub(crate) fn receiver_entry(
    entry: &SubscribeEntry,
    endpoint: Option<SocketAddrV4>,
) -> ReceiverEntry
    ensures { result ≡ receiver_entry entry.now endpoint }
{
    ReceiverEntry {
        key: entry.key,
        kind: entry.kind,
        ttl: entry.ttl,
        endpoint,
    }
}

/// The instance that an entry is about.
pub(crate) fn instance_of(head: &EntryHead) -> ServiceInstance
    ensures { result ≡ instance_of head.now }
{
    let (service, instance) = match head {
        EntryHead::Service(entry) => (entry.service, entry.instance),
        EntryHead::Eventgroup(entry) => (entry.service, entry.instance),
    };
    ServiceInstance { service, instance }
}

/// Whether an entry needs an endpoint, and none of its options is one.
pub(crate) fn lacks_endpoint(entry: &Entry) -> bool
    ensures { result ≡ lacks_endpoint (view_entry entry.now) }
{
    needs_endpoint(&entry.head) && !(has_endpoint(&entry.run1) || has_endpoint(&entry.run2))
}

/// Whether one of some options is an endpoint.
fn has_endpoint(options: &[SdOption]) -> bool
    ensures { result ≡ list_any is_endpoint options.now }
{
    options.iter().any(is_endpoint)
}

/// Whether an option is an endpoint over TCP or UDP, of IPv4 or of IPv6.
fn is_endpoint(option: &SdOption) -> bool
    ensures { result ≡ is_endpoint option.now }
{
    match option {
        SdOption::Endpoint4(endpoint) => is_transport(endpoint.protocol),
        SdOption::Endpoint6(endpoint) => is_transport(endpoint.protocol),
        _ => false,
    }
}

/// Whether SOME/IP goes over a transport protocol.
fn is_transport(protocol: Protocol) -> bool
    ensures { result ≡ is_transport protocol }
{
    protocol == Protocol::TCP || protocol == Protocol::UDP
}

/// Whether an entry is an Offer, a Subscribe or a StopSubscribe.
fn needs_endpoint(head: &EntryHead) -> bool
    ensures { result ≡ needs_endpoint head.now }
{
    match head {
        EntryHead::Service(service) => is_offer(service),
        EntryHead::Eventgroup(group) => matches!(group.kind, EventgroupKind::Subscribe),
    }
}

/// Whether an entry with this head is an Offer.
pub(crate) fn offers_by(head: &EntryHead) -> bool
    ensures { result ≡ offers_by head.now }
{
    match head {
        EntryHead::Service(entry) => is_offer(entry),
        EntryHead::Eventgroup(_) => false,
    }
}
