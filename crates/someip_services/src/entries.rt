//! What entries of Service Discovery show of offers and subscriptions.
ghost use Rattle.std.specs.Prelude.{◌≡◌};
ghost use Rattle.sd_wire.specs.contents.Values.{view_read};
ghost use Rattle.someip_services.specs.Entries.{answered, answers, asks, group_by_kind, offer_begins, offer_by, offer_by_kind};
ghost use Rattle.someip_services.specs.Entries.{offer_shown, offered, subscribed, subscription_by, subscription_shown};
ghost use Rattle.audit_services.specs.SubscribedKeys.{place_at};
ghost use Rattle.someip_audit.specs.SdEntries.{sender};
ghost use Rattle.someip_services.specs.Entries.{withdrawn, withdrawn_by_kind};

use audit_services::{
    Asked, NoTerms, OfferPlace, OfferTerms, Offered, Place, Shown, Subscribed, Why,
};
use sd_wire::{EntryHead, EventgroupEntry, EventgroupKind, ReadEntry, ServiceEntry, ServiceKind};
use someip_tables::hashed::Origin;
use std::net::{Ipv4Addr, SocketAddrV4};

/// What is shown of offers.
pub(crate) type OfferShown = Shown<Ipv4Addr, Offered, OfferTerms>;

/// What is shown of subscriptions.
pub(crate) type SubscriptionShown = Shown<Place, Subscribed, NoTerms>;

/// What an entry shows of offers.
pub(crate) fn offer_shown(origin: &Origin, entry: &ReadEntry) -> Option<OfferShown>
    ensures { result ≡ offer_shown origin.now (view_read entry.now) }
{
    match entry {
        ReadEntry::Good(entry) => offer_by(origin, &entry.head, entry.udp_endpoint()),
        ReadEntry::BadRun(head) => offer_by(origin, head, None),
    }
}

/// What an entry shows of subscriptions.
pub(crate) fn subscription_shown(origin: &Origin, entry: &ReadEntry) -> Option<SubscriptionShown>
    ensures { result ≡ subscription_shown origin.now (view_read entry.now) }
{
    match entry {
        ReadEntry::Good(entry) => subscription_by(origin, &entry.head, entry.udp_endpoint()),
        ReadEntry::BadRun(head) => subscription_by(origin, head, None),
    }
}

/// What an entry with this head and endpoint shows of offers.
fn offer_by(origin: &Origin, head: &EntryHead, endpoint: Option<SocketAddrV4>) -> Option<OfferShown>
    ensures { result ≡ offer_by origin.now head.now endpoint }
{
    match head {
        EntryHead::Service(entry) => offer_by_kind(origin, entry, endpoint),
        EntryHead::Eventgroup(_) => None,
    }
}

/// What an entry about an instance shows of offers.
fn offer_by_kind(
    origin: &Origin,
    entry: &ServiceEntry,
    endpoint: Option<SocketAddrV4>,
) -> Option<OfferShown>
    ensures { result ≡ offer_by_kind entry.now.kind origin.now entry.now endpoint }
{
    match entry.kind {
        ServiceKind::Find => None,
        ServiceKind::Offer => {
            if entry.ttl.seconds() == 0 {
                return Some(Shown::KeyEnds(offered(origin, entry), Why::Stopped));
            }
            offer_begins(origin, entry, endpoint)
        }
    }
}

/// What an Offer shows of offers.
fn offer_begins(
    origin: &Origin,
    entry: &ServiceEntry,
    endpoint: Option<SocketAddrV4>,
) -> Option<OfferShown>
    ensures { result ≡ offer_begins origin.now entry.now endpoint }
{
    let terms = OfferTerms {
        minor: entry.minor,
        endpoint: endpoint?,
    };
    Some(Shown::KeyBegins(offered(origin, entry), terms, entry.ttl.seconds()))
}

/// What is offered, and by whom.
fn offered(origin: &Origin, entry: &ServiceEntry) -> Offered
    ensures { result ≡ offered origin.now entry.now }
{
    Offered {
        service: entry.service,
        instance: entry.instance,
        major: entry.major,
        sender: *origin.from.ip(),
    }
}

/// What an entry with this head and endpoint shows of subscriptions.
fn subscription_by(
    origin: &Origin,
    head: &EntryHead,
    endpoint: Option<SocketAddrV4>,
) -> Option<SubscriptionShown>
    ensures { result ≡ subscription_by origin.now head.now endpoint }
{
    match head {
        EntryHead::Service(entry) => withdrawn_by_kind(origin, entry),
        EntryHead::Eventgroup(entry) => match entry.kind {
            EventgroupKind::Subscribe => asks(origin, entry, endpoint),
            EventgroupKind::Ack => Some(answers(origin, entry)),
        },
    }
}

/// What an entry about an instance shows of subscriptions: a StopOffer ends those to what was offered.
fn withdrawn_by_kind(origin: &Origin, entry: &ServiceEntry) -> Option<SubscriptionShown>
    ensures { result ≡ withdrawn_by_kind entry.now.kind origin.now entry.now }
{
    match entry.kind {
        ServiceKind::Find => None,
        ServiceKind::Offer => {
            if entry.ttl.seconds() != 0 {
                return None;
            }
            let withdrawn = place_at(origin, entry.service, entry.instance, entry.major, None);
            Some(Shown::PlaceEnds(withdrawn, Why::Offer))
        }
    }
}

/// What a Subscribe or a StopSubscribe shows.
fn asks(
    origin: &Origin,
    entry: &EventgroupEntry,
    endpoint: Option<SocketAddrV4>,
) -> Option<SubscriptionShown>
    ensures { result ≡ asks origin.now entry.now endpoint }
{
    let key = subscribed(origin, entry, endpoint?);
    if entry.ttl.seconds() == 0 {
        return Some(Shown::KeyEnds(key, Why::Stopped));
    }
    Some(Shown::KeyBegins(key, NoTerms, entry.ttl.seconds()))
}

/// The subscription of the sender of a Subscribe.
fn subscribed(origin: &Origin, entry: &EventgroupEntry, endpoint: SocketAddrV4) -> Subscribed
    ensures { result ≡ subscribed origin.now entry.now endpoint }
{
    Subscribed {
        service: entry.service,
        instance: entry.instance,
        major: entry.major,
        server: *origin.to.ip(),
        eventgroup: entry.eventgroup,
        client: *origin.from.ip(),
        counter: entry.counter.number(),
        endpoint,
    }
}

/// What an Ack or a Nack shows.
fn answers(origin: &Origin, entry: &EventgroupEntry) -> SubscriptionShown
    ensures { result ≡ answers origin.now entry.now }
{
    let asked = Asked {
        eventgroup: entry.eventgroup,
        client: *origin.to.ip(),
        counter: entry.counter.number(),
    };
    let place = place_at(
        origin,
        entry.service,
        entry.instance,
        entry.major,
        Some(asked),
    );
    if entry.ttl.seconds() == 0 {
        return Shown::PlaceEnds(place, Why::Refused);
    }
    Shown::PlaceGoesOn(place, entry.ttl.seconds())
}

/// The subscriptions to what the sender offers, or those that one of its answers is for.
fn place_at(origin: &Origin, service: u16, instance: u16, major: u8, asked: Option<Asked>) -> Place
    ensures { result ≡ place_at (sender origin.now) service instance major asked }
{
    Place {
        address: *origin.from.ip(),
        offer: Some(OfferPlace {
            service,
            instance,
            major,
            asked,
        }),
    }
}
