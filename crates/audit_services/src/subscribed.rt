//! What tells subscriptions apart, and at which places they are.
ghost use Rattle.audit_services.specs.SubscribedOrder.{exact_asked, exact_no_terms, exact_offer_places, exact_places, exact_subscribed};
ghost use Rattle.std.specs.Prelude.{◌≡◌};
ghost use Rattle.audit_services.specs.SubscribedKeys.{all_of, place_at};

use crate::placed::Placed;
use someip_tables::Key;
use std::net::{Ipv4Addr, SocketAddrV4};

/// A subscription: by rising service, then instance, then major version, then server, then eventgroup, client, counter
/// and endpoint (SOME/IP Service Discovery Protocol, "Subscribe Eventgroup entry").
#[derive(Clone, Copy, Debug, PartialEq, Eq, PartialOrd, Ord)]
pub struct Subscribed {
    /// Service ID.
    pub service: u16,
    /// Instance ID.
    pub instance: u16,
    /// Major version.
    pub major: u8,
    /// The address that the Subscribe went to.
    pub server: Ipv4Addr,
    /// Eventgroup ID.
    pub eventgroup: u16,
    /// The address that the Subscribe came from.
    pub client: Ipv4Addr,
    /// The counter, which tells the subscriptions of one client to one eventgroup apart.
    pub counter: u8,
    /// Where the events go: the first IPv4 UDP endpoint option of the Subscribe.
    pub endpoint: SocketAddrV4,
}

impl Key for Subscribed {
    ghost exact = { exact_subscribed };
}

/// A subscription has no terms beside what tells it apart.
#[derive(Clone, Copy, Debug, PartialEq, Eq, PartialOrd, Ord)]
pub struct NoTerms;

impl Key for NoTerms {
    ghost exact = { exact_no_terms };
}

/// Where subscriptions are: all at or of an address, or some at it.
#[derive(Clone, Copy, Debug, PartialEq, Eq, PartialOrd, Ord)]
pub struct Place {
    /// The address of a server, or of a client.
    pub address: Ipv4Addr,
    /// Those to one offer of the server, or all.
    pub offer: Option<OfferPlace>,
}

/// The subscriptions to one offer.
#[derive(Clone, Copy, Debug, PartialEq, Eq, PartialOrd, Ord)]
pub struct OfferPlace {
    /// Service ID.
    pub service: u16,
    /// Instance ID.
    pub instance: u16,
    /// Major version.
    pub major: u8,
    /// Those that one answer is for, or all.
    pub asked: Option<Asked>,
}

/// What an answer of a server names, which has no endpoint: the subscriptions that it is for.
#[derive(Clone, Copy, Debug, PartialEq, Eq, PartialOrd, Ord)]
pub struct Asked {
    /// Eventgroup ID.
    pub eventgroup: u16,
    /// The address that it goes to.
    pub client: Ipv4Addr,
    /// The counter.
    pub counter: u8,
}

impl Key for Place {
    ghost exact = { exact_places };
}

impl Key for OfferPlace {
    ghost exact = { exact_offer_places };
}

impl Key for Asked {
    ghost exact = { exact_asked };
}

/// A subscription is at its server, at its client, among those to its offer, and among those of its answers.
impl Placed<Place> for Subscribed {
    ghost use Rattle.audit_services.specs.SubscribedKeys.{places_of_subscribed};

    ghost places = { places_of_subscribed };

    fn places(&self) -> ((Place, Place), (Place, Place)) {
        let asked = Asked {
            eventgroup: self.eventgroup,
            client: self.client,
            counter: self.counter,
        };
        (
            (all_of(self.server), all_of(self.client)),
            (self.to_offer(None), self.to_offer(Some(asked))),
        )
    }
}

impl Subscribed {
    /// The place of the subscriptions to its offer, or of those that one answer is for.
    fn to_offer(&self, asked: Option<Asked>) -> Place
        ensures { result ≡ place_at self.now.server self.now.service self.now.instance self.now.major asked }
    {
        Place {
            address: self.server,
            offer: Some(OfferPlace {
                service: self.service,
                instance: self.instance,
                major: self.major,
                asked,
            }),
        }
    }
}

/// The place of all subscriptions at or of an address.
pub fn all_of(address: Ipv4Addr) -> Place
    ensures { result ≡ all_of address }
{
    Place {
        address,
        offer: None,
    }
}
