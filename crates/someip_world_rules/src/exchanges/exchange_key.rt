//! What two exchanges share where one is taken for the other.

ghost use Rattle.someip_world_rules.specs.exchanges.KeyOrder.{exact_calls, exact_events, exact_subscriptions};

use sd_core::Eventgroup;
use someip_rpc::MessageId;
use someip_tables::Key;
use std::net::{Ipv4Addr, SocketAddrV4};

/// The key of a call: its two endpoints, its Message ID and its Request ID (SOME/IP Protocol, "Request
/// ID"). A request and what answers it agree in it.
#[derive(Clone, Copy, PartialEq, Eq, PartialOrd, Ord)]
pub struct CallExchange {
    /// The endpoint of the client.
    pub client: SocketAddrV4,
    /// The endpoint of the server.
    pub server: SocketAddrV4,
    /// What is called.
    pub message: MessageId,
    /// Client ID, the first half of the Request ID.
    pub client_id: u16,
    /// Session ID, the second half of the Request ID.
    pub session: u16,
}

impl Key for CallExchange {
    ghost exact = { exact_calls };
}

/// The key of a publication: the endpoint that its event is sent from, its Message ID and its Request ID.
#[derive(Clone, Copy, PartialEq, Eq, PartialOrd, Ord)]
pub struct EventExchange {
    /// The endpoint of the server.
    pub server: SocketAddrV4,
    /// The event.
    pub message: MessageId,
    /// Client ID, the first half of the Request ID: 0.
    pub client_id: u16,
    /// Session ID, the second half of the Request ID.
    pub session: u16,
}

impl Key for EventExchange {
    ghost exact = { exact_events };
}

/// The key of a subscription: the addresses of its client and its server, its eventgroup and its counter
/// (SOME/IP Service Discovery, "Eventgroup Entry").
#[derive(Clone, Copy, PartialEq, Eq, PartialOrd, Ord)]
pub struct SubscriptionExchange {
    /// The address of the client.
    pub client: Ipv4Addr,
    /// The address of the server.
    pub server: Ipv4Addr,
    /// What is subscribed to.
    pub eventgroup: Eventgroup,
    /// The counter of its Subscribe entries: 0 to 15.
    pub counter: u8,
}

impl Key for SubscriptionExchange {
    ghost exact = { exact_subscriptions };
}

/// The key of an exchange: two exchanges with the same key can be taken for each other.
#[derive(Clone, Copy)]
pub enum ExchangeKey {
    /// That of a call.
    Call(CallExchange),
    /// That of a publication.
    Event(EventExchange),
    /// That of a subscription.
    Subscription(SubscriptionExchange),
}
