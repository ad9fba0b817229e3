//! What tells the subscriptions at a server apart.
ghost use Rattle.sd_core.specs.SubscriptionOrder.{exact_subscriptions};

use crate::InstanceId;
use sd_wire::SubscriptionCounter;
use someip_tables::Key;
use std::net::{Ipv4Addr, SocketAddrV4};

/// A subscription, as its server tells it from others (SOME/IP Service Discovery Protocol,
/// "Publish/Subscribe").
#[derive(Clone, Copy, Debug, PartialEq, Eq, PartialOrd, Ord)]
pub struct Subscription {
    /// The instance whose events are subscribed.
    pub instance: InstanceId,
    /// Eventgroup ID.
    pub eventgroup: u16,
    /// The address that the Subscribe came from.
    pub peer: Ipv4Addr,
    /// Where the events go: the first IPv4 UDP endpoint option of the Subscribe.
    pub endpoint: SocketAddrV4,
    /// Tells the beginnings of one client's subscription apart.
    pub counter: SubscriptionCounter,
}

impl Key for Subscription {
    ghost exact = { exact_subscriptions };
}
