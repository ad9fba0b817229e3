//! What datagrams of a recording show.
use audit_sd::offers::OfferKey;
use audit_sd::receivers::Delivery;
use audit_sd::subscriptions::SubscriptionKey;
use audit_traffic::calls::CallFinding;
use audit_traffic::events::EventFlow;
use audit_traffic::sequence;
use sd_wire::SdError;
use someip_reassembly::TpError;
use someip_wire::{Header, WireError};

/// An instance of a service.
#[derive(Clone, Copy, Debug, PartialEq, Eq)]
pub struct ServiceInstance {
    /// The Service ID.
    pub service: u16,
    /// The Instance ID.
    pub instance: u16,
}

/// What a datagram of a recording shows that is not as it should be, or that a book is full. Places are
/// numbers of bytes from the datagram's first one.
#[derive(Clone, Copy, Debug, PartialEq, Eq)]
pub enum Finding {
    /// A message of Service Discovery shows this by its sessions.
    Session(audit_sd::sessions::Finding),
    /// An Offer of this instance.
    Offer(OfferKey, audit_sd::offers::Finding),
    /// An entry of this subscription, as to its answer.
    Subscription(SubscriptionKey, audit_sd::subscriptions::Finding),
    /// An entry of this subscription, as to who is subscribed.
    Receiver(SubscriptionKey, audit_sd::receivers::Finding),
    /// A message with this header, as to its call.
    Call(Header, CallFinding),
    /// A message with this header answers its call with another return code than E_OK.
    Error(Header),
    /// A message with this header, as to its server.
    Server(Header, audit_sd::servers::Finding),
    /// An event to one endpoint, as to who is subscribed.
    Event(Delivery, audit_sd::receivers::Finding),
    /// An event of this flow, to one endpoint or to a group, with this session, by this.
    EventSession(EventFlow, u16, sequence::Finding),
    /// A segment with this header that reassembly refuses.
    Segment(Header, TpError),
    /// A segment whose payload, which begins at this place, has no room for its TP header.
    NoTpHeader(usize),
    /// The fault that ends the datagram.
    Malformed(WireError),
    /// A message of Service Discovery whose payload has this fault.
    MalformedSd(SdError),
    /// A run of options of an entry about this instance goes past the options of its message.
    BadRun(ServiceInstance),
    /// An entry about this instance needs an endpoint over UDP or TCP, and none of its options is one.
    NoEndpoint(ServiceInstance),
    /// An Offer or a Subscribe names an endpoint, and as many were learnt as may be. It is told once, and
    /// no more are learnt.
    EndpointsFull,
    /// A message went between two endpoints, and as many ways are counted as may be. It is told once.
    WaysFull,
    /// An Offer names a server, and as many are known as may be. It is told once, and the server is not taken.
    ServersFull,
    /// An event comes in cycles, and as many flows are watched as may be. It is told once, and the flow is not
    /// watched.
    CyclesFull,
}
