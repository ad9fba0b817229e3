//! Which entries name an endpoint.
ghost use Rattle.std.specs.Prelude.{◌≡◌};
ghost use Rattle.audit_endpoints.specs.NamedEndpoints.{is_offer, named_endpoint, names_endpoint};

use sd_wire::{EntryHead, EventgroupKind, ServiceEntry, ServiceKind};
use std::net::SocketAddrV4;

/// The endpoint that an entry names: that of an Offer or a Subscribe, if it has one.
pub fn named_endpoint(head: &EntryHead, endpoint: Option<SocketAddrV4>) -> Option<SocketAddrV4>
    ensures { result ≡ named_endpoint head.now endpoint }
{
    if names_endpoint(head) { endpoint } else { None }
}

/// Whether an entry is an Offer or a Subscribe.
fn names_endpoint(head: &EntryHead) -> bool
    ensures { result ≡ names_endpoint head.now }
{
    match head {
        EntryHead::Service(entry) => is_offer(entry),
        EntryHead::Eventgroup(entry) => {
            matches!(entry.kind, EventgroupKind::Subscribe) && entry.ttl.seconds() != 0
        }
    }
}

/// Whether an entry about an instance is an Offer, and no Find or StopOffer.
pub fn is_offer(entry: &ServiceEntry) -> bool
    ensures { result ≡ is_offer entry.now }
{
    matches!(entry.kind, ServiceKind::Offer) && entry.ttl.seconds() != 0
}
