//! The receivers of the events of one source.
//!
//! The receivers of one event of one sender stand together in the book of events, and are found by the hash
//! of the event and its sender: an event of a known flow takes one look, and two steps at most for each of
//! its receivers, which are told that it came; one of a new flow takes a few looks. What disturbs a flow, or
//! forgets it, goes over the receivers of its source.
ghost use Rattle.std.specs.Prelude.{◌≡◌, ◌==◌, ◌&&◌, IfNone, IfSome, filter, if◌then◌else◌, is_some, length, map, nat_lt, not};
ghost use Rattle.std.specs.FinMap.{find};
ghost use Rattle.std.specs.Ordering.{eq_by_cmp};
ghost use Rattle.someip_tables.specs.Endpoints.{address_cmp, endpoint_cmp};
ghost use Rattle.audit_traffic.specs.events.EventRules.{is_at, is_group, may_reach};
ghost use Rattle.audit_traffic.specs.events.FlowGroups.{changed_by, disturbed_at, disturbed_to, flow_to, lasts_of, noted};
ghost use Rattle.audit_traffic.specs.events.FlowGroups.{once_changed, once_withdrawn};

use crate::events::last_event::LastEvent;
use crate::events::notification::Notification;
use crate::events::receiver::Receiver;
use crate::events::source::EventSource;
use crate::events::steps::{past, renewed};
use someip_tables::hashed::{is_same_address, is_same_endpoint};
use std::net::{Ipv4Addr, SocketAddrV4};

/// Takes note at each receiver that one got an event, if this one is among them, and says what its last event
/// was before.
pub(crate) fn take_note(receivers: &mut Vec<Receiver>, event: &Notification) -> Option<LastEvent>
    ensures had { result ≡ find endpoint_cmp event.now.flow.receiver (lasts_of receivers.old.items) }
    ensures known { IfSome result (λ last. receivers.new.items ≡ map (noted event.now) receivers.old.items) }
    ensures none { IfNone result (receivers.new.items ≡ receivers.old.items) }
{
    let last = last_of(receivers, &event.flow.receiver)?;
    note(receivers, event);
    Some(last)
}

/// The last event of a receiver, if it is among these.
fn last_of(receivers: &[Receiver], endpoint: &SocketAddrV4) -> Option<LastEvent>
    ensures { result ≡ find endpoint_cmp endpoint.now (lasts_of receivers.now) }
{
    for receiver in receivers {
        if is_same_endpoint(endpoint, &receiver.endpoint) {
            return Some(receiver.last);
        }
    }
    None
}

/// Takes note at each receiver that one got an event.
fn note(receivers: &mut [Receiver], event: &Notification)
    ensures { receivers.new ≡ map (noted event.now) receivers.old }
{
    for receiver in receivers.iter_mut() {
        *receiver = noted(*receiver, event);
    }
}

/// A receiver once it or another one got an event.
fn noted(receiver: Receiver, event: &Notification) -> Receiver
    ensures { result ≡ noted event.now receiver }
{
    let last = if is_same_endpoint(&event.flow.receiver, &receiver.endpoint) {
        renewed(event.session, Some(receiver.last))
    } else {
        past(event.session, receiver.last)
    };
    Receiver {
        endpoint: receiver.endpoint,
        last,
    }
}

/// Disturbs the flow to an endpoint, if there is one.
pub(crate) fn disturb_one(receivers: &mut Vec<Receiver>, endpoint: &SocketAddrV4)
    ensures { receivers.new.items ≡ map (disturbed_to endpoint.now) receivers.old.items }
{
    disturb_to(receivers, endpoint);
}

/// Disturbs the flow to an endpoint.
fn disturb_to(receivers: &mut [Receiver], endpoint: &SocketAddrV4)
    ensures { receivers.new ≡ map (disturbed_to endpoint.now) receivers.old }
{
    for receiver in receivers.iter_mut() {
        *receiver = disturbed_to(endpoint, *receiver);
    }
}

/// A receiver, with its flow disturbed where it is this endpoint.
fn disturbed_to(endpoint: &SocketAddrV4, receiver: Receiver) -> Receiver
    ensures { result ≡ disturbed_to endpoint.now receiver }
{
    if is_same_endpoint(&receiver.endpoint, endpoint) {
        disturbed(receiver)
    } else {
        receiver
    }
}

/// Forgets the flow to an endpoint, and says whether there was one.
pub(crate) fn forget_one(receivers: &mut Vec<Receiver>, endpoint: &SocketAddrV4) -> bool
    ensures there { result ≡ is_some (find endpoint_cmp endpoint.now (lasts_of receivers.old.items)) }
    ensures left { receivers.new.items
        ≡ filter (λ r. not (eq_by_cmp endpoint_cmp r.endpoint endpoint.now)) receivers.old.items }
{
    let is_there = last_of(receivers, endpoint).is_some();
    receivers.retain(|receiver| !is_same_endpoint(&receiver.endpoint, endpoint));
    is_there
}

/// A subscription of a client to a service at a server began or ended: the flows of this service from this server
/// to this client, and to a multicast group, are disturbed.
pub(crate) fn disturb(
    source: &EventSource,
    receivers: &mut [Receiver],
    client: Ipv4Addr,
    server: Ipv4Addr,
    service: u16,
)
    ensures { receivers.new ≡ map (changed_by (once_changed client server service) source.now) receivers.old }
{
    if is_of_service(source, server, service) {
        disturb_those(receivers, client);
    }
}

/// Whether a source is at an address.
fn is_from(source: &EventSource, address: &Ipv4Addr) -> bool
    ensures { result ≡ eq_by_cmp address_cmp source.now.sender.ip address.now }
{
    is_same_address(source.sender.ip(), address)
}

/// Disturbs the flows to a client, and to a multicast group.
fn disturb_those(receivers: &mut [Receiver], client: Ipv4Addr)
    ensures { receivers.new ≡ map (λ r. if may_reach client r.endpoint.ip then disturbed_at r else r) receivers.old }
{
    for receiver in receivers.iter_mut() {
        *receiver = disturbed_for(client, *receiver);
    }
}

/// A server withdrew an offer of a service: the flows of that service from this server are disturbed.
pub(crate) fn withdraw(
    source: &EventSource,
    receivers: &mut [Receiver],
    server: Ipv4Addr,
    service: u16,
)
    ensures { receivers.new ≡ map (changed_by (once_withdrawn server service) source.now) receivers.old }
{
    if is_of_service(source, server, service) {
        disturb_all(receivers);
    }
}

/// Whether a source is of a service at an address.
fn is_of_service(source: &EventSource, server: Ipv4Addr, service: u16) -> bool
    ensures { result ≡ (eq_by_cmp address_cmp source.now.sender.ip server && (source.now.service == service)) }
{
    is_from(source, &server) && source.service == service
}

/// Disturbs the flows to all.
fn disturb_all(receivers: &mut [Receiver])
    ensures { receivers.new ≡ map disturbed_at receivers.old }
{
    for receiver in receivers.iter_mut() {
        *receiver = disturbed(*receiver);
    }
}

/// An address began again: the flows from it and to it are forgotten. Whether any is left.
pub(crate) fn forget(source: &EventSource, receivers: &mut Vec<Receiver>, address: Ipv4Addr) -> bool
    ensures left { receivers.new.items
        ≡ filter (λ r. not (is_at address (flow_to source.now r.endpoint))) receivers.old.items }
    ensures any { result ≡ nat_lt 0 (length receivers.new.items) }
{
    receivers.retain(|receiver| !is_at(source, receiver, &address));
    !receivers.is_empty()
}

/// Whether the flow from a source to a receiver is from an address or to it.
fn is_at(source: &EventSource, receiver: &Receiver, address: &Ipv4Addr) -> bool
    ensures { result ≡ is_at address.now (flow_to source.now receiver.now.endpoint) }
{
    is_from(source, address) || is_same_address(receiver.endpoint.ip(), address)
}

/// A receiver, with its flow disturbed where it goes to a client, or to a multicast group.
fn disturbed_for(client: Ipv4Addr, receiver: Receiver) -> Receiver
    ensures { result ≡ (if may_reach client receiver.endpoint.ip then disturbed_at receiver else receiver) }
{
    if may_reach(receiver.endpoint.ip(), client) {
        disturbed(receiver)
    } else {
        receiver
    }
}

/// A receiver whose flow was disturbed.
fn disturbed(receiver: Receiver) -> Receiver
    ensures { result ≡ disturbed_at receiver }
{
    Receiver {
        endpoint: receiver.endpoint,
        last: LastEvent {
            session: receiver.last.session,
            is_disturbed: true,
            nearest: receiver.last.nearest,
        },
    }
}

/// Whether a subscription of a client that begins or ends may change who gets what goes to an address.
fn may_reach(address: &Ipv4Addr, client: Ipv4Addr) -> bool
    ensures { result ≡ may_reach client address.now }
{
    is_same_address(address, &client) || is_group(address)
}

/// Whether an address is a multicast group's.
pub(crate) fn is_group(address: &Ipv4Addr) -> bool
    ensures { result ≡ is_group address.now }
{
    let first = address.octets()[0];
    224 <= first && first < 240
}
