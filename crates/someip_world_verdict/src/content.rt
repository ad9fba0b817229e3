//! What a datagram says of exchanges, by its own bytes and endpoints.
ghost use Rattle.std.specs.Prelude.{◌≡◌, map, IfOk};
ghost use Rattle.std.specs.Option.{option_to_list};
ghost use Rattle.std.specs.Result.{result_map_both};
ghost use Rattle.someip_wire.specs.View.{view};
ghost use Rattle.sd_wire.specs.decoding.Program.{reading};
ghost use Rattle.sd_wire.specs.contents.Values.{view_read, view_sd};
ghost use Rattle.someip_node_laws.specs.Fitting.{head_of};
ghost use Rattle.someip_node_rules.specs.rules.Learning.{eventgroup_in};
ghost use Rattle.someip_world_rules.specs.exchanges.Namings.{named_by_kind, named_by_type, of_call, of_event, of_subscription};
ghost use Rattle.someip_world_verdict.specs.Contents.{said_by_entries, said_by_head, said_by_header, said_by_message, said_by_reading, said_in, stream_in, whole_header};

use crate::said::Said;
use sd_core::{Eventgroup, InstanceId};
use sd_wire::{EntryHead, EventgroupEntry, EventgroupKind, ReadEntry, SdError, SdRead, read_sd};
use someip_rpc::MessageId;
use someip_tp::ReassemblyKey;
use someip_wire::{Header, Message, MessageType, Messages};
use someip_world_rules::Datagram;
use someip_world_rules::exchanges::{
    CallExchange, EventExchange, ExchangeKey, Naming, Side, SubscriptionExchange,
};
use std::alloc::{AllocError, Global};
use std::net::{Ipv4Addr, SocketAddrV4};

/// What a datagram says, in order.
pub(crate) fn said_in(alloc: Global, datagram: &Datagram<'_>) -> Result<Vec<Said>, AllocError>
    ensures { IfOk result (λ said. said.items ≡ said_in (record {
      from = datagram.now.from;
      to = datagram.now.to;
      bytes = datagram.now.bytes.now;
    })) }
{
    match Messages::new(datagram.bytes).next() {
        Some(Ok(message)) => said_by_message(alloc, datagram.from, datagram.to, &message),
        _ => Ok(Vec::new(alloc)),
    }
}

/// The reassembly key of the whole message, where a datagram holds a segment.
pub(crate) fn stream_in(datagram: &Datagram<'_>) -> Option<ReassemblyKey>
    ensures { result ≡ stream_in (record {
      from = datagram.now.from;
      to = datagram.now.to;
      bytes = datagram.now.bytes.now;
    }) }
{
    match Messages::new(datagram.bytes).next() {
        Some(Ok(message)) => {
            if message.header.kind.has_tp_flag() {
                let whole = whole_header(message.header);
                Some(ReassemblyKey::new(datagram.from, datagram.to, &whole))
            } else {
                None
            }
        }
        _ => None,
    }
}

/// The header of the whole message, of which this is one or a segment.
fn whole_header(header: Header) -> Header
    ensures { result ≡ whole_header header }
{
    Header {
        kind: header.kind.without_tp_flag(),
        ..header
    }
}

/// What a message says.
fn said_by_message(
    alloc: Global,
    from: SocketAddrV4,
    to: SocketAddrV4,
    message: &Message<'_>,
) -> Result<Vec<Said>, AllocError>
    ensures { IfOk result (λ said. said.items ≡ said_by_message from to (view message.now)) }
{
    if message.header.is_discovery() {
        let found = read_payload(alloc, message.payload)?;
        said_by_reading(alloc, *from.ip(), *to.ip(), found)
    } else {
        said_by_header(alloc, from, to, &whole_header(message.header))
    }
}

// ---- messages of the application

/// What a message with a header says: it names its exchange.
fn said_by_header(
    alloc: Global,
    from: SocketAddrV4,
    to: SocketAddrV4,
    header: &Header,
) -> Result<Vec<Said>, AllocError>
    ensures { IfOk result (λ said. said.items ≡ said_by_header from to header.now) }
{
    let mut said = Vec::new(alloc);
    if let Some(naming) = naming_by_header(from, to, header) {
        said.push(Said {
            naming,
            subscribes: false,
        })?;
    }
    Ok(said)
}

/// What a header names: a request its call, an answer that of the other way round, and an event its
/// publication.
fn naming_by_header(from: SocketAddrV4, to: SocketAddrV4, header: &Header) -> Option<Naming>
    ensures { named_by_type header.now.kind from to header.now ≡ option_to_list result }
{
    match header.kind {
        MessageType::Request | MessageType::RequestNoReturn => Some(Naming {
            key: call_key(from, to, header),
            side: Side::Opener,
        }),
        MessageType::Response | MessageType::Error => Some(Naming {
            key: call_key(to, from, header),
            side: Side::Answerer,
        }),
        MessageType::Notification => Some(Naming {
            key: event_key(from, header),
            side: Side::Opener,
        }),
        _ => None,
    }
}

/// The key of a call.
fn call_key(client: SocketAddrV4, server: SocketAddrV4, header: &Header) -> ExchangeKey
    ensures { result ≡ of_call client server header.now.service header.now.method
        header.now.client header.now.session }
{
    ExchangeKey::Call(CallExchange {
        client,
        server,
        message: MessageId {
            service: header.service,
            method: header.method,
        },
        client_id: header.client,
        session: header.session,
    })
}

/// The key of a publication.
fn event_key(server: SocketAddrV4, header: &Header) -> ExchangeKey
    ensures { result ≡ of_event server header.now.service header.now.method header.now.client
        header.now.session }
{
    ExchangeKey::Event(EventExchange {
        server,
        message: MessageId {
            service: header.service,
            method: header.method,
        },
        client_id: header.client,
        session: header.session,
    })
}

// ---- Service Discovery

/// Reads a message, and keeps want of memory apart.
fn read_payload(alloc: Global, payload: &[u8]) -> Result<Result<SdRead, SdError>, AllocError>
    ensures { IfOk result (λ found. result_map_both view_sd (λ e. e) found ≡ reading payload.now) }
{
    SdError::apart(read_sd(alloc, payload))
}

/// What is said by what was read of a message.
fn said_by_reading(
    alloc: Global,
    from: Ipv4Addr,
    to: Ipv4Addr,
    found: Result<SdRead, SdError>,
) -> Result<Vec<Said>, AllocError>
    ensures { IfOk result (λ said. said.items
        ≡ said_by_reading from to (result_map_both view_sd (λ e. e) found)) }
{
    match found {
        Ok(read) => said_by_entries(alloc, from, to, read.entries.as_slice()),
        Err(_) => Ok(Vec::new(alloc)),
    }
}

/// What the entries of a message say.
fn said_by_entries(
    alloc: Global,
    from: Ipv4Addr,
    to: Ipv4Addr,
    entries: &[ReadEntry],
) -> Result<Vec<Said>, AllocError>
    ensures { IfOk result (λ said. said.items ≡ said_by_entries from to (map view_read entries.now)) }
{
    let mut said = Vec::new(alloc);
    for entry in entries {
        if let Some(one) = said_by_entry(from, to, entry) {
            said.push(one)?;
        }
    }
    Ok(said)
}

/// What an entry says, if it is about an eventgroup.
fn said_by_entry(from: Ipv4Addr, to: Ipv4Addr, entry: &ReadEntry) -> Option<Said>
    ensures { said_by_head from to (head_of (view_read entry.now)) ≡ option_to_list result }
{
    match entry {
        ReadEntry::Good(entry) => said_by_head(from, to, &entry.head),
        ReadEntry::BadRun(head) => said_by_head(from, to, head),
    }
}

/// What the head of an entry says, if it is about an eventgroup.
fn said_by_head(from: Ipv4Addr, to: Ipv4Addr, head: &EntryHead) -> Option<Said>
    ensures { said_by_head from to head.now ≡ option_to_list result }
{
    match head {
        EntryHead::Service(_) => None,
        EntryHead::Eventgroup(entry) => Some(Said {
            naming: naming_by_entry(from, to, entry),
            subscribes: entry.is_subscribe(),
        }),
    }
}

/// What an entry about an eventgroup names: a Subscribe its subscription, an Ack that of the other way
/// round.
fn naming_by_entry(from: Ipv4Addr, to: Ipv4Addr, entry: &EventgroupEntry) -> Naming
    ensures { result ≡ named_by_kind entry.now.kind from to entry.now }
{
    match entry.kind {
        EventgroupKind::Subscribe => Naming {
            key: subscription_key(from, to, entry),
            side: Side::Opener,
        },
        EventgroupKind::Ack => Naming {
            key: subscription_key(to, from, entry),
            side: Side::Answerer,
        },
    }
}

/// The key of a subscription.
fn subscription_key(client: Ipv4Addr, server: Ipv4Addr, entry: &EventgroupEntry) -> ExchangeKey
    ensures { result ≡ of_subscription client server (eventgroup_in entry.now) entry.now.counter }
{
    ExchangeKey::Subscription(SubscriptionExchange {
        client,
        server,
        eventgroup: Eventgroup {
            instance: InstanceId {
                service: entry.service,
                instance: entry.instance,
            },
            id: entry.eventgroup,
        },
        counter: entry.counter.number(),
    })
}
