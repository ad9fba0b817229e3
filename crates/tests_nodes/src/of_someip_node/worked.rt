//! Each call of a node: the worked run of two nodes, with a call, a subscription and an event, and what comes after it.
use super::acts::Act::{
    Answer, Call, Datagram, Publish, PublishTo, Restart, StopOffer, Subscribe, Tick, Unsubscribe,
};
use super::acts::{Port, Row};
use super::nodes::{CLIENT, EVENTGROUP, INSTANCE, SD_OF_ALL, SD_OF_CLIENT, SD_OF_SERVER, SERVER};
use sd_core::Eventgroup;
use someip_rpc::{CallKind, Reply};
use someip_wire::ReturnCode;

/// The Offer of the server.
const OFFER: &str =
    "ffff8100000000300000000101010200c000000000000010010000101111000101000003000000000000000c00090400c0a800010011772d";

/// The Subscribe of the client.
const SUBSCRIBE: &str =
    "ffff8100000000300000000101010200c000000000000010060000101111000101000003000000010000000c00090400c0a8000200119c41";

/// Its Ack.
const ACK: &str =
    "ffff8100000000240000000101010200c0000000000000100700000011110001010000030000000100000000";

/// An eventgroup that the client does not want.
const UNWANTED: Eventgroup = Eventgroup {
    instance: INSTANCE,
    id: 2,
};

/// The run at the node that offers; an event is published once more, before the Subscribe comes. Then one goes to the
/// client alone, its request is answered no more, and the offer is stopped.
pub(crate) const AT_SERVER: &[Row] = &[
    (
        Tick(10),
        "sent 192.168.0.1:30490 239.0.0.1:30490 ffff8100000000300000000101010200c000000000000010010000101111000101000003000000000000000c00090400c0a800010011772d\n",
    ),
    (
        Datagram(CLIENT, SERVER, "111104210000000a01020001010100000102"),
        "request 1 1111.0001 0421 0102\n",
    ),
    (
        Answer(1, Reply::Response(ReturnCode(0)), "03"),
        "sent 192.168.0.1:30509 192.168.0.2:40001 1111042100000009010200010101800003\n",
    ),
    (Publish(INSTANCE, 0x8001, "2a"), ""),
    (
        Datagram(SD_OF_CLIENT, SD_OF_SERVER, SUBSCRIBE),
        "accepted 1111.0001 0001 192.168.0.2:40001 0\nsent 192.168.0.1:30490 192.168.0.2:30490 ffff8100000000240000000101010200c0000000000000100700000011110001010000030000000100000000\n",
    ),
    (
        Publish(INSTANCE, 0x8001, "2a"),
        "sent 192.168.0.1:30509 192.168.0.2:40001 111180010000000900000002010102002a\n",
    ),
    (
        PublishTo(EVENTGROUP, CLIENT, 0x8001, "02"),
        "sent 192.168.0.1:30509 192.168.0.2:40001 1111800100000009000000030101020002\n",
    ),
    (
        Answer(1, Reply::Response(ReturnCode(0)), ""),
        "refused UnknownToken\n",
    ),
    (
        StopOffer(INSTANCE),
        "sent 192.168.0.1:30490 239.0.0.1:30490 ffff8100000000300000000201010200c000000000000010010000101111000101000000000000000000000c00090400c0a800010011772d\n",
    ),
    (Publish(INSTANCE, 0x8001, ""), "refused NotOffered\n"),
    (Restart(10), ""),
];

/// The run at the node that wants, and the end of its subscription.
pub(crate) const AT_CLIENT: &[Row] = &[
    (
        Datagram(SD_OF_SERVER, SD_OF_ALL, OFFER),
        "known 1111.0001 192.168.0.1:30509\n",
    ),
    (
        Call(CallKind::Request, INSTANCE, 0x0421, "0102"),
        "call 1111.0421 0001\nsent 192.168.0.2:40001 192.168.0.1:30509 111104210000000a01020001010100000102\n",
    ),
    (
        Datagram(SERVER, CLIENT, "1111042100000009010200010101800003"),
        "answer 1111.0421 0001 00 03\n",
    ),
    (Subscribe(UNWANTED), "refused NotWanted\n"),
    (
        Subscribe(EVENTGROUP),
        "sent 192.168.0.2:30490 192.168.0.1:30490 ffff8100000000300000000101010200c000000000000010060000101111000101000003000000010000000c00090400c0a8000200119c41\n",
    ),
    (
        Datagram(SD_OF_SERVER, SD_OF_CLIENT, ACK),
        "subscribed 1111.0001 0001 0\n",
    ),
    (
        Datagram(SERVER, CLIENT, "111180010000000900000001010102002a"),
        "event 1111.0001 8001 2a\n",
    ),
    (
        Datagram(Port(9, 30509), CLIENT, "111180010000000900000001010102002a"),
        "dropped NotSubscribed\n",
    ),
    (
        Datagram(Port(1, 30510), CLIENT, "111180010000000900000001010102002a"),
        "dropped NotSubscribed\n",
    ),
    (
        Datagram(SERVER, CLIENT, "111180010000000900000001010202002a"),
        "dropped NotSubscribed\n",
    ),
    (
        Unsubscribe(EVENTGROUP),
        "sent 192.168.0.2:30490 192.168.0.1:30490 ffff8100000000300000000201010200c000000000000010060000101111000101000000000000010000000c00090400c0a8000200119c41\nunsubscribed 1111.0001 0001\n",
    ),
    (Unsubscribe(EVENTGROUP), ""),
    (
        Datagram(SERVER, CLIENT, "111180010000000900000001010102002a"),
        "dropped NotSubscribed\n",
    ),
];

/// Datagrams that the node sent, or that were sent to no port of it.
pub(crate) const ASTRAY: &[Row] = &[
    (Datagram(SD_OF_SERVER, SD_OF_SERVER, ""), "dropped Own\n"),
    (Datagram(CLIENT, Port(1, 30510), ""), "dropped NoPort\n"),
    (Datagram(CLIENT, Port(3, 30509), ""), "dropped NoPort\n"),
    (Datagram(CLIENT, Port(0, 40001), ""), "dropped NoPort\n"),
];
