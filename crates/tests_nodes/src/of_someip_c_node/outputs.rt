//! Steps by lines, outputs that are taken one after the other, and endpoints.
use super::is_text;
use sd_core::InstanceId;
use someip_c_node::{CNode, Endpoint, Outcome, OutputRecord, started};
use someip_rpc::Reply;
use someip_wire::ReturnCode;
use std::alloc::Global;

/// A server, `a`, and a liar, `b`.
pub(crate) const SERVER: &[u8] = b"group = \"239.0.0.1\"
message_limit = 1400
[[node]]
name = \"a\"
address = \"192.168.0.1\"
client_id = 1
client_port = 40000
[[node.offer]]
service = 0x1111
instance = 1
major = 1
ttl = 3
port = 30509
methods = [0x0421]
events = [{ id = 0x8001, groups = [1] }]
[[node]]
name = \"b\"
address = \"192.168.0.9\"
client_id = 2
client_port = 40000
liar = true
";

/// A line, and what it comes to at the server before its first Offer.
const LINES: &[(&[u8], Outcome)] = &[
    (b"call 1111.0001 0421 0102", Outcome::NotOffered),
    (b"oneway 1111.0001 0421 -", Outcome::NotOffered),
    (b"call 1111.0001 0421 00*1401", Outcome::PayloadTooLong),
    (b"answer 1 00 03", Outcome::UnknownToken),
    (b"error 1 01 -", Outcome::UnknownToken),
    (b"publish 1111.0001 8001 2a", Outcome::Done),
    (b"publish 1111.0001 8002 2a", Outcome::UnknownEvent),
    (
        b"publish_to 1111.0001 0001 10.0.0.2:1 8001 2a",
        Outcome::NotSubscribed,
    ),
    (b"subscribe 1111.0001 0001", Outcome::NotWanted),
    (b"unsubscribe 1111.0001 0001", Outcome::NotWanted),
    (b"stop_offer 1111.0001", Outcome::Done),
    (b"restart 10", Outcome::Done),
    (b"restart 9", Outcome::BadDelay),
    (b"restart 18446744073709551615", Outcome::BadDelay),
    (b"restart a 10", Outcome::BadStep),
    (b"restart  10", Outcome::BadStep),
    (b"restart", Outcome::BadStep),
    (b"tick 10", Outcome::BadStep),
    (b"deliver 1", Outcome::BadStep),
    (b"inject 1 192.168.0.1:1 -", Outcome::BadStep),
    (b"", Outcome::BadStep),
    (b"# restart 10", Outcome::BadStep),
    (b"restart 10\xff", Outcome::BadStep),
];

/// What a line comes to at the server.
fn outcome(alloc: Global, line: &[u8]) -> Outcome {
    match started(alloc, SERVER, b"a", 10) {
        Ok(mut node) => node.act(alloc, line),
        Err(outcome) => outcome,
    }
}

/// How the server's first Offer is told, which a tick of 10 milliseconds gives.
fn offer_told(alloc: Global) -> Result<String, Outcome> {
    let mut node = started(alloc, SERVER, b"a", 10)?;
    match node.tick(10) {
        Outcome::Done => node.next_text(alloc, 7),
        refused => Err(refused),
    }
}

/// The words of a trace, with the number of the datagram.
const OFFER: &str =
    "sent 7 192.168.0.1:30490 239.0.0.1:30490 ffff8100000000300000000101010200c000000000000010010000101111000101000003000000000000000c00090400c0a800010011772d";

#[test]
fn lines_are_done_and_told(rt: HostRuntime) {
    for (line, wanted) in LINES {
        assert!(rt; outcome(rt.alloc(), line) == *wanted);
    }
    assert!(rt; is_text(offer_told(rt.alloc()), Ok(OFFER)));
}

const INSTANCE: InstanceId = InstanceId {
    service: 0x1111,
    instance: 1,
};

/// A record of nothing, which an output is told in.
const NOTHING: OutputRecord = OutputRecord {
    kind: 0,
    reason: 0,
    detail: 0,
    has_token: 0,
    token: 0,
    payload_length: 0,
    from: Endpoint::NONE,
    to: Endpoint::NONE,
    service: 0,
    instance: 0,
    member: 0,
    eventgroup: 0,
    session: 0,
    code: 0,
    counter: 0,
};

/// What taking an output comes to where the buffer has so many bytes.
fn take_into(node: &mut CNode, buffer: &mut [u8]) -> Outcome {
    let mut record = NOTHING;
    node.take(&mut record, buffer)
}

/// What a server answers to a call before its outputs are taken, to a buffer that is too small, and last.
fn refusals_of(server: &mut CNode) -> [Outcome; 6] {
    let mut buffer = [0; 1500];
    [
        server.tick(9),
        server.tick(1),
        server.stop_offer(INSTANCE),
        take_into(server, &mut [0; 3]),
        take_into(server, &mut buffer),
        take_into(server, &mut buffer),
    ]
}

/// The same of a server at its start.
fn refusals(alloc: Global) -> Result<[Outcome; 6], Outcome> {
    let mut server = started(alloc, SERVER, b"a", 10)?;
    Ok(refusals_of(&mut server))
}

/// The port of a client, and that of the server's instance.
const CLIENT: Endpoint = Endpoint {
    address: [192, 168, 0, 2],
    port: 40001,
};

const OFFERED: Endpoint = Endpoint {
    address: [192, 168, 0, 1],
    port: 30509,
};

/// A request of the method 0421.
const REQUEST: &[u8] = &[0x11, 0x11, 0x04, 0x21, 0, 0, 0, 8, 0, 2, 0, 1, 1, 1, 0, 0];

/// What a server answers to a request that comes, when it is taken, and when it is answered.
fn served_by(server: &mut CNode) -> [Outcome; 3] {
    let mut buffer = [0; 16];
    [
        server.on_datagram(CLIENT.socket(), OFFERED.socket(), REQUEST),
        take_into(server, &mut buffer),
        server.answer(1, Reply::Response(ReturnCode::E_OK), &[3]),
    ]
}

/// The same of a server at its start.
fn served(alloc: Global) -> Result<[Outcome; 3], Outcome> {
    let mut server = started(alloc, SERVER, b"a", 10)?;
    Ok(served_by(&mut server))
}

/// The endpoints of the server: the last byte of the address, the port, what is there, and the service.
const ENDPOINTS: &[(u8, u16, u32, u16)] = &[
    (1, 30490, 1, 0),
    (1, 40000, 2, 0),
    (1, 30509, 3, 0x1111),
    (1, 30490, 4, 0),
];

/// Whether the server has an endpoint at a place, the group's at another address than its own.
fn has_endpoint(node: &CNode, place: usize, wanted: &(u8, u16, u32, u16)) -> bool {
    let (last, port, wanted_kind, wanted_service) = wanted;
    let mut endpoint = Endpoint::NONE;
    let (mut kind, mut service, mut instance) = (0, 0, 0);
    let outcome = node.tell_endpoint(place, &mut endpoint, &mut kind, &mut service, &mut instance);
    let [_, _, _, byte] = endpoint.address;
    outcome == Outcome::Done
        && byte == *last
        && endpoint.port == *port
        && kind == *wanted_kind
        && service == *wanted_service
}

/// Whether the server has these endpoints.
fn has_endpoints(alloc: Global) -> bool {
    match started(alloc, SERVER, b"a", 10) {
        Ok(node) => ENDPOINTS
            .iter()
            .enumerate()
            .all(|(place, wanted)| has_endpoint(&node, place, wanted)),
        Err(_) => false,
    }
}

#[test]
fn outputs_and_endpoints_are_told(rt: HostRuntime) {
    let wanted = [
        Outcome::Done,
        Outcome::Done,
        Outcome::OutputsWait,
        Outcome::BufferTooSmall,
        Outcome::Done,
        Outcome::NothingLeft,
    ];
    assert!(rt; refusals(rt.alloc()) == Ok(wanted));
    assert!(rt; served(rt.alloc()) == Ok([Outcome::Done; 3]));
    assert!(rt; has_endpoints(rt.alloc()));
}
