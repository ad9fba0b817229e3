//! Which texts, names and delays start a node, what is said of a text that is no setup, and the setup of a log.
use super::is_text;
use super::outputs::SERVER;
use someip_c_node::{Endpoint, Outcome, delays_in, fault_of_setup, log_setup, started};
use std::alloc::Global;

/// A setup of one node, `a`, whose initial delay is from 10 to 100 milliseconds.
const ONE: &[u8] =
    b"group = \"239.0.0.1\"\n[[node]]\nname = \"a\"\naddress = \"192.168.0.1\"\nclient_id = 1\nclient_port = 40000\n";

/// The same with a base delay of no milliseconds.
const BASE_0: &[u8] =
    b"group = \"239.0.0.1\"\nbase = 0\n[[node]]\nname = \"a\"\naddress = \"192.168.0.1\"\nclient_id = 1\nclient_port = 40000\n";

/// The same with a key that is none of the format.
const COLOUR: &[u8] =
    b"group = \"239.0.0.1\"\n[[node]]\nname = \"a\"\naddress = \"192.168.0.1\"\nclient_id = 1\nclient_port = 40000\ncolour = 1\n";

/// The same with the client at the port of Service Discovery.
const PORT_TWICE: &[u8] =
    b"group = \"239.0.0.1\"\n[[node]]\nname = \"a\"\naddress = \"192.168.0.1\"\nclient_id = 1\nclient_port = 30490\n";

/// A text, a name and a delay, and why no node is started; `Done` where one is.
const STARTS: &[(&[u8], &[u8], u32, Outcome)] = &[
    (ONE, b"a", 10, Outcome::Done),
    (ONE, b"b", 10, Outcome::NoSuchNode),
    (ONE, b"a", 9, Outcome::BadDelay),
    (b"\xff", b"a", 10, Outcome::NotText),
    (b"group", b"a", 10, Outcome::NotToml),
    (b"", b"a", 10, Outcome::Missing),
    (b"group = 1", b"a", 10, Outcome::WrongKind),
    (BASE_0, b"a", 10, Outcome::OutOfRange),
    (COLOUR, b"a", 10, Outcome::UnknownKey),
    (PORT_TWICE, b"a", 10, Outcome::Clash),
];

/// What a start comes to.
fn outcome(alloc: Global, text: &[u8], name: &[u8], delay: u32) -> Outcome {
    match started(alloc, text, name, delay) {
        Ok(_) => Outcome::Done,
        Err(outcome) => outcome,
    }
}

/// The setup of a log of a server `p1` with two peers.
const LOGGED: &str = "group = \"239.0.0.1\"
message_limit = 1400

[[node]]
address = \"192.168.0.1\"
client_id = 1
client_port = 40000
delay = 20
name = \"p1\"

[[node.offer]]
instance = 1
major = 1
port = 30509
service = 4369
ttl = 3

[[node]]
address = \"10.0.0.2\"
client_id = 0
client_port = 1
liar = true
name = \"p2\"

[[node]]
address = \"10.0.0.3\"
client_id = 0
client_port = 1
liar = true
name = \"p3\"
";

/// The setup from which it is made.
const SETUP: &[u8] = b"group = \"239.0.0.1\"
message_limit = 1400
[[node]]
name = \"q\"
address = \"192.168.0.2\"
client_id = 2
client_port = 40000
[[node]]
name = \"p1\"
address = \"192.168.0.1\"
client_id = 1
client_port = 40000
offer = [{ service = 0x1111, instance = 1, major = 1, ttl = 3, port = 30509 }]
";

/// Two peers.
const TWO: Endpoint = Endpoint {
    address: [10, 0, 0, 2],
    port: 1,
};

const THREE: Endpoint = Endpoint {
    address: [10, 0, 0, 3],
    port: 1,
};

/// A name, a delay and peers, and why there is no setup of a log of SERVER.
const REFUSALS: &[(&[u8], u32, &[Endpoint], Outcome)] = &[
    (b"b", 10, &[], Outcome::NoSuchNode),
    (b"a", 9, &[], Outcome::BadDelay),
    (b"a", 10, &[TWO, TWO], Outcome::Clash),
    (b"a", 10, &[TWO; 64], Outcome::OutOfRange),
];

/// A text, and the words by which it is refused as a setup.
const FAULTS: &[(&[u8], &str)] = &[
    (SERVER, ""),
    (b"\xff", "NotToml -"),
    (b"group", "NotToml -"),
    (b"", "Missing group"),
    (b"group = 1", "WrongKind group"),
];

/// Whether the delays of a setup are from 10 to 100 milliseconds.
fn are_defaults(alloc: Global, text: &[u8]) -> bool {
    match delays_in(alloc, text) {
        Ok(delays) => delays.least_ms == 10 && delays.greatest_ms == 100,
        Err(_) => false,
    }
}

#[test]
fn texts_and_names_are_judged(rt: HostRuntime) {
    for (text, name, delay, wanted) in STARTS {
        assert!(rt; outcome(rt.alloc(), text, name, *delay) == *wanted);
    }
    for (text, wanted) in FAULTS {
        assert!(rt; is_text(fault_of_setup(rt.alloc(), text), Ok(*wanted)));
    }
    assert!(rt; are_defaults(rt.alloc(), SERVER));
}

#[test]
fn logs_have_setups(rt: HostRuntime) {
    assert!(rt;
        is_text(
            log_setup(rt.alloc(), SETUP, b"p1", 20, &[TWO, THREE]),
            Ok(LOGGED)
        )
    );
    for (name, delay, peers, wanted) in REFUSALS {
        assert!(rt;
            is_text(
                log_setup(rt.alloc(), SERVER, name, *delay, peers),
                Err(*wanted)
            )
        );
    }
}
