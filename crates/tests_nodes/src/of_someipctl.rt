//! Calls of the crates below the program that no command line makes.
use someipctl_io::Outcome;
use someipctl_run::{read_setup, run_schedule};
use someipctl_show::show::show;
use someipctl_show::types::MessageTypes;
use std::alloc::Global;

/// An event, two requests of two services in one datagram, and an empty datagram.
const MIXED: &[u8] = b"\
12348001 00000009 00000001 01010200 07
55550001 00000008 00010001 01010000 12340421 00000008 00010002 010100ff
-
";

/// Whether nothing of a capture is shown where a list without services is asked for.
fn shows_nothing(alloc: Global) -> bool {
    let mut capture = MIXED;
    let mut written = Vec::new(alloc);
    let types = MessageTypes::none(alloc);
    let shown = show(alloc, &mut capture, Some(&[]), &types, &mut written);
    matches!(shown, Ok(Outcome::Done)) && written.is_empty()
}

/// A node that offers an instance.
const SETUP: &[u8] = br#"
group = "239.0.0.1"
[[node]]
name = "a"
address = "192.168.0.1"
client_id = 0x0101
client_port = 40000
[[node.offer]]
service = 0x1111
instance = 1
major = 1
ttl = 3
port = 30509
methods = [0x0421]
"#;

/// Its Offer, which it sends after ten milliseconds.
const TRACE: &[u8] = b"1 a sent 1 192.168.0.1:30490 239.0.0.1:30490 \
    ffff8100000000300000000101010200c000000000000010010000101111000101000003000000000000000c00090400c0a800010011772d\n\
    reuse clean\n";

/// Whether the plain trace of a schedule is written.
fn writes_trace(alloc: Global) -> Option<bool> {
    let mut setup = SETUP;
    let network = read_setup(alloc, &mut setup).ok()?;
    let mut schedule: &[u8] = b"tick a 10\n";
    let mut written = Vec::new(alloc);
    run_schedule(alloc, &network, &mut schedule, &mut written).ok()?;
    Some(written.as_slice() == TRACE)
}

#[test]
fn calls_beside_the_program(rt: HostRuntime) {
    let alloc = rt.alloc();
    assert!(rt; shows_nothing(alloc));
    assert!(rt; writes_trace(alloc) == Some(true));
}
