//! Runs over both bodies of reassembly. What runs tell is tested with the command `run`.
use sd_core::Phases;
use someip_node::Common;
use someip_tp::{IntervalPool, Reassembly, SegmentList};
use someip_world::{Line, Reuse, Setup, Trace, read_schedule, run};
use someipctl_run::told_text;
use std::alloc::Global;
use std::net::Ipv4Addr;

/// A node that offers a service with a method, a method without answers, and an event in an eventgroup, and one that
/// wants it, and may subscribe to the eventgroup.
const TWO: &str = r#"group = "239.0.0.1"
[[node]]
name = "a"
address = "192.168.0.1"
client_id = 0x0101
client_port = 40000
[[node.offer]]
service = 0x1111
instance = 1
major = 1
ttl = 3
port = 30509
methods = [0x0421]
oneways = [0x0422]
events = [{ id = 0x8001, groups = [1] }]
[[node]]
name = "b"
address = "192.168.0.2"
client_id = 0x0102
client_port = 40001
[[node.want]]
service = 0x1111
instance = 1
major = 1
ttl = 3
groups = [{ id = 1, events = [0x8001] }]
"#;

/// What its nodes share: the defaults.
fn shared() -> Common {
    Common {
        group: Ipv4Addr::new(239, 0, 0, 1),
        initial_min_ms: 10,
        initial_max_ms: 100,
        phases: Phases {
            base: 30,
            repetitions: 3,
            cyclic: 1000,
        },
        message_limit: 65536,
        slots: 16,
        peers: 64,
        reassembly_timeout_ms: 1000,
        call_timeout_ms: 2000,
    }
}

/// A call, an answer, a subscription and an event.
const WHOLE_RUN: &str = "tick a 10
deliver 1 b
call b 1111.0001 0421 0102
deliver 2 a
answer a 1 00 03
deliver 3 b
subscribe b 1111.0001 0001
deliver 4 a
deliver 5 b
publish a 1111.0001 8001 2a
deliver 6 b
";

/// Two answers in two segments each, of which the first of the one and the last of the other come.
const MIXED: &str = "tick a 10
deliver 1 b
call b 1111.0001 0421 01
deliver 2 a
deliver 2 a
answer a 1 00 aa*1500
answer a 2 00 bb*1500
deliver 3 b
deliver 6 b
";

/// The same, once the first segment's time is over.
const MIXED_TOO_LATE: &str = "tick a 10
deliver 1 b
call b 1111.0001 0421 01
deliver 2 a
deliver 2 a
answer a 1 00 aa*1500
answer a 2 00 bb*1500
deliver 3 b
tick b 1000
deliver 6 b
";

/// A schedule, its verdict and how many lines it has, over both bodies.
const RUNS: &[(&str, Reuse, usize)] = &[
    (WHOLE_RUN, Reuse::Clean, 13),
    (MIXED, Reuse::Broken(9), 11),
    (MIXED_TOO_LATE, Reuse::Clean, 10),
];

/// What a schedule over the two nodes comes to.
fn trace_of<R: Reassembly>(alloc: Global, schedule: &str) -> Option<Trace> {
    let setup = Setup::read(alloc, TWO).ok()?;
    ran::<R>(alloc, &setup, schedule)
}

/// The same over this setup, if its nodes share the defaults.
fn ran<R: Reassembly>(alloc: Global, setup: &Setup, schedule: &str) -> Option<Trace> {
    let steps = read_schedule(alloc, schedule.as_bytes()).ok()?;
    if *setup.common() == shared() {
        run::<R>(alloc, setup, &steps).ok()
    } else {
        None
    }
}

/// Whether two lines of traces are of the same step and node, and are told by the same text.
fn is_same(alloc: Global, line: &Line, other: &Line) -> Option<bool> {
    let text = told_text(alloc, 0, &line.told).ok()?;
    let told = told_text(alloc, 0, &other.told).ok()?;
    Some(line.step == other.step && line.node == other.node && text.as_slice() == told.as_slice())
}

fn are_same(alloc: Global, lines: &[Line], others: &[Line]) -> bool {
    for (line, other) in lines.iter().zip(others.iter()) {
        if is_same(alloc, line, other) != Some(true) {
            return false;
        }
    }
    lines.len() == others.len()
}

/// Whether a schedule comes to this verdict and to so many lines over both bodies, and to the same lines.
fn is_right(alloc: Global, schedule: &str, verdict: Reuse, lines: usize) -> Option<bool> {
    let pool = trace_of::<IntervalPool>(alloc, schedule)?;
    let list = trace_of::<SegmentList>(alloc, schedule)?;
    let are_wanted = pool.verdict == verdict
        && list.verdict == verdict
        && pool.lines.len() == lines;
    Some(are_wanted && are_same(alloc, &list.lines, &pool.lines))
}

#[test]
fn runs_are_alike(rt: HostRuntime) {
    for (schedule, verdict, lines) in RUNS {
        assert!(rt;
            is_right(rt.alloc(), schedule, *verdict, *lines) == Some(true),
            "{schedule}"
        );
    }
}
