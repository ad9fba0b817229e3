//! Configurations, delays and moments that a node takes, and those that it refuses.
use super::acts::Act::{Restart, Tick};
use super::acts::Row;
use super::nodes::{OFFERS, OFFERS_TWO, WANTS, config_of};
use sd_core::InstanceId;
use someip_node::{Common, Config, Node, NodeError};
use someip_tp::IntervalPool;
use std::alloc::Global;
use std::net::SocketAddrV4;

/// What is other than usual in a start of a node.
#[derive(Clone, Copy)]
enum Start {
    /// The delay; the configuration's are from 10 to 100.
    Delay(u32),
    /// The port of the instance, of a node whose client has 40000.
    Port(u16),
    /// The port of a second instance, beside one with 30509.
    SecondPort(u16),
    /// The port of the client.
    ClientPort(u16),
    /// A method that is declared for REQUEST_NO_RETURN too.
    Oneway(u16),
    /// The address, which is the multicast group's.
    AddressOfGroup,
    /// The greatest delay; the least is 10.
    InitialMax(u32),
    MessageLimit(usize),
    Slots(usize),
    Peers(usize),
    ReassemblyTimeout(u32),
    CallTimeout(u32),
}

/// Why a start is refused, if it is.
type Refusal = Option<NodeError>;

/// A configuration is refused.
const BAD: Refusal = Some(NodeError::BadConfig);

/// Delays.
const DELAYS: &[(Start, Refusal)] = &[
    (Start::Delay(9), Some(NodeError::BadDelay)),
    (Start::Delay(10), None),
    (Start::Delay(100), None),
    (Start::Delay(101), Some(NodeError::BadDelay)),
];

/// Ports, none of which is 0, that of Service Discovery, or another's of the node.
const PORTS: &[(Start, Refusal)] = &[
    (Start::Port(0), BAD),
    (Start::Port(1), None),
    (Start::Port(30490), BAD),
    (Start::Port(40000), BAD),
    (Start::Port(65535), None),
    (Start::SecondPort(30509), BAD),
    (Start::SecondPort(30510), None),
    (Start::ClientPort(0), BAD),
    (Start::ClientPort(1), None),
    (Start::ClientPort(30490), BAD),
    (Start::ClientPort(65535), None),
];

/// Values at both ends of their ranges, and past them.
const VALUES: &[(Start, Refusal)] = &[
    (Start::AddressOfGroup, BAD),
    (Start::Oneway(0x0421), BAD),
    (Start::Oneway(0x0423), None),
    (Start::InitialMax(9), BAD),
    (Start::InitialMax(10), None),
    (Start::InitialMax(60000), None),
    (Start::InitialMax(60001), BAD),
    (Start::MessageLimit(1399), BAD),
    (Start::MessageLimit(1400), None),
    (Start::MessageLimit(1_048_576), None),
    (Start::MessageLimit(1_048_577), BAD),
    (Start::Slots(0), BAD),
    (Start::Slots(1), None),
    (Start::Slots(1024), None),
    (Start::Slots(1025), BAD),
    (Start::Peers(0), BAD),
    (Start::Peers(1), None),
    (Start::Peers(1024), None),
    (Start::Peers(1025), BAD),
    (Start::ReassemblyTimeout(0), BAD),
    (Start::ReassemblyTimeout(1), None),
    (Start::ReassemblyTimeout(3_600_000), None),
    (Start::ReassemblyTimeout(3_600_001), BAD),
    (Start::CallTimeout(0), BAD),
    (Start::CallTimeout(1), None),
    (Start::CallTimeout(3_600_000), None),
    (Start::CallTimeout(3_600_001), BAD),
];

/// Delays of a restart, and the first Offer after it.
pub(crate) const RESTARTS: &[Row] = &[
    (Restart(9), "refused BadDelay\n"),
    (Restart(100), ""),
    (Tick(99), ""),
    (
        Tick(1),
        "sent 192.168.0.1:30490 239.0.0.1:30490 ffff8100000000300000000101010200c000000000000010010000101111000101000003000000000000000c00090400c0a800010011772d\n",
    ),
];

/// The last moment of the clock, and no later one.
pub(crate) const CLOCK: &[Row] = &[
    (
        Tick(9_223_372_036_854_775_807),
        "sent 192.168.0.1:30490 239.0.0.1:30490 ffff8100000000300000000101010200c000000000000010010000101111000101000003000000000000000c00090400c0a800010011772d\n",
    ),
    (Tick(0), ""),
    (Tick(1), "refused ClockPast\n"),
    (Tick(18_446_744_073_709_551_615), "refused ClockPast\n"),
];

/// Why a start is refused, if it is; none where its configuration cannot be made.
fn refusal_of(alloc: Global, start: Start) -> Option<Refusal> {
    let config = changed_config(alloc, start)?;
    Some(refusal(alloc, config, delay_of(start)))
}

/// Why a node is not started.
fn refusal(alloc: Global, config: Config, delay: u32) -> Refusal {
    match Node::<IntervalPool>::start(alloc, config, delay) {
        Ok(_) => None,
        Err(refusal) => Some(refusal),
    }
}

fn delay_of(start: Start) -> u32 {
    match start {
        Start::Delay(delay) => delay,
        _ => 10,
    }
}

/// The configuration of a start.
fn changed_config(alloc: Global, start: Start) -> Option<Config> {
    let mut config = config_of(alloc, setup_of(start))?;
    change(&mut config, start);
    Some(config)
}

/// The setup of a start.
fn setup_of(start: Start) -> &'static str {
    match start {
        Start::Delay(_) | Start::Port(_) | Start::Oneway(_) => OFFERS,
        Start::SecondPort(_) => OFFERS_TWO,
        _ => WANTS,
    }
}

/// Changes what is other than usual.
fn change(config: &mut Config, start: Start) {
    match start {
        Start::Delay(_) => {}
        Start::Port(port) => change_port(config, 1, port),
        Start::SecondPort(port) => change_port(config, 2, port),
        Start::ClientPort(port) => config.client_port = port,
        Start::Oneway(method) => declare(config, method),
        Start::AddressOfGroup => config.address = config.common.group,
        shared => config.common = changed_common(config.common, shared),
    }
}

/// Changes the port of this instance.
fn change_port(config: &mut Config, instance: u16, port: u16) {
    let place = InstanceId {
        service: 0x1111,
        instance,
    };
    if let Some(offer) = config.offers.get_mut(&place) {
        offer.rules.endpoint = SocketAddrV4::new(*offer.rules.endpoint.ip(), port);
    }
}

/// Declares a method of the first instance for REQUEST_NO_RETURN.
fn declare(config: &mut Config, method: u16) {
    let place = InstanceId {
        service: 0x1111,
        instance: 1,
    };
    if let Some(offer) = config.offers.get_mut(&place) {
        let _ = offer.rules.oneways.insert(method);
    }
}

/// The values that all nodes share, with another one.
fn changed_common(common: Common, value: Start) -> Common {
    let mut changed = common;
    match value {
        Start::InitialMax(ms) => changed.initial_max_ms = ms,
        Start::MessageLimit(limit) => changed.message_limit = limit,
        Start::Slots(slots) => changed.slots = slots,
        Start::Peers(peers) => changed.peers = peers,
        Start::ReassemblyTimeout(ms) => changed.reassembly_timeout_ms = ms,
        Start::CallTimeout(ms) => changed.call_timeout_ms = ms,
        _ => (),
    }
    changed
}

#[test]
fn starts_that_are_judged(rt: HostRuntime) {
    for rows in [DELAYS, PORTS, VALUES] {
        for (index, (start, refusal)) in rows.iter().enumerate() {
            assert!(rt; refusal_of(rt.alloc(), *start) == Some(*refusal), "{index}");
        }
    }
}
