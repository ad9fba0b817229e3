//! Two nodes in one process, whose datagrams are carried by hand. docs/EMBEDDING.md shows this text.
use super::acts::is_told;
use super::nodes::{INSTANCE, OFFERS, started};
use sd_core::Phases;
use sd_wire::Ttl;
use someip_node::{Common, Config, Node, NodeError, Output, WantedService};
use someip_rpc::{CallKind, Reply};
use someip_tp::IntervalPool;
use someip_wire::ReturnCode;
use std::alloc::{AllocError, Global};
use std::collections::BTreeMap;
use std::net::Ipv4Addr;

/// What the nodes of the network share.
fn common() -> Common {
    Common {
        group: Ipv4Addr::new(239, 0, 0, 1),
        initial_min_ms: 10,
        initial_max_ms: 100,
        phases: Phases {
            base: 100,
            repetitions: 3,
            cyclic: 1000,
        },
        message_limit: 65536,
        slots: 16,
        peers: 64,
        reassembly_timeout_ms: 5000,
        call_timeout_ms: 2000,
    }
}

/// A node at 192.168.0.2 that wants the instance, in major version 1, and none of its eventgroups.
fn config(alloc: Global) -> Result<Config, AllocError> {
    let mut wants = BTreeMap::new(alloc);
    let wanted = WantedService {
        major: 1,
        ttl: Ttl::UNTIL_REBOOT,
        groups: BTreeMap::new(alloc),
    };
    wants.insert(INSTANCE, wanted)?;
    Ok(Config {
        common: common(),
        address: Ipv4Addr::new(192, 168, 0, 2),
        client_id: 0x0102,
        client_port: 40001,
        offers: BTreeMap::new(alloc),
        wants,
    })
}

/// That node, 10 ms before its first Find.
fn client(alloc: Global) -> Result<Node<IntervalPool>, NodeError> {
    let config = config(alloc)?;
    Node::<IntervalPool>::start(alloc, config, 10)
}

/// Carries the datagrams among some outputs to a node, and answers what that gives.
fn carry(
    alloc: Global,
    outputs: &[Output],
    node: &mut Node<IntervalPool>,
) -> Result<Vec<Output>, NodeError> {
    let mut given = Vec::new(alloc);
    for output in outputs {
        if let Output::Sent { from, to, bytes } = output {
            let mut next = node.on_datagram(*from, *to, bytes.as_slice())?;
            given.append(&mut next)?;
        }
    }
    Ok(given)
}

/// The token of the first request among some outputs.
fn first_token(outputs: &[Output]) -> Option<u64> {
    outputs.iter().find_map(|output| match output {
        Output::Request { token, .. } => *token,
        _ => None,
    })
}

/// The clock of the server goes on, and its Offer goes to the client.
fn offer(
    alloc: Global,
    server: &mut Node<IntervalPool>,
    client: &mut Node<IntervalPool>,
) -> Result<(), NodeError> {
    let offer = server.tick(10)?;
    carry(alloc, &offer, client)?;
    Ok(())
}

/// The client calls a method, and the request goes to the server, which hands it up.
fn call(
    alloc: Global,
    server: &mut Node<IntervalPool>,
    client: &mut Node<IntervalPool>,
) -> Result<Vec<Output>, NodeError> {
    let call = client.call(CallKind::Request, INSTANCE, 0x0421, &[1, 2])?;
    carry(alloc, &call, server)
}

/// The application answers a request, and the answer goes to the client, which hands it up.
fn answer(
    alloc: Global,
    token: u64,
    server: &mut Node<IntervalPool>,
    client: &mut Node<IntervalPool>,
) -> Result<Vec<Output>, NodeError> {
    let answer = server.answer(token, Reply::Response(ReturnCode::E_OK), &[3])?;
    carry(alloc, &answer, client)
}

/// What is told last: the server offers, the client calls a method, and it is answered.
fn run(
    alloc: Global,
    server: &mut Node<IntervalPool>,
    client: &mut Node<IntervalPool>,
) -> Result<Vec<Output>, NodeError> {
    offer(alloc, server, client)?;
    let requests = call(alloc, server, client)?;
    match first_token(&requests) {
        Some(token) => answer(alloc, token, server, client),
        None => Ok(requests),
    }
}

/// Whether that is told by these lines. Each node has a function that owns it, since a function that has to
/// drop two takes the prover far longer.
fn last_is(alloc: Global, lines: &str) -> bool {
    match started(alloc, OFFERS) {
        Some(mut server) => last_with_is(alloc, &mut server, lines),
        None => false,
    }
}

/// The same with this server.
fn last_with_is(alloc: Global, server: &mut Node<IntervalPool>, lines: &str) -> bool {
    match client(alloc) {
        Ok(mut client) => is_told(alloc, &run(alloc, server, &mut client), lines),
        Err(_) => false,
    }
}

#[test]
fn two_nodes_in_one_process(rt: HostRuntime) {
    assert!(rt; last_is(rt.alloc(), "answer 1111.0421 0001 00 03\n"));
}
