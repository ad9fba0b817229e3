//! Rows of calls and their answers: `request` and `oneway METHOD LENGTH OFFERED`, with a payload of so many bytes;
//! `requests` and `oneways COUNT` of the method 0423, which tell the last session; `response`, `error` and `asked PORT
//! METHOD CLIENT SESSION INTERFACE CODE`, messages that come from a port of the server; `tick`, `pending`, `clear`. A call
//! is told by its method and its session. A call waits for 2 seconds, and the message limit is 1400.
use super::{ANSWER, client_endpoint, payload, server_endpoint, tell_sent};
use crate::acts::{Act, Subject, Told};
use crate::judging::try_tables;
use someip_rpc::{Call, CallKey, CallKind, ClientCore, ClientRules, DropCause, MessageId};
use someip_tables::Moment;
use someip_wire::{Header, MessageType, ReturnCode};
use std::alloc::{AllocError, Global};
use std::collections::BTreeSet;
use std::fmt;
use std::fmt::Write;
use std::net::SocketAddrV4;

/// A call that an ERROR answers, and the same answer again.
const ONE_CALL: &str = "
0 request 0x0423 1 1 -> 192.168.0.2:40001 > 192.168.0.1:30509 11110423000000090102000101010000
0 error 30509 0x0423 0x0102 1 1 3 -> 0423 1
0 error 30509 0x0423 0x0102 1 1 3 -> NotPending";

/// Messages that are the answer but for one part, and then the answer.
const DROPPED: &str = "
0 request 0x0423 0 1 -> 192.168.0.2:40001 > 192.168.0.1:30509 11110423000000080102000101010000
0 response 30510 0x0423 0x0102 1 1 0 -> NotPending
0 response 30509 0x0423 0x0102 1 2 0 -> NotPending
0 response 30509 0x0423 0x0102 2 1 0 -> NotPending
0 response 30509 0x0423 0x0103 1 1 0 -> NotPending
0 response 30509 0x0421 0x0102 1 1 0 -> NotPending
0 error 30509 0x0423 0x0102 1 1 0 -> NotPending
0 asked 30509 0x0423 0x0102 1 1 0 -> WrongType
0 response 30509 0x0423 0x0102 1 1 0 -> 0423 1";

/// A RESPONSE with a code that has no name answers too.
const OTHER_CODE: &str = "
0 request 0x0423 0 1 -> 192.168.0.2:40001 > 192.168.0.1:30509 11110423000000080102000101010000
0 response 30509 0x0423 0x0102 1 1 0x20 -> 0423 1";

/// A call that waits for 2000 milliseconds, and its answer then.
const WAITING: &str = "
0 request 0x0423 0 1 -> 192.168.0.2:40001 > 192.168.0.1:30509 11110423000000080102000101010000
1999 tick
2000 tick -> 0423 1
2000 response 30509 0x0423 0x0102 1 1 0 -> NotPending";

/// Calls until the sessions come round to one that waits, and a new start.
const ROUND: &str = "
0 request 0x0423 0 1 -> 192.168.0.2:40001 > 192.168.0.1:30509 11110423000000080102000101010000
0 oneways 65534 -> 65535
0 request 0x0423 0 1 -> 192.168.0.2:40001 > 192.168.0.1:30509 11110423000000080102000201010000
0 clear
0 request 0x0423 0 1 -> 192.168.0.2:40001 > 192.168.0.1:30509 11110423000000080102000101010000";

/// Calls while 1024 wait, the worst first.
const CROWDED: &str = "
0 requests 1024 -> 1024
0 request 0x0423 1401 0 -> NotOffered
0 request 0x0423 1401 1 -> TooLong
0 pending -> 1024
0 request 0x0423 0 1 -> Busy
0 oneway 0x0423 0 1 -> 192.168.0.2:40001 > 192.168.0.1:30509 11110423000000080102040101010100
2000 request 0x0423 0 1 -> 192.168.0.2:40001 > 192.168.0.1:30509 11110423000000080102040201010000";

/// Calls of methods one after the other, of which each takes memory.
const SEVEN: &str = "
0 request 0x0421 3 1 -> 192.168.0.2:40001 > 192.168.0.1:30509 111104210000000b0102000101010000
0 request 0x0421 1400 1 -> 192.168.0.2:40001 > 192.168.0.1:30509 11110421000005800102000201010000
0 request 0x0422 0 1 -> 192.168.0.2:40001 > 192.168.0.1:30509 11110422000000080102000101010000
0 oneway 0x0423 0 1 -> 192.168.0.2:40001 > 192.168.0.1:30509 11110423000000080102000101010100
0 request 0x0424 0 1 -> 192.168.0.2:40001 > 192.168.0.1:30509 11110424000000080102000101010000
0 request 0x0425 0 1 -> 192.168.0.2:40001 > 192.168.0.1:30509 11110425000000080102000101010000
0 request 0x0426 0 1 -> 192.168.0.2:40001 > 192.168.0.1:30509 11110426000000080102000101010000
0 request 0x0427 0 1 -> 192.168.0.2:40001 > 192.168.0.1:30509 11110427000000080102000101010000
10 response 30509 0x0421 0x0102 2 1 0 -> 0421 2
10 request 0x0428 0 1 -> 192.168.0.2:40001 > 192.168.0.1:30509 11110428000000080102000101010000
2000 tick -> 0421 1, 0422 1, 0424 1, 0425 1, 0426 1, 0427 1
2001 request 0x0421 0 1 -> 192.168.0.2:40001 > 192.168.0.1:30509 11110421000000080102000301010000
2001 pending -> 2";

impl Subject for ClientCore {
    fn make(alloc: Global) -> Result<ClientCore, AllocError> {
        Ok(ClientCore::new(alloc))
    }

    fn perform(&mut self, act: &Act<'_>, told: &mut Told) -> fmt::Result {
        let Some(now) = Moment::new(act.at) else {
            return Err(fmt::Error);
        };
        match act.verb {
            "request" => call(self, CallKind::Request, act, now, told),
            "oneway" => call(self, CallKind::RequestNoReturn, act, now, told),
            "requests" => call_many(self, CallKind::Request, act.word(0), told),
            "oneways" => call_many(self, CallKind::RequestNoReturn, act.word(0), told),
            "response" => hear(self, MessageType::Response, act, now, told),
            "error" => hear(self, MessageType::Error, act, now, told),
            "asked" => hear(self, MessageType::Request, act, now, told),
            "tick" => tell_calls(told, &ClientCore::tick(self, now)),
            "pending" => write!(told, "{}", self.pending_calls()),
            "clear" => {
                self.clear();
                Ok(())
            }
            _ => Err(fmt::Error),
        }
    }
}

const METHOD: u16 = 0x0423;

fn rules() -> ClientRules {
    ClientRules {
        client: 0x0102,
        endpoint: client_endpoint(),
        message_limit: 1400,
        call_timeout_ms: 2000,
    }
}

fn asked(kind: CallKind, method: u16) -> Call {
    Call {
        kind,
        message: MessageId {
            service: 0x1111,
            method,
        },
        interface: 1,
    }
}

fn call(
    core: &mut ClientCore,
    kind: CallKind,
    act: &Act<'_>,
    now: Moment,
    told: &mut Told,
) -> fmt::Result {
    let offer = if act.is(2) {
        Some(server_endpoint())
    } else {
        None
    };
    let asked = asked(kind, act.short(0));
    tell_sent(
        told,
        &core.call(&rules(), asked, payload(act.short(1)), offer, now),
    )
}

/// Calls so often, and tells the last session, or the first refusal.
fn call_many(core: &mut ClientCore, kind: CallKind, count: u32, told: &mut Told) -> fmt::Result {
    let mut session = 0;
    for _ in 0..count {
        match core.call(
            &rules(),
            asked(kind, METHOD),
            &[],
            Some(server_endpoint()),
            Moment::start(),
        ) {
            Ok(sent) => session = sent.message.header.session,
            Err(refusal) => return write!(told, "{refusal:?}"),
        }
    }
    write!(told, "{session}")
}

/// A message comes from a port of the server.
fn hear(
    core: &mut ClientCore,
    kind: MessageType,
    act: &Act<'_>,
    now: Moment,
    told: &mut Told,
) -> fmt::Result {
    let header = Header {
        method: act.short(1),
        client: act.short(2),
        session: act.short(3),
        interface: act.byte(4),
        kind,
        code: ReturnCode(act.byte(5)),
        ..ANSWER
    };
    let from = SocketAddrV4::new(*server_endpoint().ip(), act.short(0));
    tell_call(told, &core.on_answer(&rules(), from, &header, now))
}

fn tell_call(told: &mut Told, answered: &Result<CallKey, DropCause>) -> fmt::Result {
    match answered {
        Ok(call) => write!(told, "{:04x} {}", call.message.method, call.session),
        Err(cause) => write!(told, "{cause:?}"),
    }
}

/// Writes down calls in order, or the refusal.
fn tell_calls(told: &mut Told, ended: &Result<BTreeSet<CallKey>, AllocError>) -> fmt::Result {
    match ended {
        Ok(calls) => {
            for (place, call) in calls.iter().enumerate() {
                let comma = if place == 0 { "" } else { ", " };
                write!(told, "{comma}{:04x} {}", call.message.method, call.session)?;
            }
            Ok(())
        }
        Err(refusal) => write!(told, "{refusal:?}"),
    }
}

#[test]
fn calls_and_their_answers(rt: HostRuntime) {
    let tables = [ONE_CALL, DROPPED, OTHER_CODE, WAITING, ROUND, SEVEN];
    try_tables::<ClientCore>(&rt, &tables);
}

#[test]
fn crowded_clients(rt: HostRuntime) {
    try_tables::<ClientCore>(&rt, &[CROWDED]);
}
