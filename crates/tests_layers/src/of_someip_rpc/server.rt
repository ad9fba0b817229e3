//! Rows of requests, of their answers, and of events. The instance 0001 of the service 1111 has the method 0421, the
//! oneway 0422, the event 8001 in the eventgroup 0001, and 8003 in 0002. `request`, `oneway` and `response SERVICE METHOD
//! SESSION INTERFACE UP` come from the client, while the instance is up or not; `requests COUNT` to the method 0421;
//! `answer` and `error TOKEN CODE LENGTH`; `open` requests; `may`, `publish EVENT LENGTH UP` and `publish-to EVENT
//! LENGTH UP EVENTGROUP LIVE`, to the client alone; `events COUNT` of 8001, `clear`.
use super::{ANSWER, client_endpoint, payload, server_endpoint, tell_header, tell_sent};
use crate::acts::{Act, Subject, Told, tell_refusal};
use crate::judging::try_tables;
use someip_rpc::{Arrived, Reply, ServerCore, ServiceRules, Subscriber};
use someip_wire::{Header, MessageType, ReturnCode};
use std::alloc::{AllocError, Global};
use std::collections::{BTreeMap, BTreeSet};
use std::fmt;
use std::fmt::Write;

/// Two requests, a RESPONSE that is given twice, and an ERROR.
const ANSWERED: &str = "
request 0x1111 0x0421 7 1 1 -> token 1
request 0x1111 0x0421 8 1 1 -> token 2
answer 1 0 1 -> 192.168.0.1:30509 > 192.168.0.2:40001 11110421000000090102000701018000
answer 1 0 1 -> UnknownToken
error 2 0x20 0 -> 192.168.0.1:30509 > 192.168.0.2:40001 11110421000000080102000801018120";

/// Answers that have every cause from one on, and then a good one.
const UNANSWERED: &str = "
error 1 0 1401 -> UnknownToken
request 0x1111 0x0421 1 1 1 -> token 1
error 1 0 1401 -> BadErrorCode
answer 1 1 1401 -> TooLong
answer 1 1 0 -> 192.168.0.1:30509 > 192.168.0.2:40001 11110421000000080102000101018001";

/// Requests that fail every check from one on, and one while the instance is down.
const FAULTY: &str = "
request 0x1112 0x0423 1 2 1 -> 192.168.0.1:30509 > 192.168.0.2:40001 11120423000000080102000101028102
request 0x1111 0x0423 1 2 1 -> 192.168.0.1:30509 > 192.168.0.2:40001 11110423000000080102000101028108
request 0x1111 0x0423 1 1 1 -> 192.168.0.1:30509 > 192.168.0.2:40001 11110423000000080102000101018103
request 0x1111 0x0422 1 1 1 -> 192.168.0.1:30509 > 192.168.0.2:40001 1111042200000008010200010101810a
request 0x1111 0x0421 1 1 0 -> 192.168.0.1:30509 > 192.168.0.2:40001 11110421000000080102000101018102";

/// Messages that fail one check each, of which nobody is told, and a good one.
const DROPPED: &str = "
oneway 0x1112 0x0422 1 1 1 -> dropped UnknownService
oneway 0x1111 0x0422 1 2 1 -> dropped WrongInterface
oneway 0x1111 0x0423 1 1 1 -> dropped UnknownMethod
oneway 0x1111 0x0421 1 1 1 -> dropped WrongType
response 0x1112 0x0422 1 1 1 -> dropped WrongType
oneway 0x1111 0x0422 1 1 1 -> oneway";

/// As many requests as can wait, and what comes then; an answer, and a new start.
const CROWDED: &str = "
requests 1024
request 0x1111 0x0421 1 1 1 -> 192.168.0.1:30509 > 192.168.0.2:40001 11110421000000080102000101018104
oneway 0x1111 0x0422 1 1 1 -> oneway
answer 512 0 0 -> 192.168.0.1:30509 > 192.168.0.2:40001 11110421000000080102000101018000
open -> 1023
request 0x1111 0x0421 1 1 1 -> token 1025
clear
open -> 0
request 0x1111 0x0421 1 1 1 -> token 1";

/// Publications until the sessions wrap, and a new start.
const COUNTED: &str = "
publish 0x8001 1 1 -> 192.168.0.1:30509 11118001000000090000000101010200
publish-to 0x8001 0 1 1 1 -> 192.168.0.1:30509 > 192.168.0.2:40001 11118001000000080000000201010200
events 65533
publish 0x8001 0 1 -> 192.168.0.1:30509 11118001000000080000000101010200
clear
publish 0x8001 0 1 -> 192.168.0.1:30509 11118001000000080000000101010200";

/// Publications that have every cause from one on, and the first that takes a session.
const REFUSED: &str = "
may 0x8002 1401 0 -> NotOffered
publish 0x8002 1401 0 -> NotOffered
publish-to 0x8002 1401 0 1 1 -> NotOffered
may 0x8002 1401 1 -> UnknownEvent
publish 0x8002 1401 1 -> UnknownEvent
publish-to 0x8002 1401 1 1 1 -> UnknownEvent
may 0x8001 1401 1 -> TooLong
publish 0x8001 1401 1 -> TooLong
publish-to 0x8001 1401 1 1 1 -> TooLong
publish-to 0x8001 0 1 2 1 -> UnknownEvent
publish-to 0x8001 0 1 3 1 -> UnknownEvent
publish-to 0x8001 0 1 1 0 -> NotSubscribed
may 0x8001 1400 1
publish 0x8001 0 1 -> 192.168.0.1:30509 11118001000000080000000101010200";

/// Requests one after the other, of which each takes memory, and events.
const SEVEN: &str = "
request 0x1111 0x0421 1 1 1 -> token 1
request 0x1111 0x0421 2 1 1 -> token 2
request 0x1111 0x0421 3 1 1 -> token 3
request 0x1111 0x0421 4 1 1 -> token 4
request 0x1111 0x0421 5 1 1 -> token 5
request 0x1111 0x0421 6 1 1 -> token 6
request 0x1111 0x0421 7 1 1 -> token 7
oneway 0x1111 0x0422 1 1 1 -> oneway
answer 2 0 1 -> 192.168.0.1:30509 > 192.168.0.2:40001 11110421000000090102000201018000
publish 0x8001 1 1 -> 192.168.0.1:30509 11118001000000090000000101010200
publish 0x8003 1400 1 -> 192.168.0.1:30509 11118003000005800000000101010200
publish-to 0x8001 1 1 1 1 -> 192.168.0.1:30509 > 192.168.0.2:40001 11118001000000090000000201010200
request 0x1111 0x0421 8 1 1 -> token 8
open -> 7";

/// A server, and what it serves.
#[derive(Drop)]
struct Server {
    core: ServerCore,
    service: ServiceRules,
}

impl Subject for Server {
    fn make(alloc: Global) -> Result<Server, AllocError> {
        Ok(Server {
            core: ServerCore::new(alloc),
            service: service(alloc)?,
        })
    }

    fn perform(&mut self, act: &Act<'_>, told: &mut Told) -> fmt::Result {
        let (event, size, is_up) = (act.short(0), act.short(1), act.is(2));
        match act.verb {
            "request" => self.hear(MessageType::Request, act, told),
            "oneway" => self.hear(MessageType::RequestNoReturn, act, told),
            "response" => self.hear(MessageType::Response, act, told),
            "requests" => self.hear_many(act.word(0), told),
            "answer" => self.answer(Reply::Response(ReturnCode(act.byte(1))), act, told),
            "error" => self.answer(Reply::Error(ReturnCode(act.byte(1))), act, told),
            "open" => write!(told, "{}", self.core.open_requests()),
            "may" => {
                let may = self
                    .service
                    .may_publish(is_up, 1400, event, usize::from(size));
                tell_refusal(told, &may)
            }
            "publish" => self.publish(is_up, event, payload(size), told),
            "publish-to" => self.publish_to(act, told),
            "events" => self.publish_many(act.word(0), told),
            "clear" => {
                self.core.clear();
                Ok(())
            }
            _ => Err(fmt::Error),
        }
    }
}

impl Server {
    /// A message comes from the client.
    fn hear(&mut self, kind: MessageType, act: &Act<'_>, told: &mut Told) -> fmt::Result {
        let header = Header {
            service: act.short(0),
            method: act.short(1),
            session: act.short(2),
            interface: act.byte(3),
            kind,
            ..ANSWER
        };
        match self
            .core
            .on_request(&self.service, act.is(4), client_endpoint(), &header)
        {
            Ok(Arrived::Request(token)) => write!(told, "token {token}"),
            Ok(Arrived::Oneway) => write!(told, "oneway"),
            Ok(Arrived::Refused(error)) => tell_sent(told, &Ok(error)),
            Ok(Arrived::Dropped(fault)) => write!(told, "dropped {fault:?}"),
            Err(refusal) => write!(told, "{refusal:?}"),
        }
    }

    /// So many requests come, and each is handed up.
    fn hear_many(&mut self, count: u32, told: &mut Told) -> fmt::Result {
        let header = Header {
            method: 0x0421,
            kind: MessageType::Request,
            ..ANSWER
        };
        for _ in 0..count {
            match self
                .core
                .on_request(&self.service, true, client_endpoint(), &header)
            {
                Ok(Arrived::Request(_)) => {}
                Ok(_) => return Err(fmt::Error),
                Err(refusal) => return write!(told, "{refusal:?}"),
            }
        }
        Ok(())
    }

    fn answer(&mut self, reply: Reply, act: &Act<'_>, told: &mut Told) -> fmt::Result {
        let payload = payload(act.short(2));
        tell_sent(told, &self.core.answer(act.long(0), reply, payload, 1400))
    }

    fn publish(&mut self, is_up: bool, event: u16, payload: &[u8], told: &mut Told) -> fmt::Result {
        match self
            .core
            .publish(&self.service, is_up, 1400, event, payload)
        {
            Ok(published) => {
                write!(told, "{} ", published.from)?;
                tell_header(told, &published.message)
            }
            Err(refusal) => write!(told, "{refusal:?}"),
        }
    }

    fn publish_to(&mut self, act: &Act<'_>, told: &mut Told) -> fmt::Result {
        let subscriber = Subscriber {
            eventgroup: act.short(3),
            endpoint: client_endpoint(),
            is_live: act.is(4),
        };
        let (service, payload) = (&self.service, payload(act.short(1)));
        let sent = self.core.publish_to(
            service,
            act.is(2),
            1400,
            &subscriber,
            act.short(0),
            payload,
        );
        tell_sent(told, &sent)
    }

    fn publish_many(&mut self, count: u32, told: &mut Told) -> fmt::Result {
        for _ in 0..count {
            if let Err(refusal) = self.core.publish(&self.service, true, 1400, 0x8001, &[]) {
                return write!(told, "{refusal:?}");
            }
        }
        Ok(())
    }
}

/// A set of this number alone.
fn one(alloc: Global, number: u16) -> Result<BTreeSet<u16>, AllocError> {
    let mut numbers = BTreeSet::new(alloc);
    numbers.insert(number)?;
    Ok(numbers)
}

fn events(alloc: Global) -> Result<BTreeMap<u16, BTreeSet<u16>>, AllocError> {
    let first = one(alloc, 1)?;
    let second = one(alloc, 2)?;
    let mut events = BTreeMap::new(alloc);
    events.insert(0x8001, first)?;
    events.insert(0x8003, second)?;
    Ok(events)
}

fn service(alloc: Global) -> Result<ServiceRules, AllocError> {
    Ok(ServiceRules {
        service: 0x1111,
        instance: 1,
        major: 1,
        endpoint: server_endpoint(),
        methods: one(alloc, 0x0421)?,
        oneways: one(alloc, 0x0422)?,
        events: events(alloc)?,
    })
}

#[test]
fn requests_and_events(rt: HostRuntime) {
    let tables = [
        ANSWERED, UNANSWERED, FAULTY, DROPPED, COUNTED, REFUSED, SEVEN,
    ];
    try_tables::<Server>(&rt, &tables);
}

#[test]
fn crowded_servers(rt: HostRuntime) {
    try_tables::<Server>(&rt, &[CROWDED]);
}
