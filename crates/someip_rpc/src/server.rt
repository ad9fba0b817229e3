//! A server's half of calls and answers.
ghost use Rattle.std.specs.Prelude.{◌≡◌, ◌≤◌, ◌+◌, ℕ, false, is_some, length, IfOk, IfErr, OnOk, OnErr, Some, None};
ghost use Rattle.std.specs.Option.{option_map};
ghost use Rattle.std.specs.FinMap as finite;
ghost use Rattle.someip_wire.specs.declared.header.MessageType.TheVariants as kinds;
ghost use Rattle.someip_tables.specs.Tables.{map_of};
ghost use Rattle.someip_rpc.specs.Ids.{event_cmp};
ghost use Rattle.someip_rpc.specs.Calls.{or_memory};
ghost use Rattle.someip_rpc.specs.Events.{event_header, event_of, next_session_of, published};
ghost use Rattle.someip_rpc.specs.Events.{publish_refusal, publish_to_refusal};
ghost use Rattle.someip_rpc.specs.Requests.{BecomesOf, IsErrorOf, answer_header, asked};
ghost use Rattle.someip_rpc.specs.Requests.{has_no_room, request_fault};
ghost use Rattle.someip_rpc.specs.Servers.{after_arrival, answer_refusal, unasked};
ghost use Rattle.someip_rpc.specs.Servers.{code_of_reply, kind_of_reply, is_bad_error};

use crate::call::Outgoing;
use crate::checks::request_fault;
use crate::error::RpcError;
use crate::events::next_event;
use crate::ids::EventId;
use crate::open::OpenRequests;
use crate::publication::{Publication, Subscriber};
use crate::request::{Arrived, Asked, Reply, RequestFault};
use crate::service::ServiceRules;
use someip_wire::{Header, MessageType, ReturnCode};
use std::alloc::{AllocError, Global};
use std::collections::BTreeMap;
use std::marker::Model;
use std::net::SocketAddrV4;

/// The requests that a server has to answer, and the sessions that it gave its events. A request waits
/// until it is answered, also while its instance is down, and at most 1024 wait at once.
#[derive(Drop)]
pub struct ServerCore {
    requests: OpenRequests,
    next: u64,
    sessions: BTreeMap<EventId, u16>,
}

impl Model for ServerCore {
    ghost use Rattle.std.specs.Prelude.{◌≡◌, ◌≤◌, ℕ, false, is_some};
    ghost use Rattle.std.specs.FinMap as finite;
    ghost use Rattle.someip_tables.specs.Tables.{map_of};
    ghost use Rattle.someip_rpc.specs.Ids.{event_cmp};
    ghost use Rattle.someip_rpc.specs.Servers.{Server, coded_server};

    ghost Value = { Server };

    ghost coded = { coded_server };

    ghost view = { λ s. record {
      requests = s.requests;
      next = s.next;
      sessions = map_of event_cmp s.sessions.entries;
    } };

    ghost invariant = { λ s. (finite.len s.requests ≤ 1024)
        × ((token : ℕ) → s.next ≤ token → is_some (finite.get s.requests token) ≡ false) };
}

impl ServerCore {
    /// A server that was asked nothing. It takes no memory.
    pub fn new(alloc: Global) -> ServerCore
        ensures { result ≡ unasked }
    {
        ServerCore {
            requests: OpenRequests::new(alloc),
            next: 1,
            sessions: BTreeMap::new(alloc),
        }
    }

    /// How many requests wait for their answer.
    pub fn open_requests(&self) -> usize
        ensures count { result ≡ finite.len self.now.requests }
        ensures few { result ≤ 1024 }
    {
        self.requests.len()
    }

    /// Takes a message that came from an endpoint to that of an instance, which is up or not. A REQUEST
    /// is handed up with the next token, and waits for its answer; or it is refused by an ERROR that
    /// tells the first check that it fails. A REQUEST_NO_RETURN is handed up or dropped, and every other
    /// message is dropped.
    ///
    /// Memory runs out only where a REQUEST fails no check.
    pub fn on_request(
        &mut self,
        rules: &ServiceRules,
        is_up: bool,
        from: SocketAddrV4,
        header: &Header,
    ) -> Result<Arrived, RpcError>
        ensures becomes { IfOk result (λ arrived. BecomesOf (asked rules.now from header.now)
            self.old.next header.now.kind
            (request_fault rules.now is_up header.now self.old.requests self.old.next) arrived) }
        ensures waits { IfOk result (λ arrived. self.new
            ≡ after_arrival (asked rules.now from header.now) arrived self.old) }
        ensures err { IfErr result (λ error. error ≡ RpcError.OutOfMemory) }
        ensures grows_by_requests { OnErr result (header.now.kind ≡ kinds.Request) }
        ensures grows_by_good_ones { OnErr result
            (request_fault rules.now is_up header.now self.old.requests self.old.next ≡ None) }
        ensures unchanged { OnErr result (self.new ≡ self.old) }
    {
        let fault = request_fault(rules, is_up, header, &self.requests, self.next);
        let request = Asked::new(rules, from, header);
        match header.kind {
            MessageType::Request => match fault {
                None => Ok(self.hand_up(request)?),
                Some(fault) => Ok(Arrived::Refused(refusal(request, fault))),
            },
            MessageType::RequestNoReturn => match fault {
                None => Ok(Arrived::Oneway),
                Some(fault) => Ok(Arrived::Dropped(fault)),
            },
            _ => Ok(Arrived::Dropped(RequestFault::WrongType)),
        }
    }

    /// Lets a request wait under the next token.
    fn hand_up(&mut self, request: Asked) -> Result<Arrived, AllocError>
        requires { has_no_room self.old.requests self.old.next ≡ false }
        ensures token { IfOk result (λ arrived. arrived ≡ Arrived.Request self.old.next) }
        ensures waits { OnOk result (self.new
            ≡ after_arrival request (Arrived.Request self.old.next) self.old) }
        ensures unchanged { OnErr result (self.new ≡ self.old) }
    {
        let token = self.next;
        self.requests.insert(token, request)?;
        self.next = token + 1;
        Ok(Arrived::Request(token))
    }

    /// Answers the request that waits under a token, which no longer waits then, and says what is to be
    /// sent: a RESPONSE or an ERROR from the instance's endpoint to that of the request.
    ///
    /// The first of these refuses it: `UnknownToken` where none waits, `BadErrorCode` for an ERROR with
    /// the code E_OK, `TooLong` for a payload above the message limit. It takes no memory.
    pub fn answer<'a>(
        &mut self,
        token: u64,
        reply: Reply,
        payload: &'a [u8],
        message_limit: usize,
    ) -> Result<Outgoing<'a>, RpcError>
        ensures from { IfOk result (λ sent. option_map (λ request. request.endpoint)
            (finite.get self.old.requests token) ≡ Some sent.from) }
        ensures to { IfOk result (λ sent. option_map (λ request. request.peer)
            (finite.get self.old.requests token) ≡ Some sent.to) }
        ensures header { IfOk result (λ sent. option_map (λ request.
            answer_header request (kind_of_reply reply) (code_of_reply reply))
            (finite.get self.old.requests token) ≡ Some sent.message.header) }
        ensures payload { IfOk result (λ sent. sent.message.payload.now ≡ payload.now) }
        ensures accepted { OnOk result (answer_refusal message_limit reply (length payload.now)
            (finite.get self.old.requests token) ≡ None) }
        ensures answered { OnOk result (self.new
            ≡ record self.old { requests = finite.remove self.old.requests token }) }
        ensures refused { IfErr result (λ error. answer_refusal message_limit reply
            (length payload.now) (finite.get self.old.requests token) ≡ Some error) }
        ensures unchanged { OnErr result (self.new ≡ self.old) }
    {
        let Some(request) = self.requests.get(token) else {
            return Err(RpcError::UnknownToken);
        };
        if is_bad_error(reply) {
            return Err(RpcError::BadErrorCode);
        }
        if payload.len() > message_limit {
            return Err(RpcError::TooLong);
        }
        self.requests.remove(token);
        Ok(match reply {
            Reply::Response(code) => request.answered(MessageType::Response, code, payload),
            Reply::Error(code) => request.answered(MessageType::Error, code, payload),
        })
    }

    /// Publishes an event of an instance, which is up or not, with the next session of that event: also
    /// where nobody is subscribed. The message goes to each live endpoint of the event's eventgroups.
    ///
    /// The first of these refuses it: `NotOffered` while the instance is down, `UnknownEvent` for one
    /// that it has not, `TooLong` for a payload above the message limit. Memory runs out only at the
    /// first publication of an event.
    pub fn publish<'a>(
        &mut self,
        rules: &ServiceRules,
        is_up: bool,
        message_limit: usize,
        event: u16,
        payload: &'a [u8],
    ) -> Result<Publication<'a>, RpcError>
        ensures accepted { OnOk result
            (publish_refusal rules.now is_up message_limit event (length payload.now) ≡ None) }
        ensures from { IfOk result (λ publication. publication.from ≡ rules.now.endpoint) }
        ensures header { IfOk result (λ publication. publication.message.header
            ≡ event_header rules.now event (next_session_of rules.now event self.old)) }
        ensures payload { IfOk result (λ publication.
            publication.message.payload.now ≡ payload.now) }
        ensures published { OnOk result (self.new ≡ published rules.now event self.old) }
        ensures refused { IfErr result (λ error. error ≡ or_memory
            (publish_refusal rules.now is_up message_limit event (length payload.now))) }
        ensures grows { OnErr result
            (publish_refusal rules.now is_up message_limit event (length payload.now) ≡ None
            → finite.get self.old.sessions (event_of rules.now event) ≡ None) }
        ensures unchanged { OnErr result (self.new ≡ self.old) }
    {
        rules.may_publish(is_up, message_limit, event, payload.len())?;
        let message = next_event(&mut self.sessions, rules, event, payload)?;
        Ok(Publication {
            from: rules.endpoint,
            message,
        })
    }

    /// Publishes an event to one subscriber alone, with the next session of that event.
    ///
    /// The first of these refuses it: `NotOffered` while the instance is down, `UnknownEvent` for one
    /// that it has not or that does not belong to the eventgroup, `TooLong` for a payload above the
    /// message limit, `NotSubscribed` where no subscription is live. Memory runs out only at the first
    /// publication of an event.
    pub fn publish_to<'a>(
        &mut self,
        rules: &ServiceRules,
        is_up: bool,
        message_limit: usize,
        subscriber: &Subscriber,
        event: u16,
        payload: &'a [u8],
    ) -> Result<Outgoing<'a>, RpcError>
        ensures accepted { OnOk result (publish_to_refusal rules.now is_up message_limit
            subscriber.now event (length payload.now) ≡ None) }
        ensures from { IfOk result (λ sent. sent.from ≡ rules.now.endpoint) }
        ensures to { IfOk result (λ sent. sent.to ≡ subscriber.now.endpoint) }
        ensures header { IfOk result (λ sent. sent.message.header
            ≡ event_header rules.now event (next_session_of rules.now event self.old)) }
        ensures payload { IfOk result (λ sent. sent.message.payload.now ≡ payload.now) }
        ensures published { OnOk result (self.new ≡ published rules.now event self.old) }
        ensures refused { IfErr result (λ error. error ≡ or_memory (publish_to_refusal rules.now
            is_up message_limit subscriber.now event (length payload.now))) }
        ensures grows { OnErr result (publish_to_refusal rules.now is_up message_limit
            subscriber.now event (length payload.now) ≡ None
            → finite.get self.old.sessions (event_of rules.now event) ≡ None) }
        ensures unchanged { OnErr result (self.new ≡ self.old) }
    {
        rules.may_publish_to(is_up, message_limit, subscriber, event, payload.len())?;
        let message = next_event(&mut self.sessions, rules, event, payload)?;
        Ok(Outgoing {
            from: rules.endpoint,
            to: subscriber.endpoint,
            message,
        })
    }

    /// Forgets all requests and all sessions, as when a node starts again: the first token and the
    /// sessions are 1 again. It takes no memory.
    pub fn clear(&mut self)
        ensures { self.new ≡ unasked }
    {
        self.requests.clear();
        self.next = 1;
        self.sessions.clear();
    }
}

/// The ERROR that tells a failed check.
fn refusal(request: Asked, fault: RequestFault) -> Outgoing<'static>
    ensures { IsErrorOf request fault result }
{
    request.answered(MessageType::Error, fault.code(), &[])
}

/// Whether a reply is an ERROR without an error.
fn is_bad_error(reply: Reply) -> bool
    ensures { result ≡ is_bad_error reply }
{
    match reply {
        Reply::Response(_) => false,
        Reply::Error(code) => code == ReturnCode::E_OK,
    }
}
