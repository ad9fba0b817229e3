//! A client's half of calls and answers.
ghost use Rattle.std.specs.Prelude.{◌≡◌, ◌≢◌, ◌≤◌, false, length, IfOk, IfErr, OnOk, OnErr, Some, None};
ghost use Rattle.std.specs.FinMap as finite;
ghost use Rattle.someip_tables.specs.Lastings.{expired, unexpired};
ghost use Rattle.someip_tables.specs.Tables.{map_of};
ghost use Rattle.someip_tables.specs.Waits.{HoldsFrom};
ghost use Rattle.someip_rpc.specs.Ids.{call_cmp, message_cmp};
ghost use Rattle.std.specs.Prelude.{ℕ};
ghost use Rattle.someip_rpc.specs.Sessions.{LastSessions, next_of};
ghost use Rattle.someip_rpc.specs.Calls.{IsFirstFree, call_header, call_refusal, called};
ghost use Rattle.someip_rpc.specs.Calls.{is_full, or_memory};
ghost use Rattle.someip_rpc.specs.Answers.{answer_drop, answered_call, is_answer_type, may_have_code};

use crate::call::{Awaited, Call, CallKind, ClientRules, Outgoing};
use crate::error::{DropCause, RpcError};
use crate::ids::{CallKey, MessageId};
use crate::pending::{Pending, first_free, is_awaited, is_full, wait};
use someip_tables::{DeadlineMap, Moment, put_value, session_after_last, value_at};
use someip_wire::{Header, Message, MessageType, ReturnCode};
use std::alloc::{AllocError, Global};
use std::collections::{BTreeMap, BTreeSet};
use std::marker::Model;
use std::net::SocketAddrV4;

/// The calls that a client waits for, and the sessions that it gave. A call waits until its answer is
/// taken or its time has passed, and at most 1024 wait at once.
///
/// Whoever moves the clock calls [`ClientCore::tick`] with it, which tells the calls whose time has
/// passed: a later REQUEST drops them without telling.
#[derive(Drop)]
pub struct ClientCore {
    alloc: Global,
    pending: Pending,
    sessions: BTreeMap<MessageId, u16>,
}

impl Model for ClientCore {
    ghost use Rattle.std.specs.Prelude.{◌≤◌};
    ghost use Rattle.std.specs.FinMap as finite;
    ghost use Rattle.someip_tables.specs.Tables.{map_of};
    ghost use Rattle.someip_rpc.specs.Ids.{call_cmp, message_cmp};
    ghost use Rattle.someip_rpc.specs.Calls.{Client, coded_client};

    ghost Value = { Client };

    ghost coded = { coded_client };

    ghost view = { λ c. record {
      pending = map_of call_cmp c.pending;
      sessions = map_of message_cmp c.sessions.entries;
    } };

    ghost invariant = { λ c. finite.len (map_of call_cmp c.pending) ≤ 1024 };
}

impl ClientCore {
    /// A client that has called nothing. It takes no memory.
    pub fn new(alloc: Global) -> ClientCore
        ensures { result ≡ record { pending = finite.empty; sessions = finite.empty } }
    {
        ClientCore {
            alloc,
            pending: DeadlineMap::new(alloc),
            sessions: BTreeMap::new(alloc),
        }
    }

    /// How many calls wait for their answer, those among them whose time has passed since the last
    /// tick.
    pub fn pending_calls(&self) -> usize
        ensures count { result ≡ finite.len self.now.pending }
        ensures few { result ≤ 1024 }
    {
        self.pending.len()
    }

    /// Calls a method of a service instance that is offered at an endpoint, or at none if no offer is
    /// known, and answers what is to be sent. The call takes the next session of its Message ID, in
    /// cyclic order from 1 to FFFF, that does not wait; a REQUEST then waits for its answer.
    ///
    /// The first of these refuses it: `NotOffered` without an offer, `TooLong` for a payload above the
    /// message limit, `Busy` for a REQUEST while 1024 wait. Memory runs out only where none does.
    pub fn call<'a>(
        &mut self,
        rules: &ClientRules,
        call: Call,
        payload: &'a [u8],
        offer: Option<SocketAddrV4>,
        now: Moment,
    ) -> Result<Outgoing<'a>, RpcError>
        ensures accepted { OnOk result (call_refusal rules.now call.kind (length payload.now) offer
            (unexpired now self.old.pending) ≡ None) }
        ensures to { IfOk result (λ sent. offer ≡ Some sent.to) }
        ensures from { IfOk result (λ sent. sent.from ≡ rules.now.endpoint) }
        ensures session { IfOk result (λ sent. IsFirstFree (unexpired now self.old.pending)
            call.message (next_of self.old.sessions call.message) sent.message.header.session) }
        ensures header { IfOk result (λ sent. sent.message.header
            ≡ call_header rules.now.client call sent.message.header.session) }
        ensures payload { IfOk result (λ sent. sent.message.payload.now ≡ payload.now) }
        ensures called { IfOk result (λ sent. self.new
            ≡ called rules.now call sent.to sent.message.header.session now self.old) }
        ensures refused { IfErr result (λ error. error ≡ or_memory (call_refusal rules.now call.kind
            (length payload.now) offer (unexpired now self.old.pending))) }
        ensures unchanged { OnErr result (self.new ≡ self.old) }
    {
        let peer = admit(&self.pending, rules, call.kind, payload.len(), offer, now)?;
        let session = begin(
            &mut self.pending,
            &mut self.sessions,
            rules,
            call,
            peer,
            now,
        )?;
        let header = call_header(rules.client, call, session);
        Ok(Outgoing {
            from: rules.endpoint,
            to: peer,
            message: Message { header, payload },
        })
    }

    /// Takes a message that came from an endpoint as the answer to a call that waits, which no longer
    /// waits then, and tells which call it was. It is a RESPONSE, or an ERROR with a code other than
    /// E_OK, from the endpoint that was called, with the Message ID, Client ID, session and Interface
    /// Version of the call.
    ///
    /// Types other than RESPONSE and ERROR are `WrongType`, other answers `NotPending`. It takes no
    /// memory.
    pub fn on_answer(
        &mut self,
        rules: &ClientRules,
        from: SocketAddrV4,
        header: &Header,
        now: Moment,
    ) -> Result<CallKey, DropCause>
        ensures taken { OnOk result (answer_drop rules.now.client from header.now
            (unexpired now self.old.pending) ≡ None) }
        ensures call { IfOk result (λ call. call ≡ answered_call header.now) }
        ensures ended { OnOk result (self.new ≡ record self.old {
          pending = finite.remove self.old.pending (answered_call header.now);
        }) }
        ensures dropped { IfErr result (λ cause. answer_drop rules.now.client from header.now
            (unexpired now self.old.pending) ≡ Some cause) }
        ensures unchanged { OnErr result (self.new ≡ self.old) }
    {
        take_answer(&mut self.pending, rules.client, from, header, now)
    }

    /// When the time of a call next passes, in milliseconds since the node's start: the first moment at
    /// which [`ClientCore::tick`] answers a call, if there is one.
    pub fn next_due(&self) -> Option<u64>
        ensures { HoldsFrom result (λ now. expired now self.now.pending ≢ finite.empty) }
    {
        self.pending.first_deadline()
    }

    /// Ends the calls whose time has passed, and tells them, by rising Message ID and session. It is
    /// refused for memory alone, which it takes only where there are any; then all is as it was.
    pub fn tick(&mut self, now: Moment) -> Result<BTreeSet<CallKey>, AllocError>
        ensures told { IfOk result (λ calls. calls.keys
            ≡ finite.keys (expired now self.old.pending)) }
        ensures ended { OnOk result (self.new
            ≡ record self.old { pending = unexpired now self.old.pending }) }
        ensures grows { OnErr result (expired now self.old.pending ≢ finite.empty) }
        ensures unchanged { OnErr result (self.new ≡ self.old) }
    {
        if !self.pending.has_expired(now) {
            return Ok(BTreeSet::new(self.alloc));
        }
        let calls = self.pending.expired_keys(self.alloc, now)?;
        self.pending.drop_expired(now);
        Ok(calls)
    }

    /// Forgets all calls and all sessions, as when a node starts again. It takes no memory.
    pub fn clear(&mut self)
        ensures { self.new ≡ record { pending = finite.empty; sessions = finite.empty } }
    {
        self.pending.clear();
        self.sessions.clear();
    }
}

/// The endpoint that is called, if the call is not refused.
fn admit(
    pending: &Pending,
    rules: &ClientRules,
    kind: CallKind,
    size: usize,
    offer: Option<SocketAddrV4>,
    now: Moment,
) -> Result<SocketAddrV4, RpcError>
    ensures peer { IfOk result (λ peer. offer ≡ Some peer) }
    ensures admitted { OnOk result (call_refusal rules.now kind size offer
        (unexpired now (map_of call_cmp pending.now)) ≡ None) }
    ensures place { OnOk result
        (is_full kind (unexpired now (map_of call_cmp pending.now)) ≡ false) }
    ensures refused { IfErr result (λ error. call_refusal rules.now kind size offer
        (unexpired now (map_of call_cmp pending.now)) ≡ Some error) }
{
    let Some(peer) = offer else {
        return Err(RpcError::NotOffered);
    };
    if size > rules.message_limit {
        return Err(RpcError::TooLong);
    }
    if is_full(pending, kind, now) {
        return Err(RpcError::Busy);
    }
    Ok(peer)
}

/// Gives a call its session, and lets it wait.
fn begin(
    pending: &mut Pending,
    sessions: &mut BTreeMap<MessageId, u16>,
    rules: &ClientRules,
    call: Call,
    peer: SocketAddrV4,
    now: Moment,
) -> Result<u16, AllocError>
    requires few { finite.len (map_of call_cmp pending.old) ≤ 1024 }
    requires place { is_full call.kind (unexpired now (map_of call_cmp pending.old)) ≡ false }
    ensures few { finite.len (map_of call_cmp pending.new) ≤ 1024 }
    ensures session { IfOk result (λ session.
        IsFirstFree (unexpired now (map_of call_cmp pending.old)) call.message
        (next_of (map_of message_cmp sessions.old.entries) call.message) session) }
    ensures called { IfOk result (λ session. called rules.now call peer session now (record {
      pending = map_of call_cmp pending.old;
      sessions = map_of message_cmp sessions.old.entries;
    })
        ≡ record {
          pending = map_of call_cmp pending.new;
          sessions = map_of message_cmp sessions.new.entries;
        }) }
    ensures pending_kept { OnErr result (pending.new ≡ pending.old) }
    ensures sessions_kept { OnErr result (map_of message_cmp sessions.new.entries
        ≡ map_of message_cmp sessions.old.entries) }
{
    let last = value_at(sessions, call.message);
    let session = first_free(pending, call.message, session_after_last(last), now);
    put_value(sessions, call.message, session)?;
    let key = CallKey {
        message: call.message,
        session,
    };
    let awaited = Awaited {
        peer,
        interface: call.interface,
    };
    match wait(pending, call.kind, key, awaited, rules.call_timeout_ms, now) {
        Ok(()) => Ok(session),
        Err(error) => {
            put_back(sessions, call.message, last);
            Err(error)
        }
    }
}

/// Undoes the last change of a Message ID's session.
fn put_back(sessions: &mut BTreeMap<MessageId, u16>, message: MessageId, last: Option<u16>)
    requires { finite.get (map_of message_cmp sessions.old.entries) message ≢ None }
    ensures { (before : LastSessions) (session : ℕ) → finite.get before message ≡ last
        → map_of message_cmp sessions.old.entries ≡ finite.insert before message session
        → map_of message_cmp sessions.new.entries ≡ before }
{
    match last {
        Some(last) => {
            let _ = put_value(sessions, message, last);
        }
        None => {
            sessions.remove(&message);
        }
    }
}

/// The header of a call's message.
fn call_header(client: u16, call: Call, session: u16) -> Header
    ensures { result ≡ call_header client call session }
{
    Header {
        service: call.message.service,
        method: call.message.method,
        client,
        session,
        interface: call.interface,
        kind: match call.kind {
            CallKind::Request => MessageType::Request,
            CallKind::RequestNoReturn => MessageType::RequestNoReturn,
        },
        code: ReturnCode::E_OK,
    }
}

/// Takes a message as an answer.
fn take_answer(
    pending: &mut Pending,
    client: u16,
    from: SocketAddrV4,
    header: &Header,
    now: Moment,
) -> Result<CallKey, DropCause>
    ensures taken { OnOk result (answer_drop client from header.now
        (unexpired now (map_of call_cmp pending.old)) ≡ None) }
    ensures call { IfOk result (λ call. call ≡ answered_call header.now) }
    ensures ended { OnOk result (map_of call_cmp pending.new
        ≡ finite.remove (map_of call_cmp pending.old) (answered_call header.now)) }
    ensures dropped { IfErr result (λ cause. answer_drop client from header.now
        (unexpired now (map_of call_cmp pending.old)) ≡ Some cause) }
    ensures no_more { finite.len (map_of call_cmp pending.new)
        ≤ finite.len (map_of call_cmp pending.old) }
    ensures unchanged { OnErr result (pending.new ≡ pending.old) }
{
    if !is_answer_type(header.kind) {
        return Err(DropCause::WrongType);
    }
    let key = CallKey {
        message: MessageId {
            service: header.service,
            method: header.method,
        },
        session: header.session,
    };
    if may_have_code(header.kind, header.code)
        && header.client == client
        && is_awaited(pending, key, from, header.interface, now)
    {
        pending.remove(&key);
        Ok(key)
    } else {
        Err(DropCause::NotPending)
    }
}

fn is_answer_type(kind: MessageType) -> bool
    ensures { result ≡ is_answer_type kind }
{
    matches!(kind, MessageType::Response | MessageType::Error)
}

fn may_have_code(kind: MessageType, code: ReturnCode) -> bool
    ensures { result ≡ may_have_code kind code.0 }
{
    match kind {
        MessageType::Response => true,
        MessageType::Error => code != ReturnCode::E_OK,
        _ => false,
    }
}
