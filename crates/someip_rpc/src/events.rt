//! The events that an instance publishes.
ghost use Rattle.std.specs.Prelude.{◌≡◌, IfOk, IfErr, OnOk, OnErr, Some, None};
ghost use Rattle.std.specs.FinMap as finite;
ghost use Rattle.someip_tables.specs.Tables.{map_of};
ghost use Rattle.someip_rpc.specs.Ids.{event_cmp};
ghost use Rattle.someip_rpc.specs.Sessions.{next_of};
ghost use Rattle.someip_rpc.specs.Events.{belongs, event_header, event_of};
ghost use Rattle.someip_rpc.specs.Events.{publish_refusal, publish_to_refusal};

use crate::error::RpcError;
use crate::ids::EventId;
use crate::publication::Subscriber;
use crate::service::ServiceRules;
use someip_tables::{put_value, session_after_last, value_at};
use someip_wire::{Header, Message, MessageType, ReturnCode};
use std::alloc::AllocError;
use std::collections::BTreeMap;

impl ServiceRules {
    /// Whether the instance, which is up or not, may publish an event with a payload of so many bytes:
    /// the test that [`ServerCore::publish`] begins with, for whoever has to gather the live endpoints
    /// first. It takes no memory.
    ///
    /// [`ServerCore::publish`]: crate::ServerCore::publish
    pub fn may_publish(
        &self,
        is_up: bool,
        message_limit: usize,
        event: u16,
        size: usize,
    ) -> Result<(), RpcError>
        ensures accepted { OnOk result
            (publish_refusal self.now is_up message_limit event size ≡ None) }
        ensures refused { IfErr result (λ error.
            publish_refusal self.now is_up message_limit event size ≡ Some error) }
    {
        if !is_up {
            return Err(RpcError::NotOffered);
        }
        if !self.events.contains_key(&event) {
            return Err(RpcError::UnknownEvent);
        }
        if size > message_limit {
            return Err(RpcError::TooLong);
        }
        Ok(())
    }

    /// Whether the instance may publish an event to one subscriber.
    pub(crate) fn may_publish_to(
        &self,
        is_up: bool,
        message_limit: usize,
        subscriber: &Subscriber,
        event: u16,
        size: usize,
    ) -> Result<(), RpcError>
        ensures accepted { OnOk result
            (publish_to_refusal self.now is_up message_limit subscriber.now event size ≡ None) }
        ensures refused { IfErr result (λ error.
            publish_to_refusal self.now is_up message_limit subscriber.now event size ≡ Some error) }
    {
        if !is_up {
            return Err(RpcError::NotOffered);
        }
        if !belongs(self, event, subscriber.eventgroup) {
            return Err(RpcError::UnknownEvent);
        }
        if size > message_limit {
            return Err(RpcError::TooLong);
        }
        if !subscriber.is_live {
            return Err(RpcError::NotSubscribed);
        }
        Ok(())
    }
}

/// Whether the instance has an event, and it belongs to an eventgroup.
fn belongs(rules: &ServiceRules, event: u16, eventgroup: u16) -> bool
    ensures { result ≡ belongs rules.now event eventgroup }
{
    match rules.events.get(&event) {
        None => false,
        Some(eventgroups) => eventgroups.contains(&eventgroup),
    }
}

/// The message of an event, which takes the next session.
pub(crate) fn next_event<'a>(
    sessions: &mut BTreeMap<EventId, u16>,
    rules: &ServiceRules,
    event: u16,
    payload: &'a [u8],
) -> Result<Message<'a>, AllocError>
    ensures header { IfOk result (λ message. message.header ≡ event_header rules.now event
        (next_of (map_of event_cmp sessions.old.entries) (event_of rules.now event))) }
    ensures payload { IfOk result (λ message. message.payload.now ≡ payload.now) }
    ensures given { OnOk result (map_of event_cmp sessions.new.entries
        ≡ finite.insert (map_of event_cmp sessions.old.entries) (event_of rules.now event)
        (next_of (map_of event_cmp sessions.old.entries) (event_of rules.now event))) }
    ensures grows { OnErr result
        (finite.get (map_of event_cmp sessions.old.entries) (event_of rules.now event) ≡ None) }
    ensures unchanged { OnErr result (map_of event_cmp sessions.new.entries
        ≡ map_of event_cmp sessions.old.entries) }
{
    let key = EventId {
        service: rules.service,
        instance: rules.instance,
        event,
    };
    let session = session_after_last(value_at(sessions, key));
    put_value(sessions, key, session)?;
    let header = event_header(rules, event, session);
    Ok(Message { header, payload })
}

/// The header of an event's message.
fn event_header(rules: &ServiceRules, event: u16, session: u16) -> Header
    ensures { result ≡ event_header rules.now event session }
{
    Header {
        service: rules.service,
        method: event,
        client: 0,
        session,
        interface: rules.major,
        kind: MessageType::Notification,
        code: ReturnCode::E_OK,
    }
}
