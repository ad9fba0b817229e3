//! The flows of a book, those of one source of events together.
ghost use Rattle.std.specs.Prelude.{◌≡◌, ◌≤◌, IfNone, IfSome, OnErr, OnOk, None, Some, [], filter, is_some, length, map, nat_lt, not, true};
ghost use Rattle.std.specs.Global.{Vec};
ghost use Rattle.std.specs.FinMap as finite;
ghost use Rattle.std.specs.List.{IsDistinct};
ghost use Rattle.std.specs.Map.{keys_of, lookup};
ghost use Rattle.someip_tables.specs.Changed.{changed_at, each_changed};
ghost use Rattle.someip_tables.specs.Tables.{map_of};
ghost use Rattle.audit_traffic.specs.events.EventRules.{disturbed, is_at};
ghost use Rattle.audit_traffic.specs.events.EventTables.{receivers_of};
ghost use Rattle.audit_traffic.specs.events.FlowGroups.{AreFlows, changed_by, flow_to, flows_in, is_same_source, once_came};
ghost use Rattle.audit_traffic.specs.events.FlowGroups.{once_changed, once_withdrawn};
ghost use Rattle.audit_traffic.specs.events.FlowKeys.{flow_cmp};
ghost use Rattle.audit_traffic.specs.declared.events.receiver.Receiver.{Receiver};

use crate::events::flow::EventFlow;
use crate::events::last_event::LastEvent;
use crate::events::notification::Notification;
use crate::events::receiver::Receiver;
use crate::events::receivers;
use crate::events::source::EventSource;
use std::alloc::{AllocError, Global};
use std::collections::HashMap;
use std::net::Ipv4Addr;

/// The receivers of each source.
pub(crate) type Groups = HashMap<EventSource, Vec<Receiver>>;

/// An event came: takes note at each receiver of its source, if its own is among them, and says what the last
/// event of its flow was before. It looks at these alone.
pub(crate) fn came(groups: &mut Groups, event: &Notification) -> Option<LastEvent>
    requires { AreFlows groups.old.entries }
    ensures had { result ≡ finite.get (map_of flow_cmp (flows_in groups.old.entries)) event.now.flow }
    ensures known { IfSome result (λ last. map_of flow_cmp (flows_in groups.new.entries)
        ≡ each_changed (once_came event.now) (map_of flow_cmp (flows_in groups.old.entries))) }
    ensures none { IfNone result (flows_in groups.new.entries ≡ flows_in groups.old.entries) }
    ensures count { length (flows_in groups.new.entries) ≡ length (flows_in groups.old.entries) }
    ensures flows { AreFlows groups.new.entries }
{
    let group = groups.get_mut(&EventSource::of(&event.flow))?;
    receivers::take_note(group, event)
}

/// Adds a flow that is new, with its last event.
pub(crate) fn add(
    groups: &mut Groups,
    alloc: Global,
    flow: &EventFlow,
    last: LastEvent,
) -> Result<(), AllocError>
    requires flows { AreFlows groups.old.entries }
    requires new { finite.get (map_of flow_cmp (flows_in groups.old.entries)) flow.now ≡ None }
    ensures ok { OnOk result (map_of flow_cmp (flows_in groups.new.entries)
        ≡ finite.insert (map_of flow_cmp (flows_in groups.old.entries)) flow.now last) }
    ensures err { OnErr result (flows_in groups.new.entries ≡ flows_in groups.old.entries) }
    ensures flows { AreFlows groups.new.entries }
{
    let source = EventSource::of(flow);
    let receiver = Receiver {
        endpoint: flow.receiver,
        last,
    };
    if let Some(receivers) = groups.get_mut(&source) {
        receivers.push(receiver)?;
        return Ok(());
    }
    begin(groups, alloc, source, receiver)
}

/// Adds a source with its first receiver.
fn begin(
    groups: &mut Groups,
    alloc: Global,
    source: EventSource,
    receiver: Receiver,
) -> Result<(), AllocError>
    requires flows { AreFlows groups.old.entries }
    requires unique { IsDistinct is_same_source (keys_of groups.old.entries) }
    requires new { lookup (is_same_source source) groups.old.entries ≡ None }
    ensures ok { OnOk result (map_of flow_cmp (flows_in groups.new.entries)
        ≡ finite.insert (map_of flow_cmp (flows_in groups.old.entries)) (flow_to source receiver.endpoint) receiver.last) }
    ensures err { OnErr result (flows_in groups.new.entries ≡ flows_in groups.old.entries) }
    ensures flows { AreFlows groups.new.entries }
{
    let mut receivers = Vec::new(alloc);
    receivers.push(receiver)?;
    groups.insert(source, receivers)?;
    Ok(())
}

/// A flow is disturbed, if it is known. It looks at the receivers of its source alone.
pub(crate) fn disturb_one(groups: &mut Groups, flow: &EventFlow)
    requires { AreFlows groups.old.entries }
    ensures after { map_of flow_cmp (flows_in groups.new.entries)
        ≡ changed_at flow.now disturbed (map_of flow_cmp (flows_in groups.old.entries)) }
    ensures count { length (flows_in groups.new.entries) ≡ length (flows_in groups.old.entries) }
    ensures flows { AreFlows groups.new.entries }
{
    let Some(group) = groups.get_mut(&EventSource::of(flow)) else {
        return;
    };
    receivers::disturb_one(group, &flow.receiver);
}

/// A subscription of a client to a service at a server began or ended. It looks at every source, and at the
/// receivers of those of this service at this server.
pub(crate) fn disturb(groups: &mut Groups, client: Ipv4Addr, server: Ipv4Addr, service: u16)
    requires { AreFlows groups.old.entries }
    ensures after { map_of flow_cmp (flows_in groups.new.entries)
        ≡ each_changed (once_changed client server service) (map_of flow_cmp (flows_in groups.old.entries)) }
    ensures count { length (flows_in groups.new.entries) ≡ length (flows_in groups.old.entries) }
    ensures flows { AreFlows groups.new.entries }
{
    groups.retain(
        |source, group|
            ensures all { result ≡ true }
            ensures changed { group.new.items
                ≡ map (changed_by (once_changed client server service) source.now) group.old.items }
        {
            receivers::disturb(source, group, client, server, service);
            true
        },
    );
}

/// A server withdrew an offer of a service. It looks at every source, and at the receivers of those of this offer.
pub(crate) fn withdraw(groups: &mut Groups, server: Ipv4Addr, service: u16)
    requires { AreFlows groups.old.entries }
    ensures after { map_of flow_cmp (flows_in groups.new.entries)
        ≡ each_changed (once_withdrawn server service) (map_of flow_cmp (flows_in groups.old.entries)) }
    ensures count { length (flows_in groups.new.entries) ≡ length (flows_in groups.old.entries) }
    ensures flows { AreFlows groups.new.entries }
{
    groups.retain(
        |source, group|
            ensures all { result ≡ true }
            ensures changed { group.new.items
                ≡ map (changed_by (once_withdrawn server service) source.now) group.old.items }
        {
            receivers::withdraw(source, group, server, service);
            true
        },
    );
}

/// A flow is forgotten: it goes from the receivers of its source. Says whether it was known.
pub(crate) fn forget_one(groups: &mut Groups, flow: &EventFlow) -> bool
    requires { AreFlows groups.old.entries }
    ensures there { result ≡ is_some (finite.get (map_of flow_cmp (flows_in groups.old.entries)) flow.now) }
    ensures after { map_of flow_cmp (flows_in groups.new.entries)
        ≡ finite.remove (map_of flow_cmp (flows_in groups.old.entries)) flow.now }
    ensures flows { AreFlows groups.new.entries }
{
    let Some(group) = groups.get_mut(&EventSource::of(flow)) else {
        return false;
    };
    receivers::forget_one(group, &flow.receiver)
}

/// Drops a source that has no receiver.
pub(crate) fn drop_empty(groups: &mut Groups, source: &EventSource)
    requires { AreFlows groups.old.entries }
    ensures after { map_of flow_cmp (flows_in groups.new.entries) ≡ map_of flow_cmp (flows_in groups.old.entries) }
    ensures flows { AreFlows groups.new.entries }
{
    // No source stands twice in a map.
    let _each = groups.values();
    if is_empty(groups, source) {
        groups.remove(source);
    }
}

/// Whether a source is there, and has no receiver.
fn is_empty(groups: &Groups, source: &EventSource) -> bool
    ensures { result ≡ true → (receivers : Vec Receiver)
        → lookup (is_same_source source.now) groups.now.entries ≡ Some receivers → receivers.items ≡ [] }
{
    match groups.get(source) {
        Some(receivers) => receivers.is_empty(),
        None => false,
    }
}

/// An address began again: the flows from it and to it are forgotten.
pub(crate) fn forget(groups: &mut Groups, address: Ipv4Addr)
    requires { AreFlows groups.old.entries }
    ensures after { map_of flow_cmp (flows_in groups.new.entries) ≡ finite.retain_keys
        (map_of flow_cmp (flows_in groups.old.entries)) (λ flow. not (is_at address flow)) }
    ensures count { length (flows_in groups.new.entries) ≤ length (flows_in groups.old.entries) }
    ensures flows { AreFlows groups.new.entries }
{
    groups.retain(
        |source, group|
            ensures any { result ≡ nat_lt 0 (length group.new.items) }
            ensures left { group.new.items
                ≡ filter (λ r. not (is_at address (flow_to source.now r.endpoint))) group.old.items }
        { receivers::forget(source, group, address) },
    );
}

/// To how many receivers the event of a flow goes.
pub(crate) fn receivers(groups: &Groups, flow: &EventFlow) -> usize
    requires { AreFlows groups.now.entries }
    ensures { result ≡ receivers_of flow.now (map_of flow_cmp (flows_in groups.now.entries)) }
{
    // No source stands twice in a map.
    let _each = groups.values();
    match groups.get(&EventSource::of(flow)) {
        Some(receivers) => receivers.len(),
        None => 0,
    }
}

/// How many flows there are.
pub(crate) fn count(groups: &Groups) -> usize
    requires { length (flows_in groups.now.entries) ≤ usize.MAX }
    ensures { result ≡ length (flows_in groups.now.entries) }
{
    let mut flows = 0;
    for group in groups.values() {
        flows += group.len();
    }
    flows
}
