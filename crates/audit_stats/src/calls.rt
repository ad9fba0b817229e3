//! Calls and answers over the figures of their methods.
ghost use Rattle.std.specs.Prelude.{◌≡◌, ◌||◌, IfOk, OnErr, OnOk, true, ℕ};
ghost use Rattle.std.specs.FinMap as finite;
ghost use Rattle.std.specs.Option.{is_none};
ghost use Rattle.audit_stats.specs.Changes.{after_call, no_calls};
ghost use Rattle.audit_stats.specs.declared.full.Full.TheVariants as full;
ghost use Rattle.audit_stats.specs.declared.methods.CallChange.TheVariants as of_call;
ghost use Rattle.audit_stats.specs.Keys.{call_cmp, flow_cmp};
ghost use Rattle.audit_stats.specs.Stats.{Waiting, answered_takes, called_takes, methods_answered, methods_called, told_of_called, waiting_answered, waiting_called};
ghost use Rattle.audit_stats.specs.Tables.{counted, has_room, held_by, told_of, with_held};

use crate::events::time_since;
use crate::full::Full;
use crate::keys::{Call, Flow};
use crate::methods::{CallChange, MethodFigures};
use crate::table::Table;
use crate::wait_table::WaitTable;
use std::alloc::AllocError;

/// The figures of methods.
pub(crate) type MethodTable = Table<Flow, MethodFigures>;

/// A call came, which wants an answer or not.
pub(crate) fn called(
    methods: &mut MethodTable,
    waiting: &mut WaitTable,
    now: u64,
    call: Call,
    asks: bool,
) -> Result<Option<Full>, AllocError>
    ensures told { IfOk result (λ told. told
        ≡ told_of_called call asks (held_by flow_cmp methods.old) (held_by call_cmp waiting.old)) }
    ensures methods { OnOk result (held_by flow_cmp methods.new
        ≡ methods_called call asks (held_by flow_cmp methods.old) (held_by call_cmp waiting.old)) }
    ensures waiting { OnOk result (held_by call_cmp waiting.new
        ≡ waiting_called now call asks (held_by flow_cmp methods.old) (held_by call_cmp waiting.old)) }
    ensures err { OnErr result (held_by flow_cmp methods.new ≡ held_by flow_cmp methods.old) }
    ensures err_waiting { OnErr result (held_by call_cmp waiting.new ≡ held_by call_cmp waiting.old) }
    ensures grows { OnErr result
        (called_takes call asks (held_by flow_cmp methods.old) (held_by call_cmp waiting.old) ≡ true) }
{
    if !asks {
        return methods.came(call.flow, CallChange::Called(false), Full::Methods);
    }
    if !methods.has_room(&call.flow) {
        return Ok(methods.tell_full(Full::Methods));
    }
    if !waiting.has_room(&call) {
        methods.count(call.flow, CallChange::Called(false))?;
        return Ok(waiting.tell_full(Full::Calls));
    }
    open(methods, waiting, now, call)?;
    Ok(None)
}

/// A call came that is waited for, and its method has room.
fn open(
    methods: &mut MethodTable,
    waiting: &mut WaitTable,
    now: u64,
    call: Call,
) -> Result<(), AllocError>
    requires { has_room call.flow (held_by flow_cmp methods.old) ≡ true }
    ensures methods { OnOk result (held_by flow_cmp methods.new
        ≡ counted no_calls after_call call.flow (of_call.Called true) (held_by flow_cmp methods.old)) }
    ensures waiting { OnOk result (held_by call_cmp waiting.new ≡ with_held call now (held_by call_cmp waiting.old)) }
    ensures err { OnErr result (held_by flow_cmp methods.new ≡ held_by flow_cmp methods.old) }
    ensures err_waiting { OnErr result (held_by call_cmp waiting.new ≡ held_by call_cmp waiting.old) }
    ensures grows { OnErr result ((is_none (finite.get (held_by flow_cmp methods.old).values call.flow)
        || is_none (finite.get (held_by call_cmp waiting.old).values call)) ≡ true) }
{
    let before = waiting.put(call, now)?;
    match methods.count(call.flow, CallChange::Called(true)) {
        Ok(_) => Ok(()),
        Err(_) => {
            take_back(waiting, call, before);
            Err(AllocError)
        }
    }
}

/// Takes back that a call waits, where this was held of it before.
fn take_back(waiting: &mut WaitTable, call: Call, before: Option<u64>)
    ensures { (old : Waiting) (now : ℕ) → before ≡ finite.get old.values call
        → held_by call_cmp waiting.old ≡ with_held call now old → held_by call_cmp waiting.new ≡ old }
{
    match before {
        Some(at) => {
            let _ = waiting.put(call, at);
        }
        None => waiting.remove(&call),
    }
}

/// An answer to a call came, which is an error or not.
pub(crate) fn answered(
    methods: &mut MethodTable,
    waiting: &mut WaitTable,
    now: u64,
    call: Call,
    fails: bool,
) -> Result<Option<Full>, AllocError>
    ensures told { IfOk result (λ told. told ≡ told_of full.Methods call.flow (held_by flow_cmp methods.old)) }
    ensures methods { OnOk result (held_by flow_cmp methods.new
        ≡ methods_answered now call fails (held_by flow_cmp methods.old) (held_by call_cmp waiting.old)) }
    ensures waiting { OnOk result (held_by call_cmp waiting.new
        ≡ waiting_answered call (held_by flow_cmp methods.old) (held_by call_cmp waiting.old)) }
    ensures err { OnErr result (held_by flow_cmp methods.new ≡ held_by flow_cmp methods.old) }
    ensures err_waiting { OnErr result (held_by call_cmp waiting.new ≡ held_by call_cmp waiting.old) }
    ensures grows { OnErr result
        (answered_takes now call fails (held_by flow_cmp methods.old) (held_by call_cmp waiting.old) ≡ true) }
{
    let latency = time_since(now, waiting.get(&call));
    if !methods.count(call.flow, CallChange::Answered(fails, latency))? {
        return Ok(methods.tell_full(Full::Methods));
    }
    waiting.remove(&call);
    Ok(None)
}
