//! The calls that wait for an answer.
//!
//! A session is looked for one by one, each with a look-up in that map: at most 1024 calls wait, so it ends
//! within 1025 look-ups.
ghost use Rattle.std.specs.Prelude.{◌≡◌, ◌≤◌, ◌+◌, OnOk, OnErr};
ghost use Rattle.std.specs.FinMap as finite;
ghost use Rattle.someip_tables.specs.Lastings.{unexpired};
ghost use Rattle.someip_tables.specs.Tables.{map_of};
ghost use Rattle.someip_rpc.specs.Ids.{call_cmp};
ghost use Rattle.someip_rpc.specs.Calls.{IsFirstFree, is_full, is_pending, pending_after};
ghost use Rattle.someip_rpc.specs.Answers.{is_awaited};

use crate::call::{Awaited, CallKind};
use crate::ids::{CallKey, MessageId};
use someip_tables::{Deadline, DeadlineMap, Moment, is_same_key, next_session};
use std::alloc::AllocError;
use std::net::SocketAddrV4;

/// How many calls may wait at once.
const MOST_PENDING: usize = 1024;

/// The table of calls that wait for an answer.
pub(crate) type Pending = DeadlineMap<CallKey, Awaited>;

/// Whether there is no room for a call of this kind. Entries are only counted one by one where the
/// table has its greatest size.
pub(crate) fn is_full(pending: &Pending, kind: CallKind, now: Moment) -> bool
    ensures { result ≡ is_full kind (unexpired now (map_of call_cmp pending.now)) }
{
    match kind {
        CallKind::Request => {
            pending.len() >= MOST_PENDING && pending.count_unexpired(now, |_| true) >= MOST_PENDING
        }
        CallKind::RequestNoReturn => false,
    }
}

/// Whether a session of a Message ID waits.
fn is_pending(pending: &Pending, message: MessageId, session: u16, now: Moment) -> bool
    ensures { result ≡ is_pending (unexpired now (map_of call_cmp pending.now)) message session }
{
    pending
        .get_unexpired(&CallKey { message, session }, now)
        .is_some()
}

/// The first session that does not wait, from one on. It looks at as many entries as wait under that
/// one and those after it, and at one more.
pub(crate) fn first_free(pending: &Pending, message: MessageId, first: u16, now: Moment) -> u16
    requires few { finite.len (map_of call_cmp pending.now) ≤ 1024 }
    requires given { 1 ≤ first }
    ensures { IsFirstFree (unexpired now (map_of call_cmp pending.now)) message first result }
{
    let mut session = first;
    let mut passed: usize = 0;
    while is_pending(pending, message, session, now) {
        session = next_session(session);
        passed += 1;
    }
    session
}

/// Lets a call wait, if it is one that does.
pub(crate) fn wait(
    pending: &mut Pending,
    kind: CallKind,
    key: CallKey,
    awaited: Awaited,
    timeout_ms: u32,
    now: Moment,
) -> Result<(), AllocError>
    ensures ok { OnOk result (map_of call_cmp pending.new
        ≡ pending_after kind key awaited (now + timeout_ms) now (map_of call_cmp pending.old)) }
    ensures err { OnErr result (pending.new ≡ pending.old) }
{
    match kind {
        CallKind::Request => {
            pending.insert(key, awaited, Deadline::after_millis(now, timeout_ms))?;
            pending.drop_expired(now);
        }
        CallKind::RequestNoReturn => {}
    }
    Ok(())
}

/// Whether the answer to a call is awaited from this endpoint and with this Interface Version.
pub(crate) fn is_awaited(
    pending: &Pending,
    key: CallKey,
    from: SocketAddrV4,
    interface: u8,
    now: Moment,
) -> bool
    ensures { result
        ≡ is_awaited from interface (finite.get (unexpired now (map_of call_cmp pending.now)) key) }
{
    match pending.get_unexpired(&key, now) {
        None => false,
        Some(lasting) => {
            is_same_key(&lasting.value.peer, &from) && lasting.value.interface == interface
        }
    }
}
