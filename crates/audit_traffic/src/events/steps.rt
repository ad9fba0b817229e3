//! What sessions show, and what they make of the last event of a flow.
ghost use Rattle.std.specs.Prelude.{◌≡◌};
ghost use Rattle.audit_traffic.specs.events.EventRules.{ahead, is_behind, is_loss, is_nearer, judged, nearer, past, renewed};

use crate::events::finding::Finding;
use crate::events::last_event::LastEvent;
use someip_tables::next_session;

/// The last event of a flow once another receiver got a session.
pub(crate) fn past(session: u16, last: LastEvent) -> LastEvent
    ensures { result ≡ past session last }
{
    LastEvent {
        session: last.session,
        is_disturbed: last.is_disturbed,
        nearest: nearer(ahead(last.session, session), last.nearest),
    }
}

/// What a session shows, by the last event of its flow.
pub(crate) fn judge(losses: bool, last: Option<LastEvent>, session: u16) -> Option<Finding>
    ensures { result ≡ judged losses last session }
{
    let last = last?;
    if session == last.session {
        return Some(Finding::Repeated);
    }
    if is_behind(last.session, session) {
        return Some(Finding::Behind);
    }
    if losses && is_loss(last, session) {
        return Some(Finding::Gap {
            session,
            expected: next_session(last.session),
        });
    }
    None
}

/// Whether the sessions between the last one and this must be lost.
fn is_loss(last: LastEvent, session: u16) -> bool
    ensures { result ≡ is_loss last session }
{
    if last.is_disturbed || session == next_session(last.session) {
        return false;
    }
    !is_nearer(last.nearest, ahead(last.session, session))
}

/// The last event of a flow once one came.
pub(crate) fn renewed(session: u16, last: Option<LastEvent>) -> LastEvent
    ensures { result ≡ renewed session last }
{
    match last {
        Some(last) if session == last.session || is_behind(last.session, session) => last,
        _ => LastEvent {
            session,
            is_disturbed: false,
            nearest: None,
        },
    }
}

/// The most sessions by which an event that was overtaken is behind the last one.
const MOST_BEHIND: u16 = 64;

/// Whether a session is behind the last one, by 1 to 64.
fn is_behind(last: u16, session: u16) -> bool
    ensures { result ≡ is_behind last session }
{
    let distance = ahead(session, last);
    0 < distance && distance <= MOST_BEHIND
}

/// By how many a session is ahead of another.
pub(crate) fn ahead(last: u16, session: u16) -> u16
    ensures { result ≡ ahead last session }
{
    if session < last {
        0xffff - (last - session)
    } else {
        session - last
    }
}

/// The lesser of two distances ahead, where the first is 0 if there is none.
fn nearer(distance: u16, nearest: Option<u16>) -> Option<u16>
    ensures { result ≡ nearer distance nearest }
{
    match nearest {
        Some(nearest) if distance == 0 || nearest <= distance => Some(nearest),
        None if distance == 0 => None,
        _ => Some(distance),
    }
}

/// Whether there is a distance, and it is less than another.
fn is_nearer(nearest: Option<u16>, distance: u16) -> bool
    ensures { result ≡ is_nearer nearest distance }
{
    match nearest {
        Some(nearest) => nearest < distance,
        None => false,
    }
}
