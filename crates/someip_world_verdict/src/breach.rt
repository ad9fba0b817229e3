//! What breaks clean reuse of keys.
ghost use Rattle.std.specs.Prelude.{◌≡◌};
ghost use Rattle.std.specs.List.{list_any};
ghost use Rattle.someip_world_verdict.specs.Books.{is_after, is_breach, is_mixed, is_old, since_of};
ghost use Rattle.someip_world_verdict.specs.Views.{view_life, view_note, view_taken};

use crate::life::{Arrival, Life};
use crate::note::Note;
use crate::said::Said;
use crate::taken::Taken;
use someip_tables::Moment;
use someip_world_rules::exchanges::Side;

/// Whether the delivery of a datagram to a node breaks clean reuse.
pub(crate) fn is_breach(timeout_ms: u32, taken: &Taken, life: &Life, note: &Note) -> bool
    ensures { result
        ≡ is_breach timeout_ms (view_taken taken.now) (view_life life.now) (view_note note.now) }
{
    has_old(taken, note)
        || is_mixed(
            timeout_ms,
            life.clock,
            life.arrival(note.stream),
            note.payload,
        )
}

/// Whether a datagram says something that belongs to an exchange whose key a newer one has taken.
fn has_old(taken: &Taken, note: &Note) -> bool
    ensures { result
        ≡ list_any (is_old (view_taken taken.now) (view_note note.now)) note.now.said.items }
{
    for said in &note.said {
        if is_old(taken, note, said) {
            return true;
        }
    }
    false
}

/// Whether what is said belongs to such an exchange.
fn is_old(taken: &Taken, note: &Note, said: &Said) -> bool
    ensures { result ≡ is_old (view_taken taken.now) (view_note note.now) said.now }
{
    is_after(since_of(note, said.naming.side), taken.at(said.naming.key))
}

/// As of which step one side means what it says.
fn since_of(note: &Note, side: Side) -> Option<usize>
    ensures { result ≡ since_of (view_note note.now) side }
{
    match side {
        Side::Opener => Some(note.step),
        Side::Answerer => note.answers,
    }
}

/// Whether a key was taken after a step.
fn is_after(since: Option<usize>, at: Option<usize>) -> bool
    ensures { result ≡ is_after since at }
{
    match (since, at) {
        (Some(since), Some(at)) => since < at,
        _ => false,
    }
}

/// Whether another payload came under the reassembly key, less than the timeout ago.
fn is_mixed(timeout_ms: u32, now: Moment, arrival: Option<Arrival>, payload: Option<usize>) -> bool
    ensures { result ≡ is_mixed timeout_ms now arrival payload }
{
    match (arrival, payload) {
        (Some(arrival), Some(payload)) => {
            arrival.payload != payload
                && now.as_millis() < arrival.moment.as_millis() + u64::from(timeout_ms)
        }
        _ => false,
    }
}
