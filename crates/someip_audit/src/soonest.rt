//! The first of several moments.
ghost use Rattle.std.specs.Prelude.{◌≡◌};
ghost use Rattle.someip_tables.specs.Agendas.{is_awaited};
ghost use Rattle.someip_tables.specs.Waits.{earlier};
ghost use Rattle.someip_audit.specs.FellDues.{soonest, unless_ended};

use someip_tables::Moment;

/// The earlier of two moments, or the one that there is.
pub(crate) fn earlier(a: Option<u64>, b: Option<u64>) -> Option<u64>
    ensures { result ≡ earlier a b }
{
    match (a, b) {
        (Some(a), Some(b)) => Some(if a <= b { a } else { b }),
        (Some(a), None) => Some(a),
        (None, b) => b,
    }
}

/// A moment, or one before it if there is one.
pub(crate) fn soonest(now: Moment, next: Option<u64>) -> Moment
    ensures { result ≡ soonest now next }
{
    match next {
        Some(at) if at <= now.as_millis() => Moment::new(at).unwrap_or(now),
        _ => now,
    }
}

/// Whether something waits for exactly this moment.
pub(crate) fn is_at(next: Option<u64>, at: Moment) -> bool
    ensures { result ≡ is_awaited at next }
{
    match next {
        Some(moment) => moment == at.as_millis(),
        None => false,
    }
}

/// A moment, unless something ends at it or before.
pub(crate) fn unless_ended(at: Option<u64>, end: Option<u64>) -> Option<u64>
    ensures { result ≡ unless_ended at end }
{
    match (at, end) {
        (Some(at), Some(end)) if end <= at => None,
        (at, _) => at,
    }
}
