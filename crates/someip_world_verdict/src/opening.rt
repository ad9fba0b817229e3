//! Which exchanges a step opens.
ghost use Rattle.std.specs.Prelude.{◌≡◌, OnOk};
ghost use Rattle.someip_world_verdict.specs.Booking.{opened_by, opened_by_all, subscribed};
ghost use Rattle.someip_world_verdict.specs.Views.{view_openings};

use crate::said::Said;
use crate::taken::Taken;
use sd_core::Eventgroup;
use someip_tables::{put_value, value_at};
use someip_world_rules::exchanges::{ExchangeKey, Side, SubscriptionExchange};
use std::alloc::AllocError;
use std::collections::BTreeMap;

/// What is said in a step opens exchanges: a request its call, and a Subscribe with another counter than
/// the last one of its eventgroup a subscription.
pub(crate) fn open_all(
    taken: &mut Taken,
    counters: &mut BTreeMap<Eventgroup, u8>,
    step: usize,
    said: &[Said],
) -> Result<(), AllocError>
    ensures { OnOk result (view_openings taken.new counters.new
        ≡ opened_by_all step said.now (view_openings taken.old counters.old)) }
{
    for one in said {
        open(taken, counters, step, one)?;
    }
    Ok(())
}

/// One thing that is said.
fn open(
    taken: &mut Taken,
    counters: &mut BTreeMap<Eventgroup, u8>,
    step: usize,
    said: &Said,
) -> Result<(), AllocError>
    ensures { OnOk result (view_openings taken.new counters.new
        ≡ opened_by step said.now (view_openings taken.old counters.old)) }
{
    match (said.naming.side, said.naming.key) {
        (Side::Opener, ExchangeKey::Call(_)) => taken.take(said.naming.key, step),
        (Side::Opener, ExchangeKey::Subscription(subscription)) if said.subscribes => {
            subscribe(taken, counters, step, subscription)
        }
        _ => Ok(()),
    }
}

/// A Subscribe.
fn subscribe(
    taken: &mut Taken,
    counters: &mut BTreeMap<Eventgroup, u8>,
    step: usize,
    subscription: SubscriptionExchange,
) -> Result<(), AllocError>
    ensures { OnOk result (view_openings taken.new counters.new
        ≡ subscribed step subscription (view_openings taken.old counters.old)) }
{
    if value_at(counters, subscription.eventgroup) == Some(subscription.counter) {
        return Ok(());
    }
    taken.take(ExchangeKey::Subscription(subscription), step)?;
    put_value(counters, subscription.eventgroup, subscription.counter)
}
