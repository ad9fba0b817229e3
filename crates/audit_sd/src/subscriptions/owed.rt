//! How many answers are owed to the Subscribes of a subscription.
ghost use Rattle.std.specs.Prelude.{◌≡◌, ◌≢◌, None, OnErr, OnOk, not};
ghost use Rattle.std.specs.FinMap as finite;
ghost use Rattle.someip_tables.specs.Retained.{retain};
ghost use Rattle.someip_tables.specs.Tables.{map_of};
ghost use Rattle.audit_sd.specs.subscriptions.SubscriptionKeys.{subscription_cmp};
ghost use Rattle.audit_sd.specs.subscriptions.OwedAnswers.{once_answered, once_asked, one_less, one_more};
ghost use Rattle.audit_sd.specs.subscriptions.SubscribeRules.{is_of};

use crate::subscriptions::key::SubscriptionKey;
use audit_index::{Owned, OwnedTable};
use someip_tables::Waits;
use std::alloc::AllocError;
use std::net::Ipv4Addr;

/// How many Subscribes of a subscription had no answer so far.
#[derive(Clone, Copy, Debug, PartialEq, Eq)]
pub struct Owed {
    /// How many answers are owed, from 1 on. More than 4,294,967,295 are not counted.
    pub answers: u32,
}

/// What is owed waits for no moment: an answer may come at any time.
impl Waits for Owed {
    ghost use Rattle.audit_sd.specs.subscriptions.OwedAnswers.{waits_for_none};

    ghost moment = { waits_for_none };

    fn waits_for(&self) -> Option<u64> {
        None
    }
}

/// It is owed by the server to the client.
impl Owned<SubscriptionKey> for Owed {
    ghost use Rattle.audit_sd.specs.subscriptions.SubscribeRules.{owners_of};

    ghost owners = { owners_of };

    fn owners(&self, key: &SubscriptionKey) -> (Ipv4Addr, Ipv4Addr) {
        (key.client, key.server)
    }
}

/// A Subscribe comes: one more answer is owed.
pub(crate) fn ask(
    owed: &mut OwnedTable<SubscriptionKey, Owed>,
    key: SubscriptionKey,
) -> Result<(), AllocError>
    ensures ok { OnOk result
        (map_of subscription_cmp owed.new ≡ once_asked key (map_of subscription_cmp owed.old)) }
    ensures err { OnErr result (owed.new ≡ owed.old) }
    ensures grows { OnErr result
        (finite.get (map_of subscription_cmp owed.old) key ≡ None) }
{
    owed.insert(key, one_more(owed.get(&key)))
}

/// An answer comes: one less is owed.
pub(crate) fn answer(owed: &mut OwnedTable<SubscriptionKey, Owed>, key: &SubscriptionKey)
    ensures { map_of subscription_cmp owed.new
        ≡ once_answered key.now (map_of subscription_cmp owed.old) }
{
    match one_less(owed.get(key)) {
        Some(left) => keep(owed, *key, left),
        None => owed.remove(key),
    }
}

/// So many answers are still owed to a subscription that answers were owed to. It takes no memory.
fn keep(owed: &mut OwnedTable<SubscriptionKey, Owed>, key: SubscriptionKey, left: Owed)
    requires { finite.get (map_of subscription_cmp owed.now) key ≢ None }
    ensures { map_of subscription_cmp owed.new
        ≡ finite.insert (map_of subscription_cmp owed.old) key left }
{
    let _ = owed.insert(key, left);
}

/// An address began again: no answer from it or to it is owed.
pub(crate) fn forgive(owed: &mut OwnedTable<SubscriptionKey, Owed>, address: Ipv4Addr)
    ensures { map_of subscription_cmp owed.new
        ≡ retain (map_of subscription_cmp owed.old) (λ key _. not (is_of address key)) }
{
    owed.forget(address);
}

/// What is owed once one more Subscribe came.
fn one_more(owed: Option<Owed>) -> Owed
    ensures { result ≡ one_more owed }
{
    let answers = match owed {
        Some(owed) => owed.answers.saturating_add(1),
        None => 1,
    };
    Owed { answers }
}

/// What is owed once one more answer came.
fn one_less(owed: Option<Owed>) -> Option<Owed>
    ensures { result ≡ one_less owed }
{
    match owed {
        Some(owed) if owed.answers > 1 => Some(Owed {
            answers: owed.answers - 1,
        }),
        _ => None,
    }
}
