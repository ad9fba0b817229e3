//! What a sender sent to other destinations.
//!
//! The pairs of a sender stand together in the order of pairs, around the one that is known: so those that are to
//! go are found without a look at the rest.
ghost use Rattle.std.specs.Prelude.{◌≡◌, IfNone, IfSome, None, is_some, true, false};
ghost use Rattle.std.specs.declared.cmp.Ordering.TheVariants.{Less};
ghost use Rattle.std.specs.FinMap as finite;
ghost use Rattle.someip_tables.specs.Endpoints.{address_cmp};
ghost use Rattle.someip_tables.specs.Tables.{map_of};
ghost use Rattle.audit_sd.specs.sessions.OtherPairs.{IsLess};
ghost use Rattle.audit_sd.specs.sessions.SessionBooks.{is_other, pair_cmp};

use crate::sessions::last::Last;
use crate::sessions::pair::Pair;
use std::collections::BTreeMap;
use std::net::Ipv4Addr;
use std::ops::Bound;

/// The last message of each sender to each destination.
pub(crate) type Lasts = BTreeMap<Pair, Last>;

/// Forgets what a sender sent, but for what it sent to one destination. It looks at these alone.
pub(crate) fn forget_others(last: &mut Lasts, sender: Ipv4Addr, destination: Ipv4Addr)
    ensures { map_of pair_cmp last.new.entries
        ≡ finite.retain_keys (map_of pair_cmp last.old.entries) (is_other sender destination) }
{
    forget_after(last, sender, destination);
    forget_before(last, sender, destination);
}

/// Forgets what a sender sent to destinations after one.
fn forget_after(last: &mut Lasts, sender: Ipv4Addr, destination: Ipv4Addr)
    ensures less { IsLess sender destination (map_of pair_cmp last.old.entries) (map_of pair_cmp last.new.entries) }
    ensures none { (to : Ipv4Addr) → address_cmp destination to ≡ Less
        → finite.get (map_of pair_cmp last.new.entries) (sender, to) ≡ None }
{
    while let Some(pair) = next_after(last, sender, destination) {
        last.remove(&pair);
    }
}

/// Forgets what a sender sent to destinations before one.
fn forget_before(last: &mut Lasts, sender: Ipv4Addr, destination: Ipv4Addr)
    ensures less { IsLess sender destination (map_of pair_cmp last.old.entries) (map_of pair_cmp last.new.entries) }
    ensures none { (to : Ipv4Addr) → address_cmp to destination ≡ Less
        → finite.get (map_of pair_cmp last.new.entries) (sender, to) ≡ None }
{
    while let Some(pair) = next_before(last, sender, destination) {
        last.remove(&pair);
    }
}

/// The next pair of a sender after that of a destination.
fn next_after(last: &Lasts, sender: Ipv4Addr, destination: Ipv4Addr) -> Option<Pair>
    ensures other { IfSome result (λ pair. is_other sender destination pair ≡ false) }
    ensures held { IfSome result (λ pair. is_some (finite.get (map_of pair_cmp last.now.entries) pair) ≡ true) }
    ensures none { IfNone result ((to : Ipv4Addr) → address_cmp destination to ≡ Less
        → finite.get (map_of pair_cmp last.now.entries) (sender, to) ≡ None) }
{
    let known = Pair {
        sender,
        destination,
    };
    let beyond = (Bound::Excluded(known), Bound::Unbounded);
    let (pair, _) = last.range(beyond).next()?;
    if pair.is_from(&sender) {
        Some(*pair)
    } else {
        None
    }
}

/// The next pair of a sender before that of a destination.
fn next_before(last: &Lasts, sender: Ipv4Addr, destination: Ipv4Addr) -> Option<Pair>
    ensures other { IfSome result (λ pair. is_other sender destination pair ≡ false) }
    ensures held { IfSome result (λ pair. is_some (finite.get (map_of pair_cmp last.now.entries) pair) ≡ true) }
    ensures none { IfNone result ((to : Ipv4Addr) → address_cmp to destination ≡ Less
        → finite.get (map_of pair_cmp last.now.entries) (sender, to) ≡ None) }
{
    let known = Pair {
        sender,
        destination,
    };
    let before = (Bound::Unbounded, Bound::Excluded(known));
    let (pair, _) = last.range(before).next_back()?;
    if pair.is_from(&sender) {
        Some(*pair)
    } else {
        None
    }
}
