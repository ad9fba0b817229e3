//! What tells the entries of a table apart.
ghost use Rattle.std.specs.Prelude.{◌≡◌, ◌↔◌, IsTrue};
ghost use Rattle.std.specs.Ordering.{eq_by_cmp};
ghost use Rattle.std.specs.declared.cmp.Ordering.TheVariants.{Equal};
ghost use Rattle.std.proofs.lemmas.Map.Lookups.{exact_pairs, exact_unsigned};
ghost use Rattle.someip_tables.specs.EndpointOrder.{exact_addresses, exact_endpoints};

use std::net::{Ipv4Addr, SocketAddrV4};

/// What tells the entries of a table apart: a value that is copied, with an order in which only equal
/// values tie.
pub trait Key: Ord + Copy {
    ghost exact: { (a b : Self) → Self.cmp a b ≡ Equal → a ≡ b };
}

/// Whether the two are one key.
pub fn is_same_key<K: Key>(a: &K, b: &K) -> bool
    ensures test { result ≡ eq_by_cmp K.cmp a.now b.now }
    ensures same { IsTrue result ↔ (a.now ≡ b.now) }
{
    a.cmp(b).is_eq()
}

impl Key for u8 {
    ghost exact = { exact_unsigned };
}

impl Key for u16 {
    ghost exact = { exact_unsigned };
}

impl Key for u32 {
    ghost exact = { exact_unsigned };
}

impl Key for u64 {
    ghost exact = { exact_unsigned };
}

impl Key for Ipv4Addr {
    ghost exact = { exact_addresses };
}

impl Key for SocketAddrV4 {
    ghost exact = { exact_endpoints };
}

/// By the first, and then by the second.
impl<A: Key, B: Key> Key for (A, B) {
    ghost exact = { exact_pairs A.cmp B.cmp A.exact B.exact };
}
