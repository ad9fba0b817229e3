//! The order of reassembly keys, by which the slots stand.
ghost use Rattle.std.specs.Prelude.{◌≡◌};
ghost use Rattle.std.specs.Ordering.{nat_cmp};
ghost use Rattle.std.specs.Cmp.Lexicographic.{slice_cmp};
ghost use Rattle.someip_reassembly.specs.Keys.{key_cmp, key_numbers};

use someip_reassembly::ReassemblyKey;
use std::cmp::Ordering;

/// The order of two keys: by source, by destination, and then by all else.
pub(crate) fn compare(a: &ReassemblyKey, b: &ReassemblyKey) -> Ordering
    ensures { result ≡ key_cmp a.now b.now }
{
    let rest = a
        .destination
        .cmp(&b.destination)
        .then(compare_numbers(a, b));
    a.source.cmp(&b.source).then(rest)
}

fn compare_numbers(a: &ReassemblyKey, b: &ReassemblyKey) -> Ordering
    ensures { result ≡ slice_cmp nat_cmp (key_numbers a.now) (key_numbers b.now) }
{
    numbers(a).cmp(&numbers(b))
}

/// All but the endpoints, as numbers.
fn numbers(key: &ReassemblyKey) -> [u16; 7]
    ensures { result ≡ key_numbers key.now }
{
    [
        key.service,
        key.method,
        key.client,
        key.session,
        key.interface.into(),
        key.kind.number().into(),
        key.code.0.into(),
    ]
}
