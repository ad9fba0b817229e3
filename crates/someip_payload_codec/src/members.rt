//! The members of a tagged structure: where each stands, and whether it was read.
//!
//! The member of an item is found in a map of Data IDs, made once for each structure that is read: each
//! look-up costs the logarithm of their number, and an item that no member has costs no memory. A value has
//! a slot for each member of its shape, also where it is absent: so one byte of a payload may cost as many
//! slots as the shape has members.

ghost use Rattle.std.specs.Prelude.{◌≡◌, map, length, None, IfOk};
ghost use Rattle.someip_payload_values.specs.View.{all_members, slots_of};
ghost use Rattle.someip_payload_codec.specs.Grammar.{has_required};
ghost use Rattle.someip_payload_codec.specs.Indexes.{HasIndexes};

use someip_payload_values::{Member, Value};
use std::alloc::{AllocError, Global};
use std::collections::BTreeMap;

/// At which index the member with each Data ID stands.
pub(crate) fn indexes_of(
    alloc: Global,
    members: &[Member],
) -> Result<BTreeMap<u16, usize>, AllocError>
    ensures { IfOk result (λ indexes. HasIndexes (all_members members.now) indexes) }
{
    let mut indexes = BTreeMap::new(alloc);
    for i in (0..members.len()).rev() {
        indexes.insert(members[i].id, i)?;
    }
    Ok(indexes)
}

/// As many members, of which none was read.
pub(crate) fn empty_slots(
    alloc: Global,
    members: &[Member],
) -> Result<Vec<Option<Value>>, AllocError>
    ensures { IfOk result (λ slots. slots.items ≡ map (λ _. None) members.now) }
{
    let mut slots = Vec::with_capacity(alloc, members.len())?;
    for _ in 0..members.len() {
        slots.push(None)?;
    }
    Ok(slots)
}

/// Whether each member that is absent is optional.
pub(crate) fn have_required(members: &[Member], slots: &[Option<Value>]) -> bool
    requires { length slots.now ≡ length members.now }
    ensures { result ≡ has_required (all_members members.now) (slots_of slots.now) }
{
    for i in 0..members.len() {
        if !members[i].is_optional && slots[i].is_none() {
            return false;
        }
    }
    true
}
