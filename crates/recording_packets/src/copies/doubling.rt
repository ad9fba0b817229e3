//! Twice as many slots for the turns of packets.
ghost use Rattle.std.specs.Prelude.{◌≡◌, ◌≤◌, ◌+◌, ◌*◌, ◌∷◌, ◌++◌, [], OnOk, OnErr, length};
ghost use Rattle.std.specs.Prelude.{vec_capacity, vec_len};
ghost use Rattle.std.specs.List.{flat_map};
ghost use Rattle.recording_packets.specs.copies.Slots.{halves, is_second};

use crate::copies::turns::{Place, slot_of};
use std::alloc::{AllocError, Global};

/// Doubles slots. The shift is the one that tells the slot of a packet then: what stands in a slot now
/// stands in the first or the second of the two then. Out of memory leaves them as they were.
pub(crate) fn double(
    alloc: Global,
    slots: &mut Vec<Option<Place>>,
    shift: u32,
) -> Result<(), AllocError>
    ensures ok { OnOk result (slots.new.items ≡ flat_map (halves shift) slots.old.items) }
    ensures err { OnErr result (slots.new.items ≡ slots.old.items) }
{
    let room = slots.len().checked_mul(2).ok_or(AllocError)?;
    let mut more = Vec::with_capacity(alloc, room)?;
    move_over(slots, &mut more, shift);
    *slots = more;
    Ok(())
}

/// Moves what stands in slots into twice as many, which are put behind those that are there.
fn move_over(slots: &mut [Option<Place>], more: &mut Vec<Option<Place>>, shift: u32)
    requires { vec_len more.old + 2 * length slots.old ≤ vec_capacity more.old }
    ensures { more.new.items ≡ more.old.items ++ flat_map (halves shift) slots.old }
{
    for place in slots.iter_mut() {
        put_halves(more, shift, place.take());
    }
}

/// Puts two slots behind those that are there, for what stood in one.
fn put_halves(more: &mut Vec<Option<Place>>, shift: u32, place: Option<Place>)
    requires { vec_len more.old + 2 ≤ vec_capacity more.old }
    ensures items { more.new.items ≡ more.old.items ++ halves shift place }
    ensures len { vec_len more.new ≡ vec_len more.old + 2 }
    ensures capacity { vec_capacity more.new ≡ vec_capacity more.old }
{
    let (first, second) = halves(shift, place);
    more.push_reserved(first);
    more.push_reserved(second);
}

/// What stands in either of the two slots for one.
fn halves(shift: u32, place: Option<Place>) -> (Option<Place>, Option<Place>)
    ensures { result.0 ∷ result.1 ∷ [] ≡ halves shift place }
{
    if is_second(shift, &place) {
        (None, place)
    } else {
        (place, None)
    }
}

/// Whether what stands in a slot stands in the second of the two for it.
fn is_second(shift: u32, place: &Option<Place>) -> bool
    ensures { result ≡ is_second shift place.now }
{
    match place {
        Some(place) => slot_of(shift, &place.packet) % 2 == 1,
        None => false,
    }
}
