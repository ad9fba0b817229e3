//! What is remembered, by the turn of each packet, and the turns by packet.
ghost use Rattle.std.specs.Prelude.{◌≡◌, ◌+◌, ◌∷◌, ◌++◌, [], drop};
ghost use Rattle.std.specs.Prelude.{Some, None, IfOk, OnOk, OnErr};
ghost use Rattle.recording_packets.specs.copies.Remembered.{others, kept, has_to_go};
ghost use Rattle.recording_packets.specs.copies.Remembered.{cost_of_all, packet_cost};
ghost use Rattle.recording_packets.specs.copies.Owned.{packet_of};
ghost use Rattle.recording_packets.specs.copies.Tables.{HasTurns, IsInTurn, moment_of, turn_of};
ghost use Rattle.recording_packets.specs.copies.Tables.{remembered_in, value_of, was_within};

use crate::copies::owned::SharedPacket;
use crate::copies::sightings::{Sighting, Sightings};
use crate::copies::turns::Turns;
use crate::copies::{BUDGET, PACKET_COST};
use std::alloc::AllocError;

/// Remembers a packet as the youngest, at the next turn. Tells the moment at which it was seen
/// last, if it was remembered. What is refused because memory ran out leaves all as it was.
pub(crate) fn note(
    sightings: &mut Sightings,
    turns: &mut Turns,
    sighting: Sighting,
) -> Result<Option<u64>, AllocError>
    requires in_turn { IsInTurn sightings.old.next sightings.old.entries }
    requires has_turns { HasTurns turns.old sightings.old.entries }
    ensures ok { OnOk result (remembered_in sightings.new.entries
        ≡ others (packet_of sighting.packet.owned.value) (remembered_in sightings.old.entries)
        ++ value_of sighting ∷ []) }
    ensures earlier { IfOk result (λ earlier. earlier
        ≡ moment_of (packet_of sighting.packet.owned.value) sightings.old.entries) }
    ensures in_turn { IsInTurn sightings.new.next sightings.new.entries }
    ensures err { OnErr result (sightings.new.entries ≡ sightings.old.entries) }
    ensures has_turns { HasTurns turns.new sightings.new.entries }
{
    match turns.get(&sighting.packet) {
        Some(turn) => renew(sightings, turns, turn, sighting),
        None => {
            add(sightings, turns, sighting)?;
            Ok(None)
        }
    }
}

/// Remembers a packet that was not remembered.
fn add(sightings: &mut Sightings, turns: &mut Turns, sighting: Sighting) -> Result<(), AllocError>
    requires in_turn { IsInTurn sightings.old.next sightings.old.entries }
    requires has_turns { HasTurns turns.old sightings.old.entries }
    requires absent { turn_of (packet_of sighting.packet.owned.value) sightings.old.entries ≡ None }
    ensures ok { OnOk result (sightings.new.entries
        ≡ sightings.old.entries ++ (sightings.old.next, sighting) ∷ []) }
    ensures in_turn { IsInTurn sightings.new.next sightings.new.entries }
    ensures err { OnErr result (sightings.new.entries ≡ sightings.old.entries) }
    ensures has_turns { HasTurns turns.new sightings.new.entries }
{
    let packet = sighting.packet.share()?;
    let next = sightings.next();
    sightings.push(sighting)?;
    if turns.insert(packet, next).is_err() {
        sightings.remove(next);
        return Err(AllocError);
    }
    Ok(())
}

/// Remembers a packet anew that is remembered at a turn, with the payload that it had.
fn renew(
    sightings: &mut Sightings,
    turns: &mut Turns,
    turn: u64,
    sighting: Sighting,
) -> Result<Option<u64>, AllocError>
    requires in_turn { IsInTurn sightings.old.next sightings.old.entries }
    requires has_turns { HasTurns turns.old sightings.old.entries }
    requires present { turn_of (packet_of sighting.packet.owned.value) sightings.old.entries
        ≡ Some turn }
    ensures ok { OnOk result (remembered_in sightings.new.entries
        ≡ others (packet_of sighting.packet.owned.value) (remembered_in sightings.old.entries)
        ++ value_of sighting ∷ []) }
    ensures earlier { IfOk result (λ earlier. earlier
        ≡ moment_of (packet_of sighting.packet.owned.value) sightings.old.entries) }
    ensures in_turn { IsInTurn sightings.new.next sightings.new.entries }
    ensures err { OnErr result (sightings.new.entries ≡ sightings.old.entries) }
    ensures has_turns { HasTurns turns.new sightings.new.entries }
{
    let Some(earlier) = sightings.get(turn) else {
        // Never: a turn that stands by its packet has a sighting.
        return Err(AllocError);
    };
    let moment = earlier.moment;
    let packet = earlier.packet.share()?;
    let again = Sighting {
        moment: sighting.moment,
        packet,
    };
    let next = sightings.next();
    sightings.push(again)?;
    sightings.remove(turn);
    turns.set(&sighting.packet, next);
    Ok(Some(moment))
}

/// The oldest are forgotten, as many as have to go. Tells what the others count.
pub(crate) fn forget(
    sightings: &mut Sightings,
    turns: &mut Turns,
    cost: u64,
    window: u64,
    now: u64,
) -> u64
    requires cost { cost ≡ cost_of_all (remembered_in sightings.old.entries) }
    requires in_turn { IsInTurn sightings.old.next sightings.old.entries }
    requires has_turns { HasTurns turns.old sightings.old.entries }
    ensures left { remembered_in sightings.new.entries
        ≡ kept window now (remembered_in sightings.old.entries) }
    ensures cost { result ≡ cost_of_all (remembered_in sightings.new.entries) }
    ensures in_turn { IsInTurn sightings.new.next sightings.new.entries }
    ensures has_turns { HasTurns turns.new sightings.new.entries }
{
    let mut left = cost;
    while must_go(sightings, left, window, now) {
        left -= forget_oldest(sightings, turns);
    }
    left
}

/// Whether the oldest has to go.
fn must_go(sightings: &Sightings, cost: u64, window: u64, now: u64) -> bool
    requires { cost ≡ cost_of_all (remembered_in sightings.now.entries) }
    ensures { result ≡ has_to_go window now (remembered_in sightings.now.entries) }
{
    match sightings.first() {
        Some(oldest) => now.saturating_sub(oldest.moment) > window || cost > BUDGET,
        None => false,
    }
}

/// Forgets the oldest. Tells what it counted.
fn forget_oldest(sightings: &mut Sightings, turns: &mut Turns) -> u64
    requires in_turn { IsInTurn sightings.old.next sightings.old.entries }
    requires has_turns { HasTurns turns.old sightings.old.entries }
    ensures left { sightings.new.entries ≡ drop 1 sightings.old.entries }
    ensures next { sightings.new.next ≡ sightings.old.next }
    ensures cost { cost_of_all (remembered_in sightings.old.entries)
        ≡ result + cost_of_all (remembered_in sightings.new.entries) }
    ensures has_turns { HasTurns turns.new sightings.new.entries }
{
    match sightings.pop_first() {
        Some((turn, oldest)) => {
            turns.remove(&oldest.packet, turn);
            cost_of(&oldest.packet)
        }
        None => 0,
    }
}

/// What a packet counts, in bytes.
pub(crate) fn cost_of(packet: &SharedPacket) -> u64
    ensures { result ≡ packet_cost (packet_of packet.now.owned.value) }
{
    packet.owned.payload.len() as u64 + PACKET_COST
}

/// Whether a packet was seen at a moment that lies at most the window before `now`.
pub(crate) fn is_recent(window: u64, now: u64, seen: Option<u64>) -> bool
    ensures { result ≡ was_within window now seen }
{
    seen.is_some_and(|moment| now.saturating_sub(moment) <= window)
}
