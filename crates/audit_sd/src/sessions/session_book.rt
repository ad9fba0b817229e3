//! The last message of each sender to each destination.
ghost use Rattle.std.specs.Prelude.{◌≡◌, ◌≤◌, ◌||◌, None, IfOk, OnErr, true, false};
ghost use Rattle.std.specs.FinMap as finite;
ghost use Rattle.someip_tables.specs.Tables.{map_of};
ghost use Rattle.someip_tables.specs.hashed.Rooms.{may_hold};
ghost use Rattle.sd_session.specs.Sessions.{following, is_reboot};
ghost use Rattle.sd_session.specs.Peers.{shows_reboot};
ghost use Rattle.audit_sd.specs.sessions.SessionRules.{as_last, counts, is_little_below, is_overtaken};
ghost use Rattle.audit_sd.specs.sessions.SessionRules.{is_overtaken_by, is_same_stamp, judged, stamp_of};
ghost use Rattle.audit_sd.specs.sessions.SessionRules.{told_uncounted};
ghost use Rattle.audit_sd.specs.sessions.SessionBooks.{last_of, needs_memory, no_sessions, pair_cmp};
ghost use Rattle.audit_sd.specs.sessions.SessionBooks.{pairs_after, sessions_after, told_by};

use crate::sessions::finding::Finding;
use crate::sessions::last::Last;
use crate::sessions::message::SdMessage;
use crate::sessions::others::forget_others;
use crate::sessions::pair::Pair;
use sd_session::Stamp;
use someip_tables::hashed::Room;
use std::alloc::{AllocError, Global};
use std::collections::BTreeMap;
use std::marker::Model;

/// The last message of each sender to each destination, as far as a recording was read.
#[derive(Drop)]
pub struct SessionBook {
    room: Room,
    overtake_ms: u32,
    last: BTreeMap<Pair, Last>,
}

impl Model for SessionBook {
    ghost use Rattle.std.specs.Prelude.{◌≤◌};
    ghost use Rattle.std.specs.FinMap as finite;
    ghost use Rattle.someip_tables.specs.Tables.{map_of};
    ghost use Rattle.audit_sd.specs.sessions.SessionBooks.{Sessions, coded_sessions, pair_cmp};

    ghost Value = { Sessions };

    ghost coded = { coded_sessions };

    ghost view = { λ b. record {
      limit = b.room.limit;
      overtake_ms = b.overtake_ms;
      last = map_of pair_cmp b.last.entries;
      told_full = b.room.told_full;
    } };

    ghost invariant = { λ b. finite.len (map_of pair_cmp b.last.entries) ≤ b.room.limit };
}

impl SessionBook {
    /// A book that holds at most so many pairs of sender and destination, and none yet. A message may be
    /// overtaken by one that comes at most so many milliseconds before it. It takes no memory.
    pub fn new(alloc: Global, limit: usize, overtake_ms: u32) -> SessionBook
        ensures { result ≡ no_sessions limit overtake_ms }
    {
        SessionBook {
            room: Room::new(limit),
            overtake_ms,
            last: BTreeMap::new(alloc),
        }
    }

    /// Takes note of a message, and says what it shows. One with session 0 is passed over: no node sends
    /// it, and one that gets it drops it. One that was overtaken is told, and passed over too: the last one
    /// of its pair stays the last, and nothing is forgotten.
    ///
    /// A sender that began again is told once: all that was kept of it goes, whatever the destination,
    /// and the message is the first of its destination. The first message of a sender to a destination
    /// is not judged. Memory is taken for such a one alone, and what is refused for want of it leaves
    /// the book as it was.
    pub fn saw(&mut self, message: SdMessage) -> Result<Option<Finding>, AllocError>
        ensures told { IfOk result (λ told. told ≡ told_by message self.old) }
        ensures after { IfOk result (λ told. self.new ≡ sessions_after message self.old) }
        ensures err { OnErr result (self.new ≡ self.old) }
        ensures grows { OnErr result (needs_memory message self.old ≡ true) }
    {
        let before = last_of(&self.last, &message);
        if !counts(self.overtake_ms, before, &message) {
            return Ok(told_uncounted(&message));
        }
        if !may_hold(&self.last, self.room, &message) {
            return Ok(self.room.tell_full(Finding::Full));
        }
        enter(&mut self.last, &message)
    }

    /// How many pairs of sender and destination there are: no more than the book's limit.
    pub fn len(&self) -> usize
        ensures count { result ≡ finite.len self.now.last }
        ensures few { result ≤ self.now.limit }
    {
        self.last.len()
    }
}

/// Whether the pair of a message may be held.
fn may_hold(last: &BTreeMap<Pair, Last>, room: Room, message: &SdMessage) -> bool
    ensures { result
        ≡ may_hold room.limit (map_of pair_cmp last.now.entries) (message.now.from, message.now.to) }
{
    room.may_hold(last.contains_key(&pair_of(message)), last.len())
}

/// The pair of a message.
fn pair_of(message: &SdMessage) -> Pair
    ensures { result ≡ (message.now.from, message.now.to) }
{
    Pair {
        sender: message.from,
        destination: message.to,
    }
}

/// The last message of the pair of a message.
fn last_of(last: &BTreeMap<Pair, Last>, message: &SdMessage) -> Option<Last>
    ensures { result ≡ last_of message.now (map_of pair_cmp last.now.entries) }
{
    last.get(&pair_of(message)).copied()
}

/// Whether a message counts: it has a session, and was not overtaken.
fn counts(overtake_ms: u32, last: Option<Last>, message: &SdMessage) -> bool
    ensures { result ≡ counts overtake_ms last message.now }
{
    message.stamp.session != 0 && !is_overtaken(overtake_ms, last, message)
}

/// Whether the last message overtook a later one.
fn is_overtaken(overtake_ms: u32, last: Option<Last>, message: &SdMessage) -> bool
    ensures { result ≡ is_overtaken overtake_ms last message.now }
{
    match last {
        Some(last) => is_overtaken_by(overtake_ms, &last, message),
        None => false,
    }
}

fn is_overtaken_by(overtake_ms: u32, last: &Last, message: &SdMessage) -> bool
    ensures { result ≡ is_overtaken_by overtake_ms last.now message.now }
{
    last.stamp.reboot == message.stamp.reboot
        && is_little_below(message.stamp.session, last.stamp.session)
        && message.at.as_millis() <= last.at.as_millis() + u64::from(overtake_ms)
}

/// Whether a session is one of the 8 before another.
fn is_little_below(session: u16, last: u16) -> bool
    ensures { result ≡ is_little_below session last }
{
    session < last && last - session <= 8
}

/// What a message shows that does not count.
fn told_uncounted(message: &SdMessage) -> Option<Finding>
    ensures { result ≡ told_uncounted message.now }
{
    if message.stamp.session == 0 {
        return None;
    }
    Some(Finding::Overtaken {
        stamp: message.stamp,
    })
}

/// Enters a message that counts whose pair is held, or that there is room for, and says what it shows.
fn enter(
    last: &mut BTreeMap<Pair, Last>,
    message: &SdMessage,
) -> Result<Option<Finding>, AllocError>
    ensures told { IfOk result (λ told. told
        ≡ judged (stamp_of (last_of message.now (map_of pair_cmp last.old.entries))) message.now.stamp) }
    ensures after { IfOk result (λ told. map_of pair_cmp last.new.entries
        ≡ pairs_after message.now (map_of pair_cmp last.old.entries)) }
    ensures err { OnErr result (map_of pair_cmp last.new.entries ≡ map_of pair_cmp last.old.entries) }
    ensures grows { OnErr result (last_of message.now (map_of pair_cmp last.old.entries) ≡ None) }
{
    let stamp = message.stamp;
    let newest = Last {
        stamp,
        at: message.at,
    };
    let Ok(known) = last.insert(pair_of(message), newest) else {
        return Err(AllocError);
    };
    let known = stamp_of(known);
    if shows_reboot(known, stamp) {
        forget_others(last, message.from, message.to);
    }
    Ok(judge(known, stamp))
}

/// The stamp of the last message.
fn stamp_of(last: Option<Last>) -> Option<Stamp>
    ensures { result ≡ stamp_of last }
{
    match last {
        Some(last) => Some(last.stamp),
        None => None,
    }
}

/// What a message with this stamp shows, by the last one of its sender to its destination.
fn judge(last: Option<Stamp>, stamp: Stamp) -> Option<Finding>
    ensures { result ≡ judged last stamp }
{
    let last = last?;
    let expected = following(last);
    if is_reboot(last, stamp) {
        Some(Finding::Reboot)
    } else if is_same_stamp(stamp, expected) {
        None
    } else {
        Some(Finding::NotNext { stamp, expected })
    }
}

/// Whether a message with this stamp shows that its sender began again.
fn shows_reboot(last: Option<Stamp>, stamp: Stamp) -> bool
    ensures { result ≡ shows_reboot last stamp }
{
    match last {
        Some(last) => is_reboot(last, stamp),
        None => false,
    }
}

/// Whether the later of two messages shows that their sender began again: its Reboot flag is set, and
/// that of the earlier was not, or the session did not rise.
fn is_reboot(earlier: Stamp, later: Stamp) -> bool
    ensures { result ≡ is_reboot earlier later }
{
    later.reboot && (!earlier.reboot || later.session <= earlier.session)
}

/// The stamp of the message after one: after session FFFF comes 1, and the Reboot flag ends there.
fn following(stamp: Stamp) -> Stamp
    ensures { result ≡ following stamp }
{
    match stamp.session.checked_add(1) {
        Some(session) => Stamp {
            session,
            reboot: stamp.reboot,
        },
        None => Stamp {
            session: 1,
            reboot: false,
        },
    }
}

fn is_same_stamp(a: Stamp, b: Stamp) -> bool
    ensures { result ≡ is_same_stamp a b }
{
    a == b
}
