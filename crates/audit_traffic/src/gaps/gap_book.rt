//! The sessions of events that are missing.
ghost use Rattle.std.specs.Prelude.{◌≡◌, ◌≢◌, ◌≤◌, IfOk, OnErr, is_some, true, false};
ghost use Rattle.std.specs.FinMap as finite;
ghost use Rattle.someip_tables.specs.Waits.{HoldsFrom, due_by};
ghost use Rattle.audit_traffic.specs.gaps.GapRules.{waits_until};
ghost use Rattle.audit_traffic.specs.gaps.GapTables.{FallsDue, IsPartOfGap, after_due, after_gap, has_room};
ghost use Rattle.audit_traffic.specs.gaps.GapTables.{told_of_gap, without_missing, without_sender};

use crate::gaps::awaited::Awaited;
use crate::gaps::finding::{Finding, LostEvent};
use crate::gaps::gap::Gap;
use crate::gaps::key::MissingEvent;
use crate::gaps::waiting::{first_lost, forget, wait_for_gap};
use audit_index::OwnedTable;
use someip_tables::Moment;
use someip_tables::hashed::Room;
use std::alloc::{AllocError, Global};
use std::marker::Model;
use std::net::Ipv4Addr;

/// The sessions of events that are missing, and may still come.
#[derive(Drop)]
pub struct GapBook {
    room: Room,
    overtake_ms: u32,
    waiting: OwnedTable<MissingEvent, Awaited>,
}

impl Model for GapBook {
    ghost use Rattle.std.specs.Prelude.{◌≤◌};
    ghost use Rattle.std.specs.FinMap as finite;
    ghost use Rattle.someip_tables.specs.Tables.{map_of};
    ghost use Rattle.audit_traffic.specs.gaps.MissingKeys.{missing_cmp};
    ghost use Rattle.audit_traffic.specs.gaps.GapTables.{Gaps, coded_gaps};

    ghost Value = { Gaps };

    ghost coded = { coded_gaps };

    ghost view = { λ b. record {
      limit = b.room.limit;
      overtake_ms = b.overtake_ms;
      waiting = map_of missing_cmp b.waiting;
      told_full = b.room.told_full;
    } };

    ghost invariant = { λ b. finite.len (map_of missing_cmp b.waiting) ≤ b.room.limit };
}

impl GapBook {
    /// A book that holds at most so many sessions and runs, and none yet. A session may come so many milliseconds
    /// after the event that skipped it. It takes no memory.
    pub fn new(alloc: Global, limit: usize, overtake_ms: u32) -> GapBook
        ensures { result ≡ record {
          limit = limit;
          overtake_ms = overtake_ms;
          waiting = finite.empty;
          told_full = false;
        } }
    {
        GapBook {
            room: Room::new(limit),
            overtake_ms,
            waiting: OwnedTable::new(alloc),
        }
    }

    /// Takes note of sessions that an event skipped, and says what this shows at once.
    ///
    /// At most 64 of them wait each until it comes, or is lost; a session that waits already goes on as it does.
    /// More wait as one run, which no event ends. Memory is taken for those that begin to wait alone; where it
    /// runs out, some of them wait, from the first on, and a run does not.
    pub fn skipped(&mut self, now: Moment, gap: &Gap) -> Result<Option<Finding>, AllocError>
        ensures told { IfOk result (λ told. told ≡ told_of_gap gap.now self.old) }
        ensures after { IfOk result (λ told. self.new ≡ after_gap now gap.now self.old) }
        ensures err { OnErr result (IsPartOfGap now gap.now self.old self.new) }
        ensures grows { OnErr result (has_room gap.now self.old ≡ true) }
    {
        if self.room.limit - self.waiting.len() < usize::from(gap.key_count()) {
            return Ok(self.room.tell_full(Finding::Full));
        }
        let awaited = Awaited {
            shown_by: gap.shown_by,
            numbers: gap.numbers,
            until: now.as_millis() + u64::from(self.overtake_ms),
        };
        wait_for_gap(&mut self.waiting, gap, awaited)?;
        Ok(None)
    }

    /// Takes note that a session came, and says whether it was missing: then it waits no more. What fell due
    /// before is asked for before, by [`GapBook::due`]. It takes no memory.
    pub fn came(&mut self, key: &MissingEvent) -> bool
        ensures told { result ≡ is_some (finite.get self.old.waiting key.now) }
        ensures after { self.new ≡ without_missing key.now self.old }
    {
        let is_missing = self.waiting.get(key).is_some();
        self.waiting.remove(key);
        is_missing
    }

    /// Takes note that the senders at an address began again: what was missing of them waits no more. It looks at
    /// this alone, and takes no memory.
    pub fn forget(&mut self, address: Ipv4Addr)
        ensures { self.new ≡ without_sender address self.old }
    {
        forget(&mut self.waiting, address);
    }

    /// The session or the run that is lost first, by deadline and then by session, if one is. It waits no more then.
    /// Whoever goes over a recording asks until nothing is left, with the moment of each datagram and before
    /// it. It takes no memory.
    pub fn due(&mut self, now: Moment) -> Option<LostEvent>
        ensures told { FallsDue now self.old.waiting result }
        ensures after { self.new ≡ after_due result self.old }
    {
        let told = first_lost(&self.waiting, now);
        if let Some(lost) = told {
            self.waiting.remove(&lost.key);
        }
        told
    }

    /// When [`GapBook::due`] next tells a session, in milliseconds: the first deadline, if one waits.
    pub fn next_due(&self) -> Option<u64>
        ensures { HoldsFrom result (λ now. due_by waits_until now self.now.waiting ≢ finite.empty) }
    {
        match self.waiting.first_due() {
            Some(due) => Some(due.at),
            None => None,
        }
    }

    /// How many sessions and runs wait: no more than the book's limit.
    pub fn len(&self) -> usize
        ensures count { result ≡ finite.len self.now.waiting }
        ensures few { result ≤ self.now.limit }
    {
        self.waiting.len()
    }
}
