//! What an audit counts.
//!
//! Where 2^64 things were counted, the audit ends as where memory runs out: no recording has so many
//! datagrams.
ghost use Rattle.std.specs.Prelude.{◌≡◌, ◌≤◌, ◌<◌, ◌+◌, ◌^◌, [], IfOk, OnErr, OnOk};
ghost use Rattle.someipctl_audit.specs.Notes.{is_shown, note, noted_begun};
ghost use Rattle.someipctl_audit.specs.SeenIn.{none_looked};
ghost use Rattle.someipctl_audit.specs.Tallies.{Counts, most_looked, most_told, tally_after, tally_looked, tally_passed};

use crate::noted::Noted;
use audit_rules::{KIND_COUNT, Kind, Rules};
use someip_audit::groups::GroupKey;
use std::alloc::{AllocError, Global};

/// What an audit counted so far.
#[derive(Drop)]
pub(crate) struct Tally {
    /// How many datagrams were looked at.
    pub(crate) datagrams: usize,
    /// How many messages in them can be read.
    pub(crate) messages: usize,
    /// How many datagrams were not looked at.
    pub(crate) passed: usize,
    /// How many findings there were, told or not.
    pub(crate) reports: usize,
    /// How many findings were told.
    pub(crate) findings: usize,
    /// How many of each kind, at its number.
    pub(crate) kinds: [usize; KIND_COUNT],
    /// What is noted of those that were told.
    pub(crate) noted: Noted,
}

impl Tally {
    /// Nothing yet, by the rules of a bench. Findings may be grouped.
    pub(crate) fn new(alloc: Global, group: bool, bench: &Rules) -> Result<Tally, AllocError>
        ensures counts { IfOk result (λ tally. Counts tally [] none_looked) }
        ensures noted { IfOk result (λ tally. tally.noted ≡ noted_begun group bench.now) }
    {
        let noted = Noted::new(alloc, group, bench)?;
        Ok(Tally {
            datagrams: 0,
            messages: 0,
            passed: 0,
            reports: 0,
            findings: 0,
            kinds: [0; KIND_COUNT],
            noted,
        })
    }

    /// Takes note of one more of a group, and says whether it is shown. The error is that memory ran out.
    pub(crate) fn shows(&mut self, key: GroupKey) -> Result<bool, AllocError>
        ensures shown { IfOk result (λ shown. shown ≡ is_shown self.old.noted key) }
        ensures after { IfOk result (λ shown. self.new ≡ record self.old { noted = note key self.old.noted }) }
    {
        self.noted.shows(key)
    }

    /// Counts one more finding of a kind, which is told. The error is that there is no room for its number.
    pub(crate) fn tell(&mut self, kind: Kind) -> Result<(), AllocError>
        ensures counted { OnOk result (self.new ≡ tally_after kind self.old) }
        ensures few { OnOk result (self.new.reports < 2 ^ 64) }
        ensures full { OnErr result (2 ^ 64 ≤ most_told kind self.old) }
    {
        let number = kind.number();
        let reports = one_more(self.reports)?;
        let findings = one_more(self.findings)?;
        let of_kind = one_more(self.kinds[number])?;
        self.reports = reports;
        self.findings = findings;
        self.kinds[number] = of_kind;
        Ok(())
    }

    /// Counts one more finding, which is not told. The error is that there is no room for its number.
    pub(crate) fn pass(&mut self) -> Result<(), AllocError>
        ensures passed { OnOk result (self.new ≡ tally_passed self.old) }
        ensures few { OnOk result (self.new.reports < 2 ^ 64) }
        ensures full { OnErr result (2 ^ 64 ≤ self.old.reports + 1) }
    {
        self.reports = one_more(self.reports)?;
        Ok(())
    }

    /// Counts one more datagram, with so many messages where it is looked at. The error is that there is no
    /// room for their number.
    pub(crate) fn look(&mut self, messages: Option<usize>) -> Result<(), AllocError>
        ensures looked { OnOk result (self.new ≡ tally_looked messages self.old) }
        ensures full { OnErr result (2 ^ 64 ≤ most_looked messages self.old) }
    {
        let Some(messages) = messages else {
            self.passed = one_more(self.passed)?;
            return Ok(());
        };
        let datagrams = one_more(self.datagrams)?;
        self.messages = self.messages.checked_add(messages).ok_or(AllocError)?;
        self.datagrams = datagrams;
        Ok(())
    }
}

/// The next number, if there is room for it.
fn one_more(number: usize) -> Result<usize, AllocError>
    ensures next { IfOk result (λ next. next ≡ number + 1) }
    ensures full { OnErr result (2 ^ 64 ≤ number + 1) }
{
    number.checked_add(1).ok_or(AllocError)
}
