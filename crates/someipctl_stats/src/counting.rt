//! What counts of a recording.
ghost use Rattle.std.specs.Prelude.{◌≡◌, ◌∷◌, [], OnOk};
ghost use Rattle.std.specs.List.{flat_map};
ghost use Rattle.someip_wire.specs.View.{view, view_item};
ghost use Rattle.someip_wire.specs.Reading.{items_of};
ghost use Rattle.someipctl_recordings.specs.Wanted.{view_wanted};
ghost use Rattle.someipctl_audit.specs.Scenes.{view_seen};
ghost use Rattle.someipctl_stats.specs.Counting.{CountsDue, HearsSo, after_facts, due_facts, item_facts, message_facts, shown_facts, with_finding, with_findings};

use crate::lacks::Lacks;
use crate::micros::micros_after;
use crate::shown::{Shown, shown_of, shown_of_due, subject_of, way_of};
use audit_endpoints::is_sd;
use audit_stats::Figures;
use recording::Time;
use someip_audit::{Audit, FellDue, Finding};
use someip_reassembly::Reassembly;
use someip_tables::Moment;
use someip_tables::hashed::Origin;
use someip_wire::{Message, Messages, WireError};
use someipctl_audit::subject::{Subject, is_told};
use someipctl_audit::{SeenDatagram, origin_of_due, time_at};
use someipctl_recordings::Wanted;
use std::alloc::{AllocError, Global};

/// What is counted of a recording so far.
#[derive(Drop)]
pub(crate) struct Counting {
    /// The latest moment, in microseconds since 1970.
    pub(crate) micros: u64,
    /// The figures.
    pub(crate) figures: Figures,
    /// What they lack.
    pub(crate) lacks: Lacks,
}

/// Counts what a datagram brings: what fell due by its moment, its messages, if it is looked at, and what they show.
/// `findings` is room for this.
pub(crate) fn count_datagram<S: Reassembly + Drop>(
    counting: &mut Counting,
    alloc: Global,
    wanted: &Wanted<'_>,
    audit: &mut Audit<S>,
    findings: &mut Vec<Finding>,
    seen: &SeenDatagram<'_>,
) -> Result<(), AllocError>
    ensures { OnOk result (HearsSo (view_wanted wanted.now) seen.entry.now.time (view_seen seen.entry.now)
        audit.old audit.new counting.old counting.new) }
{
    counting.micros = micros_after(counting.micros, seen.time);
    count_due(&mut counting.figures, wanted, audit, seen.now)?;
    findings.clear();
    let messages = audit.saw(alloc, seen.now, &seen.origin, seen.bytes, findings)?;
    if messages.is_some() {
        count_messages(&mut counting.figures, wanted, counting.micros, seen)?;
    }
    count_findings(counting, wanted, seen.time, &seen.origin, findings)
}

/// Counts what fell due by a moment.
pub(crate) fn count_due<S: Reassembly + Drop>(
    figures: &mut Figures,
    wanted: &Wanted<'_>,
    audit: &mut Audit<S>,
    now: Moment,
) -> Result<(), AllocError>
    ensures { OnOk result (CountsDue (view_wanted wanted.now) now audit.old audit.new figures.old figures.new) }
{
    for _ in 0..u64::MAX {
        let Some(told) = audit.due(now) else {
            return Ok(());
        };
        count_told(figures, wanted, &told)?;
    }
    // So many things do not fall due.
    Err(AllocError)
}

/// Counts something that fell due.
fn count_told(figures: &mut Figures, wanted: &Wanted<'_>, told: &FellDue) -> Result<(), AllocError>
    ensures { OnOk result (figures.new ≡ after_facts (due_facts (view_wanted wanted.now) told.now) figures.old) }
{
    let FellDue::EventLost(lost) = told else {
        return Ok(());
    };
    let time = Some(time_at(lost.at));
    count_shown(
        figures,
        wanted,
        time,
        &origin_of_due(told),
        &shown_of_due(told),
    )
}

/// Counts the messages of a datagram at a moment in microseconds.
fn count_messages(
    figures: &mut Figures,
    wanted: &Wanted<'_>,
    micros: u64,
    seen: &SeenDatagram<'_>,
) -> Result<(), AllocError>
    ensures { OnOk result (figures.new ≡ after_facts (flat_map
        (item_facts (view_wanted wanted.now) micros seen.entry.now.time seen.entry.now.origin)
        (items_of seen.entry.now.bytes.now)) figures.old) }
{
    for item in Messages::new(seen.bytes) {
        count_item(figures, wanted, micros, seen.time, &seen.origin, &item)?;
    }
    Ok(())
}

/// Counts an item of a datagram, if it is a message.
fn count_item(
    figures: &mut Figures,
    wanted: &Wanted<'_>,
    micros: u64,
    time: Option<Time>,
    origin: &Origin,
    item: &Result<Message<'_>, WireError>,
) -> Result<(), AllocError>
    ensures { OnOk result (figures.new ≡ after_facts
        (item_facts (view_wanted wanted.now) micros time origin.now (view_item item.now)) figures.old) }
{
    match item {
        Ok(message) => count_message(figures, wanted, micros, time, origin, message),
        Err(_) => Ok(()),
    }
}

/// Counts a message, if it is asked for.
fn count_message(
    figures: &mut Figures,
    wanted: &Wanted<'_>,
    micros: u64,
    time: Option<Time>,
    origin: &Origin,
    message: &Message<'_>,
) -> Result<(), AllocError>
    ensures { OnOk result (figures.new ≡ after_facts
        (message_facts (view_wanted wanted.now) micros time origin.now (view message.now)) figures.old) }
{
    let header = &message.header;
    let subject = Subject::call(header.service, header.method, header.client);
    if !is_told(wanted, time, origin, Some(subject)) {
        return Ok(());
    }
    if is_sd(origin, header) {
        figures.saw_discovery(way_of(origin))?;
    } else {
        figures.saw(micros, origin.from, origin.to, message)?;
    }
    Ok(())
}

/// Counts what a datagram with this time shows.
fn count_findings(
    counting: &mut Counting,
    wanted: &Wanted<'_>,
    time: Option<Time>,
    origin: &Origin,
    findings: &[Finding],
) -> Result<(), AllocError>
    ensures { OnOk result (counting.new
        ≡ with_findings (view_wanted wanted.now) time origin.now findings.now counting.old) }
{
    for finding in findings {
        count_finding(counting, wanted, time, origin, finding)?;
    }
    Ok(())
}

/// Counts what a finding shows, or takes note that a book is full.
fn count_finding(
    counting: &mut Counting,
    wanted: &Wanted<'_>,
    time: Option<Time>,
    origin: &Origin,
    finding: &Finding,
) -> Result<(), AllocError>
    ensures { OnOk result (counting.new
        ≡ with_finding (view_wanted wanted.now) time origin.now finding.now counting.old) }
{
    let shown = shown_of(origin, finding);
    if let Shown::Full(lack) = shown {
        counting.lacks.note(lack);
        return Ok(());
    }
    count_shown(&mut counting.figures, wanted, time, origin, &shown)
}

/// Counts what the audit shows, if it is asked for.
fn count_shown(
    figures: &mut Figures,
    wanted: &Wanted<'_>,
    time: Option<Time>,
    origin: &Origin,
    shown: &Shown,
) -> Result<(), AllocError>
    ensures { OnOk result (figures.new
        ≡ after_facts (shown_facts (view_wanted wanted.now) time origin.now shown.now) figures.old) }
{
    if !is_told(wanted, time, origin, subject_of(shown)) {
        return Ok(());
    }
    match shown {
        Shown::Lost(flow, number) => figures.lost(*flow, *number)?,
        Shown::BeganAgain(way) => figures.began_again(*way)?,
        Shown::Full(_) | Shown::Nothing => None,
    };
    Ok(())
}
