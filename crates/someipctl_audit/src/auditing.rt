//! What is printed of one datagram, and of what falls due before it.
ghost use Rattle.std.specs.Prelude.{◌≡◌, ◌∷◌, ◌+◌, ◌<◌, ◌^◌, [], IfErr, None, OnErr, OnOk, map};
ghost use Rattle.someipctl_io.specs.declared.Fault.TheVariants.{CannotRead};
ghost use Rattle.someip_audit.specs.Audits.{fell, found};
ghost use Rattle.someipctl_io.specs.Sending.{Sends, Stops};
ghost use Rattle.someipctl_audit.specs.AskedAudits.{view_asked};
ghost use Rattle.someipctl_audit.specs.AuditText.{due_line, finding_line, is_report_allowed, line_if};
ghost use Rattle.someipctl_audit.specs.Scenes.{view_seen};
ghost use Rattle.someipctl_audit.specs.Steps.{CountsMore, PutsDue, PutsSeen, StopsDue, StopsSeen};
ghost use Rattle.someipctl_audit.specs.Steps.{fell_told, lines_at, told_at};

use crate::asked::AuditAsked;
use crate::group::{group_of_due, group_of_found, kind_of, kind_of_due};
use crate::lines::{is_due_told, is_found_told, put_fell_due, put_found};
use crate::tally::Tally;
use recording::Time;
use someip_audit::{Audit, FellDue, Finding};
use someip_reassembly::Reassembly;
use someip_tables::Moment;
use someip_tables::hashed::Origin;
use someipctl_io::{Buffer, CannotWrite, Fault};
use std::alloc::Global;
use std::convert::Infallible;
use std::io::Write;

/// A datagram of a recording, as an audit sees it.
#[derive(Clone, Copy)]
pub struct SeenDatagram<'d> {
    /// Its time of the recording.
    pub time: Option<Time>,
    /// Its moment.
    pub now: Moment,
    /// Its numbers and its endpoints.
    pub origin: Origin,
    /// Its bytes.
    pub bytes: &'d [u8],
}

/// Prints what is told of a datagram: what fell due by its moment, and then what it shows. `findings` is
/// room for this.
pub(crate) fn put_seen<S: Reassembly + Drop, W: Write>(
    buffer: &mut Buffer,
    writer: &mut W,
    alloc: Global,
    asked: &AuditAsked<'_>,
    audit: &mut Audit<S>,
    seen: &SeenDatagram<'_>,
    findings: &mut Vec<Finding>,
    tally: &mut Tally,
) -> Result<(), Fault<Infallible>>
    ensures puts { OnOk result (PutsSeen (view_asked asked.now) seen.entry.now.time (view_seen seen.entry.now)
        audit.old audit.new tally.old tally.new (W.contents writer.old) buffer.old (W.contents writer.new) buffer.new) }
    ensures stops { OnErr result (StopsSeen (view_asked asked.now) seen.entry.now.time (view_seen seen.entry.now) audit.old
        tally.old.noted (W.contents writer.old) buffer.old (W.contents writer.new)) }
{
    put_due(buffer, writer, asked, audit, seen.now, tally)?;
    findings.clear();
    let messages = audit.saw(alloc, seen.now, &seen.origin, seen.bytes, findings)?;
    tally.look(messages)?;
    put_all_found(
        buffer,
        writer,
        asked,
        seen.time,
        &seen.origin,
        findings,
        tally,
    )
}

/// Prints everything that fell due by a moment, where it is told.
pub(crate) fn put_due<S: Reassembly + Drop, W: Write>(
    buffer: &mut Buffer,
    writer: &mut W,
    asked: &AuditAsked<'_>,
    audit: &mut Audit<S>,
    now: Moment,
    tally: &mut Tally,
) -> Result<(), Fault<Infallible>>
    ensures puts { OnOk result (PutsDue (view_asked asked.now) now audit.old audit.new tally.old tally.new
        (W.contents writer.old) buffer.old (W.contents writer.new) buffer.new) }
    ensures stops { OnErr result (StopsDue (view_asked asked.now) now audit.old tally.old.noted
        (W.contents writer.old) buffer.old (W.contents writer.new)) }
    ensures read { IfErr result (λ fault. fault ≡ CannotRead → ⊥) }
{
    loop {
        let Some(told) = audit.due(now) else {
            return Ok(());
        };
        tell_due(buffer, writer, asked, &told, tally)?;
    }
}

/// Prints the line of what fell due, and counts it, if it is told.
fn tell_due<W: Write>(
    buffer: &mut Buffer,
    writer: &mut W,
    asked: &AuditAsked<'_>,
    told: &FellDue,
    tally: &mut Tally,
) -> Result<(), Fault<Infallible>>
    ensures ok { OnOk result (Sends (W.contents writer.old) buffer.old (W.contents writer.new) buffer.new
        (lines_at (view_asked asked.now) None tally.old.noted (fell told.now ∷ []))) }
    ensures counts { OnOk result (CountsMore tally.old tally.new (fell_told (view_asked asked.now) (told.now ∷ []))) }
    ensures more { OnOk result (tally.new.reports ≡ tally.old.reports + 1) }
    ensures few { OnOk result (tally.new.reports < 2 ^ 64) }
    ensures err { OnErr result (Stops (W.contents writer.old) buffer.old (W.contents writer.new)
        (lines_at (view_asked asked.now) None tally.old.noted (fell told.now ∷ []))) }
    ensures read { IfErr result (λ fault. fault ≡ CannotRead → ⊥) }
{
    if !is_due_told(asked, told) {
        tally.pass()?;
        return Ok(());
    }
    let is_shown = tally.shows(group_of_due(told))?;
    show_due(buffer, writer, asked, told, is_shown)?;
    tally.tell(kind_of_due(told))?;
    Ok(())
}

/// Prints the line of what fell due, if it is shown.
fn show_due<W: Write>(
    buffer: &mut Buffer,
    writer: &mut W,
    asked: &AuditAsked<'_>,
    told: &FellDue,
    is_shown: bool,
) -> Result<(), CannotWrite>
    ensures ok { OnOk result (Sends (W.contents writer.old) buffer.old (W.contents writer.new) buffer.new
        (line_if is_shown (due_line asked.now.form asked.now.frames
        (is_report_allowed (view_asked asked.now) (fell told.now)) told.now))) }
    ensures err { OnErr result (Stops (W.contents writer.old) buffer.old (W.contents writer.new)
        (line_if is_shown (due_line asked.now.form asked.now.frames
        (is_report_allowed (view_asked asked.now) (fell told.now)) told.now))) }
{
    if !is_shown {
        return Ok(());
    }
    put_fell_due(buffer, writer, asked, told)?;
    Ok(())
}

/// Prints those findings of a datagram with this time that are told.
fn put_all_found<W: Write>(
    buffer: &mut Buffer,
    writer: &mut W,
    asked: &AuditAsked<'_>,
    time: Option<Time>,
    origin: &Origin,
    findings: &[Finding],
    tally: &mut Tally,
) -> Result<(), Fault<Infallible>>
    ensures ok { OnOk result (Sends (W.contents writer.old) buffer.old (W.contents writer.new) buffer.new
        (lines_at (view_asked asked.now) time tally.old.noted (map (found origin.now) findings.now))) }
    ensures counts { OnOk result (CountsMore tally.old tally.new
        (told_at (view_asked asked.now) time (map (found origin.now) findings.now))) }
    ensures err { OnErr result (Stops (W.contents writer.old) buffer.old (W.contents writer.new)
        (lines_at (view_asked asked.now) time tally.old.noted (map (found origin.now) findings.now))) }
{
    for finding in findings {
        tell_found(buffer, writer, asked, time, origin, finding, tally)?;
    }
    Ok(())
}

/// Prints the line of a finding of a datagram with this time, and counts it, if it is told.
fn tell_found<W: Write>(
    buffer: &mut Buffer,
    writer: &mut W,
    asked: &AuditAsked<'_>,
    time: Option<Time>,
    origin: &Origin,
    finding: &Finding,
    tally: &mut Tally,
) -> Result<(), Fault<Infallible>>
    ensures ok { OnOk result (Sends (W.contents writer.old) buffer.old (W.contents writer.new) buffer.new
        (lines_at (view_asked asked.now) time tally.old.noted (found origin.now finding.now ∷ []))) }
    ensures counts { OnOk result (CountsMore tally.old tally.new
        (told_at (view_asked asked.now) time (found origin.now finding.now ∷ []))) }
    ensures err { OnErr result (Stops (W.contents writer.old) buffer.old (W.contents writer.new)
        (lines_at (view_asked asked.now) time tally.old.noted (found origin.now finding.now ∷ []))) }
{
    if !is_found_told(asked, time, origin, finding) {
        tally.pass()?;
        return Ok(());
    }
    let is_shown = tally.shows(group_of_found(origin, finding))?;
    show_found(buffer, writer, asked, time, origin, finding, is_shown)?;
    tally.tell(kind_of(finding))?;
    Ok(())
}

/// Prints the line of a finding of a datagram with this time, if it is shown.
fn show_found<W: Write>(
    buffer: &mut Buffer,
    writer: &mut W,
    asked: &AuditAsked<'_>,
    time: Option<Time>,
    origin: &Origin,
    finding: &Finding,
    is_shown: bool,
) -> Result<(), CannotWrite>
    ensures ok { OnOk result (Sends (W.contents writer.old) buffer.old (W.contents writer.new) buffer.new
        (line_if is_shown (finding_line asked.now.form asked.now.frames
        (is_report_allowed (view_asked asked.now) (found origin.now finding.now)) time origin.now finding.now))) }
    ensures err { OnErr result (Stops (W.contents writer.old) buffer.old (W.contents writer.new)
        (line_if is_shown (finding_line asked.now.form asked.now.frames
        (is_report_allowed (view_asked asked.now) (found origin.now finding.now)) time origin.now finding.now))) }
{
    if !is_shown {
        return Ok(());
    }
    put_found(buffer, writer, asked, time, origin, finding)?;
    Ok(())
}
