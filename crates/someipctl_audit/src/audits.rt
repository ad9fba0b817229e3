//! The command `audit`: what a recording of network traffic shows against the protocol.
//!
//! K counts all datagrams of the recording, looked at or not, as `recording FILE` without a selection
//! counts them, so that a line can be found in both; the summary counts those that were looked at.
ghost use Rattle.std.specs.Prelude.{◌≡◌, ◌≤◌, ◌<◌, ◌+◌, ◌++◌, ◌^◌, [], IfErr, IfOk, List, None, OnErr, OnOk, Some, length, map};
ghost use Rattle.someipctl_io.specs.declared.Fault.TheVariants.{CannotRead};
ghost use Rattle.someipctl_io.specs.Sending.{Sends, Stops};
ghost use Rattle.recording.specs.View.{view_record};
ghost use Rattle.recording_packets.specs.View.{view_arrival};
ghost use Rattle.someip_audit.specs.Audits.{Report};
ghost use Rattle.recording_packets.specs.Intake.{after_packet, arrived};
ghost use Rattle.someipctl_recordings.specs.Moments.{moment_of};
ghost use Rattle.someipctl_audit.specs.AskedAudits.{learns, view_asked};
ghost use Rattle.someipctl_recordings.specs.Wanted.{ports_of, view_wanted};
ghost use Rattle.someipctl_audit.specs.AuditResult.{BeginsAudit, ShowsAudit};
ghost use Rattle.someipctl_audit.specs.AuditText.{Looked, closing_text};
ghost use Rattle.someipctl_audit.specs.Runs.{IsNothing, PutsAudit, PutsDatagram, PutsEnd, PutsLast, PutsNext, PutsRecord};
ghost use Rattle.someipctl_audit.specs.Runs.{StopsDatagram, StopsEnd, StopsLast, StopsNext, StopsRecord};
ghost use Rattle.someipctl_audit.specs.Scenes.{view_seen};
ghost use Rattle.someipctl_audit.specs.SeenIn.{audit_at, ended_with, seen_next};
ghost use Rattle.someipctl_audit.specs.Notes.{noted_text};
ghost use Rattle.someipctl_audit.specs.Tallies.{Counts};
ghost use Rattle.someipctl_audit.specs.Unjudged.{unjudged_text};

use crate::asked::AuditAsked;
use crate::auditing::{SeenDatagram, put_due, put_seen};
use crate::groups::put_groups;
use crate::noted::Noted;
use crate::summary::put_summary;
use crate::tally::Tally;
use crate::unjudged::put_unjudged;
use crate::weights::put_weights;
use audit_endpoints::WatchRules;
use audit_rules::Rules;
use recording::{Record, RecordingReader, Time};
use recording_packets::{Arrival, Intake, LeftOut};
use someip_audit::{Audit, Finding};
use someip_reassembly::Reassembly;
use someip_tables::Moment;
use someip_tables::hashed::{Numbers, Origin};
use someipctl_io::{Buffer, Fault, Form, Outcome};
use someipctl_recordings::moments::moment_of;
use someipctl_recordings::read_loop::{Coming, next_coming};
use someipctl_recordings::reassembly::socket_of;
use someipctl_recordings::{FileFault, ShownRecording, StoppedAt, Wanted};
use std::alloc::{AllocError, Global};
use std::convert::Infallible;
use std::io::{Read, Write};

/// What is kept from datagram to datagram.
#[derive(Drop)]
pub(crate) struct Auditing<S: Reassembly> {
    alloc: Global,
    /// The audit, which begins with the first datagram.
    audit: Option<Audit<S>>,
    /// Room for the findings of a datagram.
    findings: Vec<Finding>,
}

/// How far a recording is gone over.
#[derive(Drop)]
pub(crate) struct Gone {
    /// How many datagrams came.
    pub(crate) datagrams: usize,
    /// The latest moment.
    pub(crate) now: Moment,
    /// What was counted.
    pub(crate) tally: Tally,
}

/// Writes what recordings show against the protocol, as they are read, one after the other as one recording:
/// a line for each finding, and then the summary. The body `S` puts messages together from their segments. What waits to be written is written
/// before each read.
///
/// One packet or block of a recording is held at a time, and what the books of the audit hold.
pub fn show_audit<S: Reassembly + Drop, R: Read, W: Write>(
    alloc: Global,
    sources: &mut [R],
    asked: &AuditAsked<'_>,
    writer: &mut W,
) -> Result<ShownRecording, StoppedAt>
    // The text of the audit of what comes before the fault was written, or of all, and what is told is so: its
    // outcome says whether there are findings.
    ensures shown { IfOk result (λ shown. ShowsAudit (map R.remaining sources.old) (view_asked asked.now)
        shown (W.contents writer.old) (W.contents writer.new)) }
    // Else a beginning of that text was.
    ensures begun { OnErr result (BeginsAudit (map R.remaining sources.old) (view_asked asked.now)
        (W.contents writer.old) (W.contents writer.new)) }
    // Only one of the files can be a file that could not be read.
    ensures unread { IfErr result (λ stopped. stopped.fault ≡ CannotRead → stopped.file < length sources.old) }
{
    let mut file = 0;
    match show_files::<S, R, W>(alloc, sources, asked, &mut file, writer) {
        Ok(shown) => Ok(shown),
        Err(fault) => Err(StoppedAt { file, fault }),
    }
}

/// The same, which tells the number of the file at which it stopped.
fn show_files<S: Reassembly + Drop, R: Read, W: Write>(
    alloc: Global,
    sources: &mut [R],
    asked: &AuditAsked<'_>,
    file: &mut usize,
    writer: &mut W,
) -> Result<ShownRecording, Fault<Infallible>>
    requires first { file.old ≡ 0 }
    ensures shown { IfOk result (λ shown. ShowsAudit (map R.remaining sources.old) (view_asked asked.now)
        shown (W.contents writer.old) (W.contents writer.new)) }
    ensures begun { OnErr result (BeginsAudit (map R.remaining sources.old) (view_asked asked.now)
        (W.contents writer.old) (W.contents writer.new)) }
    ensures unread { IfErr result (λ fault. fault ≡ CannotRead → file.new < length sources.old) }
{
    let mut buffer = Buffer::new(alloc)?;
    let shown = put_files::<S, R, W>(alloc, sources, asked, file, &mut buffer, writer)?;
    buffer.flush(writer)?;
    Ok(shown)
}

/// Begins an audit, and prints that of files.
fn put_files<S: Reassembly + Drop, R: Read, W: Write>(
    alloc: Global,
    sources: &mut [R],
    asked: &AuditAsked<'_>,
    file: &mut usize,
    buffer: &mut Buffer,
    writer: &mut W,
) -> Result<ShownRecording, Fault<Infallible>>
    requires first { file.old ≡ 0 }
    requires empty { buffer.old ≡ [] }
    ensures puts { IfOk result (λ shown. PutsAudit (map R.remaining sources.old) (view_asked asked.now)
        shown (W.contents writer.old) (W.contents writer.new) buffer.new) }
    ensures begun { OnErr result (BeginsAudit (map R.remaining sources.old) (view_asked asked.now)
        (W.contents writer.old) (W.contents writer.new)) }
    ensures unread { IfErr result (λ fault. fault ≡ CannotRead → file.new < length sources.old) }
{
    let mut gone = Gone::nothing(alloc, asked.group, asked.bench)?;
    let mut auditing = Auditing::<S> {
        alloc,
        audit: None,
        findings: Vec::new(alloc),
    };
    let shown = put_audit(
        sources,
        asked,
        file,
        &mut auditing,
        &mut gone,
        buffer,
        writer,
    );
    drop(auditing);
    shown
}

/// Prints the audit of files, one after the other.
fn put_audit<S: Reassembly + Drop, R: Read, W: Write>(
    sources: &mut [R],
    asked: &AuditAsked<'_>,
    file: &mut usize,
    auditing: &mut Auditing<S>,
    gone: &mut Gone,
    buffer: &mut Buffer,
    writer: &mut W,
) -> Result<ShownRecording, Fault<Infallible>>
    requires first { file.old ≡ 0 }
    requires empty { buffer.old ≡ [] }
    requires begun { auditing.old.audit ≡ None }
    requires nothing { IsNothing asked.now.group asked.now.bench.now gone.old }
    ensures puts { IfOk result (λ shown. PutsAudit (map R.remaining sources.old) (view_asked asked.now)
        shown (W.contents writer.old) (W.contents writer.new) buffer.new) }
    ensures begun { OnErr result (BeginsAudit (map R.remaining sources.old) (view_asked asked.now)
        (W.contents writer.old) (W.contents writer.new)) }
    ensures unread { IfErr result (λ fault. fault ≡ CannotRead → file.new < length sources.old) }
{
    let alloc = auditing.alloc;
    let mut intake = Intake::new(alloc, &asked.wanted.packets);
    let mut recording = RecordingReader::new(alloc);
    while *file < sources.len() {
        let coming = next_coming(&mut recording, &mut sources[*file], buffer, writer)?;
        match coming {
            Coming::Record => {}
            Coming::Fault(fault) => {
                let fault = Some(FileFault { file: *file, fault });
                return put_end(
                    buffer,
                    writer,
                    asked,
                    auditing,
                    gone,
                    intake.left_out(),
                    fault,
                );
            }
            Coming::End => {
                recording = RecordingReader::new(alloc);
                *file += 1;
                continue;
            }
        }
        if let Some(found) = recording.record() {
            put_record(buffer, writer, asked, &found, &mut intake, auditing, gone)?;
        }
    }
    put_end(
        buffer,
        writer,
        asked,
        auditing,
        gone,
        intake.left_out(),
        None,
    )
}

/// Takes a record, and prints what is told of its datagram, if it gives one.
fn put_record<S: Reassembly + Drop, W: Write>(
    buffer: &mut Buffer,
    writer: &mut W,
    asked: &AuditAsked<'_>,
    found: &Record<'_>,
    intake: &mut Intake,
    auditing: &mut Auditing<S>,
    gone: &mut Gone,
) -> Result<(), Fault<Infallible>>
    requires few { gone.old.datagrams ≤ intake.old.frames }
    ensures puts { OnOk result (PutsRecord (view_asked asked.now)
        (arrived (view_asked asked.now).wanted.packets intake.old (view_record found.now))
        auditing.old.audit auditing.new.audit gone.old gone.new
        (W.contents writer.old) buffer.old (W.contents writer.new) buffer.new) }
    ensures took { OnOk result (intake.new
        ≡ after_packet (view_asked asked.now).wanted.packets intake.old (view_record found.now)) }
    ensures few { OnOk result (gone.new.datagrams ≤ intake.new.frames) }
    ensures stops { OnErr result (StopsRecord (view_asked asked.now)
        (arrived (view_asked asked.now).wanted.packets intake.old (view_record found.now))
        auditing.old.audit gone.old (W.contents writer.old) buffer.old (W.contents writer.new)) }
{
    let taken = intake.take(&asked.wanted.packets, found)?;
    match intake.arrival(taken) {
        Some(arrival) => put_datagram(buffer, writer, asked, &arrival, auditing, gone),
        None => Ok(()),
    }
}

/// Prints what is told of the next datagram, and counts it.
fn put_datagram<S: Reassembly + Drop, W: Write>(
    buffer: &mut Buffer,
    writer: &mut W,
    asked: &AuditAsked<'_>,
    arrival: &Arrival<'_>,
    auditing: &mut Auditing<S>,
    gone: &mut Gone,
) -> Result<(), Fault<Infallible>>
    requires few { gone.old.datagrams + 1 < 2 ^ 64 }
    ensures puts { OnOk result (PutsDatagram (view_asked asked.now) (view_arrival arrival.now)
        auditing.old.audit auditing.new.audit gone.old gone.new
        (W.contents writer.old) buffer.old (W.contents writer.new) buffer.new) }
    ensures stops { OnErr result (StopsDatagram (view_asked asked.now) (view_arrival arrival.now)
        auditing.old.audit gone.old (W.contents writer.old) buffer.old (W.contents writer.new)) }
{
    let seen = seen_next(gone.datagrams, gone.now, arrival);
    put_next(buffer, writer, asked, &seen, auditing, &mut gone.tally)?;
    gone.datagrams += 1;
    gone.now = seen.now;
    Ok(())
}

/// The next datagram, where so many came before it, the latest at this moment.
pub fn seen_next<'d>(count: usize, latest: Moment, arrival: &Arrival<'d>) -> SeenDatagram<'d>
    requires { count + 1 < 2 ^ 64 }
    ensures seen { view_seen result ≡ seen_next count latest (view_arrival arrival.now) }
    ensures time { result.time ≡ arrival.now.datagram.time }
{
    let datagram = &arrival.datagram;
    SeenDatagram {
        time: datagram.time,
        now: moment_after(latest, datagram.time),
        origin: Origin {
            numbers: Numbers {
                datagram: count as u64 + 1,
                frame: arrival.frame as u64,
            },
            from: socket_of(datagram.from),
            to: socket_of(datagram.to),
        },
        bytes: datagram.payload,
    }
}

/// The moment of a datagram with this time, where the latest so far is this.
fn moment_after(latest: Moment, time: Option<Time>) -> Moment
    ensures { result ≡ moment_of latest time }
{
    match Moment::new(moment_of(latest.as_millis(), time)) {
        Some(moment) => moment,
        None => unreachable!(),
    }
}

/// Prints what is told of a datagram. The first one begins the audit.
fn put_next<S: Reassembly + Drop, W: Write>(
    buffer: &mut Buffer,
    writer: &mut W,
    asked: &AuditAsked<'_>,
    seen: &SeenDatagram<'_>,
    auditing: &mut Auditing<S>,
    tally: &mut Tally,
) -> Result<(), Fault<Infallible>>
    ensures puts { OnOk result (PutsNext (view_asked asked.now) seen.entry.now auditing.old.audit auditing.new.audit
        tally.old tally.new (W.contents writer.old) buffer.old (W.contents writer.new) buffer.new) }
    ensures stops { OnErr result (StopsNext (view_asked asked.now) seen.entry.now auditing.old.audit tally.old.noted
        (W.contents writer.old) buffer.old (W.contents writer.new)) }
{
    let alloc = auditing.alloc;
    if auditing.audit.is_none() {
        begin_with(&mut auditing.audit, alloc, asked, seen)?;
    }
    let findings = &mut auditing.findings;
    match &mut auditing.audit {
        Some(audit) => { put_seen(buffer, writer, alloc, asked, audit, seen, findings, tally) },
        None => unreachable!(),
    }
}

/// Begins an audit at the moment of a datagram. This happens once, so it stands apart from the way of all
/// other datagrams.
#[cold]
#[inline(never)]
fn begin_with<S: Reassembly + Drop>(
    audit: &mut Option<Audit<S>>,
    alloc: Global,
    asked: &AuditAsked<'_>,
    seen: &SeenDatagram<'_>,
) -> Result<(), AllocError>
    ensures begun { OnOk result (audit.new ≡ Some (audit_at (view_asked asked.now) None (view_seen seen.entry.now))) }
    ensures same { OnErr result (audit.new ≡ audit.old) }
{
    let watch = watch_of(&asked.wanted);
    drop(audit.replace(Audit::begin(alloc, &asked.rules, asked.bench, &watch, seen.now)?));
    Ok(())
}

/// Which datagrams an audit looks at.
pub fn watch_of<'w>(wanted: &Wanted<'w>) -> WatchRules<'w>
    ensures ports { result.ports.now ≡ ports_of (view_wanted wanted.now).ports }
    ensures learns { result.learns ≡ learns (view_wanted wanted.now) }
{
    match wanted.ports {
        Some(ports) => WatchRules {
            ports,
            learns: wanted.learned,
        },
        None => WatchRules {
            ports: &[],
            learns: true,
        },
    }
}

/// Prints what fell due by the last moment, the summary, and what could not be judged.
fn put_end<S: Reassembly + Drop, W: Write>(
    buffer: &mut Buffer,
    writer: &mut W,
    asked: &AuditAsked<'_>,
    auditing: &mut Auditing<S>,
    gone: &mut Gone,
    left_out: LeftOut,
    fault: Option<FileFault>,
) -> Result<ShownRecording, Fault<Infallible>>
    ensures puts { (reports : List Report) (looked : Looked) → Counts gone.old.tally reports looked
        → IfOk result (PutsEnd (view_asked asked.now) left_out gone.old auditing.old.audit reports looked
        (W.contents writer.old) buffer.old (W.contents writer.new) buffer.new) }
    ensures stops { (reports : List Report) (looked : Looked) → Counts gone.old.tally reports looked
        → OnErr result (StopsEnd (view_asked asked.now) left_out gone.old auditing.old.audit reports looked
        (W.contents writer.old) buffer.old (W.contents writer.new)) }
    ensures fault { IfOk result (λ shown. shown.fault ≡ fault) }
    ensures left_out { IfOk result (λ shown. shown.left_out ≡ left_out) }
    ensures read { IfErr result (λ fault. fault ≡ CannotRead → ⊥) }
{
    put_last(
        buffer,
        writer,
        asked,
        &mut auditing.audit,
        gone.now,
        &mut gone.tally,
    )?;
    let fails = gone.tally.noted.weights.fails(auditing.alloc)?;
    put_closing(
        buffer,
        writer,
        asked.form,
        auditing.alloc,
        &gone.tally,
        &left_out,
        &auditing.audit,
    )?;
    Ok(ShownRecording {
        outcome: Outcome::of(fails),
        left_out,
        is_full: false,
        fault,
    })
}

/// Prints the summary of what was counted, how many more of each group there were than are shown, and what an audit
/// could not judge, if it began.
fn put_closing<S: Reassembly + Drop, W: Write>(
    buffer: &mut Buffer,
    writer: &mut W,
    form: Form,
    alloc: Global,
    tally: &Tally,
    left_out: &LeftOut,
    audit: &Option<Audit<S>>,
) -> Result<(), Fault<Infallible>>
    ensures puts { (reports : List Report) (looked : Looked) → Counts tally.now reports looked
        → OnOk result (Sends (W.contents writer.old) buffer.old (W.contents writer.new)
        buffer.new (closing_text form left_out.now (ended_with audit.now looked) tally.now.noted reports)) }
    ensures stops { (reports : List Report) (looked : Looked) → Counts tally.now reports looked
        → OnErr result (Stops (W.contents writer.old) buffer.old (W.contents writer.new)
        (closing_text form left_out.now (ended_with audit.now looked) tally.now.noted reports)) }
    ensures read { IfErr result (λ fault. fault ≡ CannotRead → ⊥) }
{
    put_summary(buffer, writer, form, tally)?;
    put_rest(buffer, writer, form, alloc, tally, left_out, audit)
}

/// Prints how many more of each group there were than are shown, and what an audit could not judge, if it began.
fn put_rest<S: Reassembly + Drop, W: Write>(
    buffer: &mut Buffer,
    writer: &mut W,
    form: Form,
    alloc: Global,
    tally: &Tally,
    left_out: &LeftOut,
    audit: &Option<Audit<S>>,
) -> Result<(), Fault<Infallible>>
    ensures ok { OnOk result (Sends (W.contents writer.old) buffer.old (W.contents writer.new)
        buffer.new (noted_text form tally.now.noted ++ unjudged_text form left_out.now tally.now.passed audit.now)) }
    ensures err { OnErr result (Stops (W.contents writer.old) buffer.old (W.contents writer.new)
        (noted_text form tally.now.noted ++ unjudged_text form left_out.now tally.now.passed audit.now)) }
    ensures read { IfErr result (λ fault. fault ≡ CannotRead → ⊥) }
{
    put_noted(buffer, writer, form, alloc, &tally.noted)?;
    put_unjudged(buffer, writer, form, alloc, left_out, tally.passed, audit)
}

/// Prints how many more of each group there were than are shown, how many findings are allowed, and of which kinds
/// more came than may.
fn put_noted<W: Write>(
    buffer: &mut Buffer,
    writer: &mut W,
    form: Form,
    alloc: Global,
    noted: &Noted,
) -> Result<(), Fault<Infallible>>
    ensures ok { OnOk result (Sends (W.contents writer.old) buffer.old (W.contents writer.new)
        buffer.new (noted_text form noted.now)) }
    ensures err { OnErr result (Stops (W.contents writer.old) buffer.old (W.contents writer.new)
        (noted_text form noted.now)) }
    ensures read { IfErr result (λ fault. fault ≡ CannotRead → ⊥) }
{
    put_groups(buffer, writer, form, &noted.groups)?;
    put_weights(buffer, writer, form, alloc, &noted.weights)
}

/// Prints what fell due by the last moment, if an audit began.
fn put_last<S: Reassembly + Drop, W: Write>(
    buffer: &mut Buffer,
    writer: &mut W,
    asked: &AuditAsked<'_>,
    audit: &mut Option<Audit<S>>,
    now: Moment,
    tally: &mut Tally,
) -> Result<(), Fault<Infallible>>
    ensures puts { OnOk result (PutsLast (view_asked asked.now) now audit.old audit.new tally.old tally.new
        (W.contents writer.old) buffer.old (W.contents writer.new) buffer.new) }
    ensures stops { OnErr result (StopsLast (view_asked asked.now) now audit.old tally.old.noted
        (W.contents writer.old) buffer.old (W.contents writer.new)) }
    ensures read { IfErr result (λ fault. fault ≡ CannotRead → ⊥) }
{
    match audit {
        Some(audit) => put_due(buffer, writer, asked, audit, now, tally),
        None => Ok(()),
    }
}

impl Gone {
    /// Before the first record, by the rules of a bench. Findings may be grouped.
    fn nothing(alloc: Global, group: bool, bench: &Rules) -> Result<Gone, AllocError>
        ensures { IfOk result (IsNothing group bench.now) }
    {
        let tally = Tally::new(alloc, group, bench)?;
        Ok(Gone {
            datagrams: 0,
            now: Moment::start(),
            tally,
        })
    }
}
