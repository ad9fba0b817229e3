//! The account of figures.
ghost use Rattle.std.specs.Prelude.{◌≡◌, ◌<◌, IfErr, IfOk, None, OnErr, OnOk, Some, length, map};
ghost use Rattle.recording_packets.specs.View.{view_chosen};
ghost use Rattle.someipctl_io.specs.declared.Fault.TheVariants.{CannotRead};
ghost use Rattle.someipctl_io.specs.Sending.{Sends, Stops};
ghost use Rattle.someipctl_audit.specs.Scenes.{view_seen};
ghost use Rattle.someipctl_stats.specs.StatsAccount.{BeginsStats, ShowsStats, audit_before, of_sessions, stats_text, view_asked};

use crate::asked::StatsAsked;
use crate::counting::{Counting, count_datagram, count_due};
use crate::figures::put_figures;
use crate::lacking::put_lacks;
use crate::lacks::Lacks;
use audit_rules::Rules;
use audit_stats::{FigureLimits, Figures};
use someip_audit::{Audit, AuditRules, Finding};
use someip_reassembly::Reassembly;
use someip_tables::Moment;
use someipctl_accounts::{Account, give_account};
use someipctl_audit::{SeenDatagram, watch_of};
use someipctl_io::{Buffer, CannotWrite, Form, PrintFault};
use someipctl_recordings::{ShownRecording, StoppedAt};
use std::alloc::{AllocError, Global};
use std::io::{Read, Write};
use std::marker::Model;

/// How many methods, events and ways of Service Discovery are held at most.
const MOST_KEYS: usize = 4096;

/// How many calls may wait for an answer at once.
const MOST_CALLS: usize = 65_536;

/// What was counted so far, the audit behind it, and what is asked for.
#[derive(Drop)]
pub(crate) struct StatsAccount<'a, S: Reassembly> {
    alloc: Global,
    asked: StatsAsked<'a>,
    /// The audit, which begins with the first datagram.
    audit: Option<Audit<S>>,
    /// Room for the findings of a datagram.
    findings: Vec<Finding>,
    counting: Counting,
}

impl<'a, S: Reassembly> Model for StatsAccount<'a, S> {
    ghost use Rattle.std.specs.Coded.{codes};
    ghost use Rattle.audit_stats.specs.Stats.{coded_stats};
    ghost use Rattle.someip_audit.specs.BooksHeld.{coded_held};
    ghost use Rattle.someipctl_stats.specs.StatsAccount.{StatsState, view_asked};

    ghost Value = { StatsState };

    ghost coded = { Prim.hlevel (codes, coded_held, coded_stats) };

    ghost view = { λ s. record { asked = view_asked s.asked; audit = s.audit; counting = s.counting } };
}

impl<'a, S: Reassembly + Drop> Account for StatsAccount<'a, S> {
    ghost use Rattle.someipctl_stats.specs.StatsAccount.{EndsStats, TakesStats};

    ghost takes = { TakesStats };

    ghost ends = { EndsStats };

    fn take<W: Write>(
        &mut self,
        _buffer: &mut Buffer,
        _writer: &mut W,
        seen: &SeenDatagram<'_>,
    ) -> Result<(), PrintFault> {
        if self.audit.is_none() {
            begin(&mut self.audit, self.alloc, &self.asked, seen)?;
        }
        match &mut self.audit {
            Some(audit) => {
                count_datagram(
                    &mut self.counting,
                    self.alloc,
                    &self.asked.wanted,
                    audit,
                    &mut self.findings,
                    seen,
                )?;
                Ok(())
            }
            None => unreachable!(),
        }
    }

    fn end<W: Write>(
        &mut self,
        buffer: &mut Buffer,
        writer: &mut W,
        last: Moment,
    ) -> Result<(), PrintFault> {
        if let Some(audit) = &mut self.audit {
            count_due(&mut self.counting.figures, &self.asked.wanted, audit, last)?;
        }
        put_stats(buffer, writer, self.asked.form, &self.counting)?;
        Ok(())
    }
}

/// The rules of an audit that tells of sessions alone: its judging books hold nothing, and no event is told that has no
/// subscription. What it tells of sessions is what the whole audit tells of them.
fn of_sessions(rules: &AuditRules) -> AuditRules
    ensures { result ≡ of_sessions rules.now }
{
    AuditRules {
        judged: 0,
        settle_ms: u32::MAX,
        ..*rules
    }
}

/// Begins the audit at the moment of the first datagram.
#[cold]
#[inline(never)]
fn begin<S: Reassembly + Drop>(
    audit: &mut Option<Audit<S>>,
    alloc: Global,
    asked: &StatsAsked<'_>,
    seen: &SeenDatagram<'_>,
) -> Result<(), AllocError>
    ensures { OnOk result (audit.new
        ≡ Some (audit_before (view_asked asked.now) None (view_seen seen.entry.now))) }
{
    let watch = watch_of(&asked.wanted);
    let bench = Rules::none(alloc);
    drop(audit.replace(Audit::begin(alloc, &asked.rules, &bench, &watch, seen.now)?));
    Ok(())
}

/// Prints what was counted, and then what it lacks.
fn put_stats<W: Write>(
    buffer: &mut Buffer,
    writer: &mut W,
    form: Form,
    counting: &Counting,
) -> Result<(), CannotWrite>
    ensures ok { OnOk result (Sends (W.contents writer.old) buffer.old (W.contents writer.new) buffer.new
        (stats_text form counting.now)) }
    ensures err { OnErr result (Stops (W.contents writer.old) buffer.old (W.contents writer.new)
        (stats_text form counting.now)) }
{
    put_figures(buffer, writer, form, &counting.figures)?;
    put_lacks(buffer, writer, form, &counting.lacks)
}

/// Writes the figures of recordings, which are read one after the other as one recording: how many calls, answers,
/// events and messages of Service Discovery there were, and how long answers took and events stayed away. The body `S`
/// puts messages together from their segments, for the audit that tells which sessions of events are lost and who began
/// again.
///
/// One packet or block of a recording is held at a time, what the books of the audit hold, and the figures: those of at
/// most 4096 methods, events and ways of Service Discovery each, and 65,536 calls that wait for an answer.
pub fn show_stats<S: Reassembly + Drop, R: Read, W: Write>(
    alloc: Global,
    sources: &mut [R],
    asked: &StatsAsked<'_>,
    writer: &mut W,
) -> Result<ShownRecording, StoppedAt>
    // The figures of what comes before the fault were written, or of all, and what is told is so.
    ensures shown { IfOk result (λ shown. ShowsStats (map R.remaining sources.old) (view_asked asked.now)
        shown (W.contents writer.old) (W.contents writer.new)) }
    // Else a beginning of that text was.
    ensures begun { OnErr result (BeginsStats (map R.remaining sources.old) (view_asked asked.now)
        (W.contents writer.old) (W.contents writer.new)) }
    // Only one of the files can be a file that could not be read.
    ensures unread { IfErr result (λ stopped. stopped.fault ≡ CannotRead → stopped.file < length sources.old) }
{
    let limits = FigureLimits {
        keys: MOST_KEYS,
        calls: MOST_CALLS,
    };
    let mut account = StatsAccount::<S> {
        alloc,
        asked: StatsAsked {
            rules: of_sessions(&asked.rules),
            ..*asked
        },
        audit: None,
        findings: Vec::new(alloc),
        counting: Counting {
            micros: 0,
            figures: Figures::new(alloc, limits),
            lacks: Lacks::none(),
        },
    };
    let shown = give_account(alloc, sources, &asked.wanted.packets, &mut account, writer);
    drop(account);
    shown
}
