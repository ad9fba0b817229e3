//! The commands over recordings: `recording`, `audit`, `extract`, `services` and `stats`.
use crate::failure::{Failure, Refusal};
use crate::options::{
    Selection, SharedOptions, line_form, selection_of, stats_texts_of, texts_of, whole_of,
};
use crate::source::{open_sources, rules_at, types_at};
use recording_packets::LeftOut;
use someip_tp::IntervalPool;
use someipctl_audit::{AuditAsked, rules_in, show_audit};
use someipctl_extract::{Losses, extract_recording};
use someipctl_io::Outcome;
use someipctl_recordings::{
    Asked, FileFault, Heads, ShownRecording, StoppedAt, Wanted, show_recording,
};
use someipctl_services::{ServicesAsked, show_services};
use someipctl_stats::{StatsAsked, show_stats};
use someipctl_words::{
    AuditOptions, ExtractOptions, RecordingOptions, ReportOptions, StatsOptions,
};
use std::io;
use std::rt::Files;

/// How the commands are used.
const RECORDING_USAGE: &str = "recording [OPTIONS] <FILE>...";

const AUDIT_USAGE: &str = "audit [OPTIONS] <FILE>...";

const EXTRACT_USAGE: &str = "extract [OPTIONS] <FILE>...";

const SERVICES_USAGE: &str = "services [OPTIONS] <FILE>...";

const STATS_USAGE: &str = "stats [OPTIONS] <FILE>...";

/// Shows recordings, and then tells on standard error what was left out of them, and their fault, if they have
/// one. Whatever is wrong with the options is told before a file is looked at, and whatever is wrong with the
/// types file before the recordings are.
pub(crate) fn show_recorded<'p, R: Files + Print + Eprint + Input + AllocGlobal>(
    rt: &R,
    paths: &[&'p str],
    options: RecordingOptions<'p>,
) -> Result<Outcome, Failure<'p>> {
    let selection = selection_of(
        rt,
        SharedOptions {
            usage: RECORDING_USAGE,
            ports: options.ports,
            service: options.service,
            packets: options.packets,
            choice: options.choice,
        },
    )?;
    show_wanted(rt, paths, options, selection.wanted())
}

/// The same, where what is asked for is right.
fn show_wanted<'p, R: Files + Print + Eprint + Input + AllocGlobal>(
    rt: &R,
    paths: &[&'p str],
    options: RecordingOptions<'p>,
    wanted: Wanted<'_>,
) -> Result<Outcome, Failure<'p>> {
    let whole = whole_of(&options)?;
    let types = types_at(rt, options.types)?;
    let asked = Asked {
        wanted,
        types: &types,
        form: line_form(options.json),
        heads: Heads {
            frame: options.frames,
            endpoints: options.endpoints,
        },
        whole,
    };
    let mut sources = open_sources(rt, paths)?;
    let mut writer = io::writer(rt);
    let shown = show_recording::<IntervalPool, _, _>(
        rt.alloc(),
        sources.as_mut_slice(),
        &asked,
        &mut writer,
    );
    if let Ok(shown) = &shown {
        tell_left_out(rt, &shown.left_out);
    }
    end_recording(rt, paths, shown)
}

/// Shows the audit of recordings, whose summary tells what was left out of them, and then tells on standard error
/// their fault, if they have one. Whatever is wrong with the options is told before a recording is looked at.
pub(crate) fn audit_recorded<'p, R: Files + Print + Eprint + Input + AllocGlobal>(
    rt: &R,
    paths: &[&'p str],
    options: AuditOptions<'p>,
) -> Result<Outcome, Failure<'p>> {
    let selection = selection_of(
        rt,
        SharedOptions {
            usage: AUDIT_USAGE,
            ports: options.ports,
            service: options.service,
            packets: options.packets,
            choice: options.choice,
        },
    )?;
    audit_wanted(rt, paths, options, selection.wanted())
}

/// The same, where what is asked for is right.
fn audit_wanted<'p, R: Files + Print + Eprint + Input + AllocGlobal>(
    rt: &R,
    paths: &[&'p str],
    options: AuditOptions<'p>,
    wanted: Wanted<'_>,
) -> Result<Outcome, Failure<'p>> {
    let rules = match rules_in(&texts_of(&options.settings)) {
        Ok(rules) => rules,
        Err(error) => return Err(Failure::BadSetting(error, AUDIT_USAGE)),
    };
    let bench = rules_at(rt, options.rules)?;
    let asked = AuditAsked {
        rules,
        bench: &bench,
        wanted,
        form: line_form(options.json),
        frames: options.frames,
        group: options.group,
    };
    let mut sources = open_sources(rt, paths)?;
    let mut writer = io::writer(rt);
    let shown = show_audit::<IntervalPool, _, _>(
        rt.alloc(),
        sources.as_mut_slice(),
        &asked,
        &mut writer,
    );
    end_recording(rt, paths, shown)
}

/// Writes the packets of recordings that are asked for, and then tells on standard error what was left out, what the
/// packets lose, and the fault of the recordings, if they have one. Whatever is wrong with the options is told before
/// a recording is looked at.
pub(crate) fn extract_recorded<'p, R: Files + Print + Eprint + Input + AllocGlobal>(
    rt: &R,
    paths: &[&'p str],
    options: ExtractOptions<'p>,
) -> Result<Outcome, Failure<'p>> {
    let selection = selection_of(
        rt,
        SharedOptions {
            usage: EXTRACT_USAGE,
            ports: options.ports,
            service: options.service,
            packets: options.packets,
            choice: options.choice,
        },
    )?;
    extract_wanted(rt, paths, selection.wanted())
}

/// The same, where what is asked for is right.
fn extract_wanted<'p, R: Files + Print + Eprint + Input + AllocGlobal>(
    rt: &R,
    paths: &[&'p str],
    wanted: Wanted<'_>,
) -> Result<Outcome, Failure<'p>> {
    let mut sources = open_sources(rt, paths)?;
    let mut writer = io::writer(rt);
    match extract_recording(rt.alloc(), sources.as_mut_slice(), &wanted, &mut writer) {
        Ok(done) => {
            tell_left_out(rt, &done.left_out);
            tell_losses(rt, &done.losses);
            let shown = ShownRecording {
                outcome: Outcome::Done,
                left_out: done.left_out,
                is_full: done.is_full,
                fault: done.fault,
            };
            end_recording(rt, paths, Ok(shown))
        }
        Err(stopped) => Err(stopped_at(paths, stopped)),
    }
}

/// Prints who offered what in recordings and when, and who was subscribed, and then tells on standard error what was
/// left out of them, and their fault, if they have one. Whatever is wrong with the options is told before a recording
/// is looked at.
pub(crate) fn services_recorded<'p, R: Files + Print + Eprint + Input + AllocGlobal>(
    rt: &R,
    paths: &[&'p str],
    options: ReportOptions<'p>,
) -> Result<Outcome, Failure<'p>> {
    let selection = report_selection(rt, SERVICES_USAGE, options)?;
    let asked = ServicesAsked {
        wanted: selection.wanted(),
        form: line_form(options.json),
    };
    let mut sources = open_sources(rt, paths)?;
    let mut writer = io::writer(rt);
    let shown = show_services(rt.alloc(), sources.as_mut_slice(), &asked, &mut writer);
    if let Ok(shown) = &shown {
        tell_left_out(rt, &shown.left_out);
    }
    end_recording(rt, paths, shown)
}

/// Prints how much came in recordings and how long it took, and then tells on standard error what was left out of them,
/// and their fault, if they have one. Whatever is wrong with the options is told before a recording is looked at.
pub(crate) fn stats_recorded<'p, R: Files + Print + Eprint + Input + AllocGlobal>(
    rt: &R,
    paths: &[&'p str],
    options: StatsOptions<'p>,
) -> Result<Outcome, Failure<'p>> {
    let selection = report_selection(rt, STATS_USAGE, options.report)?;
    stats_wanted(rt, paths, options, selection.wanted())
}

/// The same, where what is asked for is right.
fn stats_wanted<'p, R: Files + Print + Eprint + Input + AllocGlobal>(
    rt: &R,
    paths: &[&'p str],
    options: StatsOptions<'p>,
    wanted: Wanted<'_>,
) -> Result<Outcome, Failure<'p>> {
    let rules = match rules_in(&stats_texts_of(&options)) {
        Ok(rules) => rules,
        Err(error) => return Err(Failure::BadSetting(error, STATS_USAGE)),
    };
    let asked = StatsAsked {
        rules,
        wanted,
        form: line_form(options.report.json),
    };
    let mut sources = open_sources(rt, paths)?;
    let mut writer = io::writer(rt);
    let shown = show_stats::<IntervalPool, _, _>(
        rt.alloc(),
        sources.as_mut_slice(),
        &asked,
        &mut writer,
    );
    if let Ok(shown) = &shown {
        tell_left_out(rt, &shown.left_out);
    }
    end_recording(rt, paths, shown)
}

/// What the options of a report ask for, of a command that is used so.
fn report_selection<'p, R: AllocGlobal>(
    rt: &R,
    usage: &'static str,
    options: ReportOptions<'p>,
) -> Result<Selection, Failure<'p>> {
    selection_of(
        rt,
        SharedOptions {
            usage,
            ports: options.ports,
            service: options.service,
            packets: options.packets,
            choice: options.choice,
        },
    )
}

/// Tells what the packets lose that were extracted, if they lose anything.
fn tell_losses<R: Eprint>(rt: &R, losses: &Losses) {
    if losses.long_packets {
        let _ = eprintln!(rt; "extract: left out packets of more than 16 MiB");
    }
    if losses.times {
        let _ = eprintln!(rt; "extract: packets without a time have the time 0");
    }
    if losses.datagrams {
        let _ = eprintln!(rt; "extract: left out datagrams with more than 512 KiB of fragments");
    }
}

/// Tells what was left out of recordings, if anything was.
fn tell_left_out<R: Eprint>(rt: &R, left_out: &LeftOut) {
    // Where standard error can't be written, what was printed stands all the same.
    if !left_out.is_empty() {
        let _ = eprintln!(rt; "recording: {}", left_out);
    }
}

/// Tells what else is to be said of recordings, and their fault, if they have one.
fn end_recording<'p, R: Eprint>(
    rt: &R,
    paths: &[&'p str],
    shown: Result<ShownRecording, StoppedAt>,
) -> Result<Outcome, Failure<'p>> {
    let shown = match shown {
        Ok(shown) => shown,
        Err(stopped) => return Err(stopped_at(paths, stopped)),
    };
    if shown.is_full {
        let _ = eprintln!(rt; "recording: full endpoints");
    }
    match shown.fault {
        Some(found) => Err(fault_at(paths, found)),
        None => Ok(shown.outcome),
    }
}

/// Why one of these recordings was not gone over.
fn stopped_at<'p>(paths: &[&'p str], stopped: StoppedAt) -> Failure<'p> {
    let path = match paths.get(stopped.file) {
        Some(path) => *path,
        // It is no file that stopped it.
        None => "",
    };
    Failure::of(stopped.fault.map(|never| match never {}), path)
}

/// The fault of one of these recordings, which is named where there are several.
fn fault_at<'p>(paths: &[&'p str], found: FileFault) -> Failure<'p> {
    match paths.get(found.file) {
        Some(path) if paths.len() > 1 => Failure::RecordingOf(*path, found.fault),
        _ => Failure::Refused(Refusal::Recording(found.fault)),
    }
}
