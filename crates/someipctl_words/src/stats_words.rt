//! The words of `stats`: its options as `clap` is told of them, and what they ask for.
ghost use Rattle.std.specs.Prelude.{◌≡◌, IfOk, false, option_map};
ghost use Rattle.clap.specs.Words.{App, app_of, first_value, found_of, shape_of};
ghost use Rattle.clap.specs.declared.builder.Command.TheViews.{out-Command};
ghost use Rattle.someipctl_words.specs.CommandLine.{asked_by_command, asked_by_stats, asked_by_stats_options};
ghost use Rattle.someipctl_words.specs.CommandLine.{stats_options_by, stats_usage, values_of};
ghost use Rattle.someipctl_words.specs.CommandLine.{with_session_settings};

use crate::command::{Command, files_matched};
use crate::examples::STATS_EXAMPLE;
use crate::grammar::{add_choice, add_json, add_packets, files, taking, valued_option};
use crate::report_words::{ReportOptions, report_options};
use clap::ArgMatches;
use std::alloc::{AllocError, Global};

/// The options of `stats`.
#[derive(Clone, Copy, PartialEq, Eq)]
pub struct StatsOptions<'w> {
    /// Which packets are looked at, and what of them counts.
    pub report: ReportOptions<'w>,
    /// The text of how many milliseconds after a later one a message may come that was overtaken.
    pub overtake_ms: Option<&'w str>,
    /// The text of which events a sender counts together.
    pub sessions: Option<&'w str>,
}

/// The command, as `clap` is told of it.
pub(crate) fn stats_definition<'d>(alloc: Global) -> Result<clap::Command<'d>, AllocError>
    ensures shape { IfOk result (λ command. shape_of command ≡ stats_usage) }
    ensures local { IfOk result (λ command. (out-Command command).has_globals ≡ false) }
{
    let command = clap::Command::new(alloc, "stats")
        .about(
            "Counts messages of recordings, and tells how long answers took and events stayed away",
        )
        .after_help(STATS_EXAMPLE);
    let ports = valued_option(
        alloc,
        "ports",
        "PORTS",
        "Looks at these ports beside 30490, and learns none from Offers and Subscribes without --learned",
    );
    let service = valued_option(
        alloc,
        "service",
        "SERVICES",
        "Prints only figures of these services",
    );
    let first = add_json(alloc, taking(Ok(command), ports));
    let second = add_session_settings(alloc, taking(first, service));
    taking(add_packets(alloc, add_choice(alloc, second)), files(alloc))
}

/// The command with the options that say which messages are lost, and not overtaken or of another event.
pub(crate) fn add_session_settings<'d>(
    alloc: Global,
    command: Result<clap::Command<'d>, AllocError>,
) -> Result<clap::Command<'d>, AllocError>
    ensures app { (app : App) → IfOk command.entry (λ c. app_of c ≡ app)
        → IfOk result (λ r. app_of r ≡ with_session_settings app) }
    ensures local { IfOk command.entry (λ c. (out-Command c).has_globals ≡ false)
        → IfOk result (λ r. (out-Command r).has_globals ≡ false) }
{
    let overtake = valued_option(
        alloc,
        "overtake-ms",
        "N",
        "The milliseconds that a message may come after one that overtook it, 100 without it",
    );
    let sessions = valued_option(
        alloc,
        "sessions",
        "HOW",
        "Whether a sender counts the sessions of each event, or of all its events: event or sender, event without it",
    );
    taking(taking(command, overtake), sessions)
}

/// What the matches of `stats` ask for.
pub(crate) fn stats_matched<'w>(
    alloc: Global,
    matches: &ArgMatches<'w>,
) -> Result<Option<Command<'w>>, AllocError>
    ensures { IfOk result (λ command. option_map asked_by_command command
        ≡ asked_by_stats (first_value (found_of matches.now)) (values_of (found_of matches.now))) }
{
    if matches.get_str("file").is_none() {
        return Ok(None);
    }
    let files = files_matched(alloc, matches)?;
    Ok(Some(Command::Stats {
        files,
        options: stats_options(matches),
    }))
}

fn stats_options<'w>(matches: &ArgMatches<'w>) -> StatsOptions<'w>
    ensures { asked_by_stats_options result ≡ stats_options_by (first_value (found_of matches.now)) }
{
    StatsOptions {
        report: report_options(matches),
        overtake_ms: matches.get_str("overtake-ms"),
        sessions: matches.get_str("sessions"),
    }
}
