//! The words of `services`: its options as `clap` is told of them, and what they ask for. `stats` has these options too.
ghost use Rattle.std.specs.Prelude.{◌≡◌, IfOk, false, option_map};
ghost use Rattle.clap.specs.Words.{first_value, found_of, shape_of};
ghost use Rattle.clap.specs.declared.builder.Command.TheViews.{out-Command};
ghost use Rattle.someipctl_words.specs.CommandLine.{asked_by_command, asked_by_report_options, asked_by_services};
ghost use Rattle.someipctl_words.specs.CommandLine.{report_options_by, services_usage, values_of};

use crate::command::{
    ChoiceOptions, Command, PacketOptions, choice_matched, files_matched, is_given, packets_matched,
};
use crate::examples::SERVICES_EXAMPLE;
use crate::grammar::{add_choice, add_json, add_packets, files, taking, valued_option};
use clap::ArgMatches;
use std::alloc::{AllocError, Global};

/// The options of a report on recordings: of `services`, and most of `stats`.
#[derive(Clone, Copy, PartialEq, Eq)]
pub struct ReportOptions<'w> {
    /// Which packets are looked at.
    pub packets: PacketOptions<'w>,
    /// Which lines are told or what counts, beside services.
    pub choice: ChoiceOptions<'w>,
    /// The text of the ports that are looked at. None looks at all.
    pub ports: Option<&'w str>,
    /// The text of the services whose lines are told, or which count. None leaves out none.
    pub service: Option<&'w str>,
    /// Whether each line is to be a JSON object.
    pub json: bool,
}

/// The command, as `clap` is told of it.
pub(crate) fn services_definition<'d>(alloc: Global) -> Result<clap::Command<'d>, AllocError>
    ensures shape { IfOk result (λ command. shape_of command ≡ services_usage) }
    ensures local { IfOk result (λ command. (out-Command command).has_globals ≡ false) }
{
    let command = clap::Command::new(alloc, "services")
        .about("Prints who offered what in recordings and when, and who was subscribed")
        .after_help(SERVICES_EXAMPLE);
    let ports = valued_option(
        alloc,
        "ports",
        "PORTS",
        "Is taken, but offers and subscriptions are at port 30490 alone",
    );
    let service = valued_option(
        alloc,
        "service",
        "SERVICES",
        "Prints only lines of these services",
    );
    let first = add_json(alloc, taking(Ok(command), ports));
    let second = add_choice(alloc, taking(first, service));
    taking(add_packets(alloc, second), files(alloc))
}

/// What the matches of `services` ask for.
pub(crate) fn services_matched<'w>(
    alloc: Global,
    matches: &ArgMatches<'w>,
) -> Result<Option<Command<'w>>, AllocError>
    ensures { IfOk result (λ command. option_map asked_by_command command
        ≡ asked_by_services (first_value (found_of matches.now)) (values_of (found_of matches.now))) }
{
    if matches.get_str("file").is_none() {
        return Ok(None);
    }
    let files = files_matched(alloc, matches)?;
    Ok(Some(Command::Services {
        files,
        options: report_options(matches),
    }))
}

/// The options of a report that the matches have.
pub(crate) fn report_options<'w>(matches: &ArgMatches<'w>) -> ReportOptions<'w>
    ensures { asked_by_report_options result ≡ report_options_by (first_value (found_of matches.now)) }
{
    ReportOptions {
        packets: packets_matched(matches),
        choice: choice_matched(matches),
        ports: matches.get_str("ports"),
        service: matches.get_str("service"),
        json: is_given(matches, "json"),
    }
}
