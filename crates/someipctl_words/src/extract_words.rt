//! The words of `extract`: its options as `clap` is told of them, and what they ask for.
ghost use Rattle.std.specs.Prelude.{◌≡◌, IfOk, false, option_map};
ghost use Rattle.clap.specs.Words.{first_value, found_of, shape_of};
ghost use Rattle.clap.specs.declared.builder.Command.TheViews.{out-Command};
ghost use Rattle.someipctl_words.specs.CommandLine.{asked_by_command, asked_by_extract, asked_by_extract_options};
ghost use Rattle.someipctl_words.specs.CommandLine.{extract_options_by, extract_usage, values_of};

use crate::command::{
    ChoiceOptions, Command, PacketOptions, choice_matched, files_matched, packets_matched,
};
use crate::examples::EXTRACT_EXAMPLE;
use crate::grammar::{add_choice, add_packets, files, taking, valued_option};
use clap::ArgMatches;
use std::alloc::{AllocError, Global};

/// The options of `extract`.
#[derive(Clone, Copy, PartialEq, Eq)]
pub struct ExtractOptions<'w> {
    /// Which packets are looked at.
    pub packets: PacketOptions<'w>,
    /// Which datagrams are asked for, beside ports and services.
    pub choice: ChoiceOptions<'w>,
    /// The text of the ports whose datagrams are asked for. None asks for all.
    pub ports: Option<&'w str>,
    /// The text of the services whose datagrams are asked for. None asks for all.
    pub service: Option<&'w str>,
}

/// The command, as `clap` is told of it.
pub(crate) fn extract_definition<'d>(alloc: Global) -> Result<clap::Command<'d>, AllocError>
    ensures shape { IfOk result (λ command. shape_of command ≡ extract_usage) }
    ensures local { IfOk result (λ command. (out-Command command).has_globals ≡ false) }
{
    let command = clap::Command::new(alloc, "extract")
        .about("Writes the packets of the datagrams that are chosen, as a recording")
        .after_help(EXTRACT_EXAMPLE);
    let ports = valued_option(
        alloc,
        "ports",
        "PORTS",
        "Writes only datagrams from or to one of these ports",
    );
    let service = valued_option(
        alloc,
        "service",
        "SERVICES",
        "Writes only datagrams with a message of one of these services",
    );
    let first = taking(Ok(command), ports);
    let second = add_choice(alloc, taking(first, service));
    taking(add_packets(alloc, second), files(alloc))
}

/// What the matches of `extract` ask for.
pub(crate) fn extract_matched<'w>(
    alloc: Global,
    matches: &ArgMatches<'w>,
) -> Result<Option<Command<'w>>, AllocError>
    ensures { IfOk result (λ command. option_map asked_by_command command
        ≡ asked_by_extract (first_value (found_of matches.now)) (values_of (found_of matches.now))) }
{
    if matches.get_str("file").is_none() {
        return Ok(None);
    }
    let files = files_matched(alloc, matches)?;
    Ok(Some(Command::Extract {
        files,
        options: extract_options(matches),
    }))
}

fn extract_options<'w>(matches: &ArgMatches<'w>) -> ExtractOptions<'w>
    ensures { asked_by_extract_options result ≡ extract_options_by (first_value (found_of matches.now)) }
{
    ExtractOptions {
        packets: packets_matched(matches),
        choice: choice_matched(matches),
        ports: matches.get_str("ports"),
        service: matches.get_str("service"),
    }
}
