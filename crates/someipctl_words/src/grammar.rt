//! The commands with their arguments and what help says of them, as `clap` is told of them.
//!
//! The options of `--whole` without it are a fault of usage: they would change nothing, and whoever gives
//! them meant to give it.
ghost use Rattle.std.specs.Prelude.{◌≡◌, IfOk, codes, false};
ghost use Rattle.clap.specs.Words.{App, Rule, Shape, app_of, rule_of, shape_of, with_rule, with_subcommand};
ghost use Rattle.clap.specs.declared.builder.Command.TheViews.{out-Command};
ghost use Rattle.someipctl_words.specs.CommandLine.{audit_usage, chart_usage, cli, encode_usage, payload_usage, program};
ghost use Rattle.someipctl_words.specs.CommandLine.{recording_usage, run_usage, show_usage, vectors_usage};
ghost use Rattle.someipctl_words.specs.CommandLine.{flag as flag_rule, required, required_many, valued};
ghost use Rattle.someipctl_words.specs.CommandLine.{with_choice, with_filters, with_findings, with_heads, with_inputs, with_json};
ghost use Rattle.someipctl_words.specs.CommandLine.{with_packets, with_settings};
ghost use Rattle.someipctl_words.specs.CommandLine.{with_whole};

use crate::examples::{
    AUDIT_EXAMPLE, CHART_EXAMPLE, ENCODE_EXAMPLE, PAYLOAD_EXAMPLE, PROGRAM_EXAMPLE,
    RECORDING_EXAMPLE, RUN_EXAMPLE, SHOW_EXAMPLE, VECTORS_EXAMPLE,
};
use crate::explore_words::explore_definition;
use crate::extract_words::extract_definition;
use crate::report_words::services_definition;
use crate::stats_words::{add_session_settings, stats_definition};
use clap::{Arg, ArgAction};
use std::alloc::{AllocError, Global};

/// The command line, as `clap` is told of it.
pub(crate) fn definition<'d>(alloc: Global) -> Result<clap::Command<'d>, AllocError>
    ensures { IfOk result (λ command. app_of command ≡ cli) }
{
    let show = adding(program_definition(alloc), show_definition(alloc));
    let payload = adding(show, payload_definition(alloc));
    let encode = adding(payload, encode_definition(alloc));
    let vectors = adding(encode, vectors_definition(alloc));
    let run = adding(vectors, run_definition(alloc));
    let recording = adding(run, recording_definition(alloc));
    let chart = adding(recording, chart_definition(alloc));
    let audit = adding(chart, audit_definition(alloc));
    let explore = adding(audit, explore_definition(alloc));
    let extract = adding(explore, extract_definition(alloc));
    let services = adding(extract, services_definition(alloc));
    adding(services, stats_definition(alloc))
}

/// A command with a further one below it, where both are there.
fn adding<'d>(
    command: Result<clap::Command<'d>, AllocError>,
    further: Result<clap::Command<'d>, AllocError>,
) -> Result<clap::Command<'d>, AllocError>
    requires { IfOk further (λ f. (out-Command f).has_globals ≡ false) }
    ensures { (app : App) (shape : Shape) → IfOk command.entry (λ c. app_of c ≡ app)
        → IfOk further.entry (λ f. shape_of f ≡ shape)
        → IfOk result (λ r. app_of r ≡ with_subcommand app shape) }
{
    command?.subcommand(further?)
}

/// The program without its commands.
fn program_definition<'d>(alloc: Global) -> Result<clap::Command<'d>, AllocError>
    ensures { IfOk result (λ command. app_of command ≡ program) }
{
    let command = clap::Command::new(alloc, "someipctl")
        .bin_name("someipctl")?
        .about("Shows SOME/IP messages, and runs nodes that send them")
        .after_help(PROGRAM_EXAMPLE)
        .subcommand_required(true);
    Ok(command)
}

fn show_definition<'d>(alloc: Global) -> Result<clap::Command<'d>, AllocError>
    ensures shape { IfOk result (λ command. shape_of command ≡ show_usage) }
    ensures local { IfOk result (λ command. (out-Command command).has_globals ≡ false) }
{
    let command = clap::Command::new(alloc, "show")
        .about("Prints the messages of a capture, one a line")
        .after_help(SHOW_EXAMPLE);
    let capture = explained(alloc, "capture", "CAPTURE", "The path of a capture");
    let filtered = add_filters(alloc, Ok(command));
    taking(add_json(alloc, filtered), capture)
}

fn payload_definition<'d>(alloc: Global) -> Result<clap::Command<'d>, AllocError>
    ensures shape { IfOk result (λ command. shape_of command ≡ payload_usage) }
    ensures local { IfOk result (λ command. (out-Command command).has_globals ≡ false) }
{
    let command = clap::Command::new(alloc, "payload")
        .about("Reads a payload by its shape")
        .after_help(PAYLOAD_EXAMPLE);
    let first = taking(Ok(command), needed(alloc, "shape", "SHAPE"));
    taking(first, needed(alloc, "hex", "HEX"))
}

fn encode_definition<'d>(alloc: Global) -> Result<clap::Command<'d>, AllocError>
    ensures shape { IfOk result (λ command. shape_of command ≡ encode_usage) }
    ensures local { IfOk result (λ command. (out-Command command).has_globals ≡ false) }
{
    let command = clap::Command::new(alloc, "encode")
        .about("Writes a value as a payload, by its shape")
        .after_help(ENCODE_EXAMPLE);
    let first = taking(Ok(command), needed(alloc, "shape", "SHAPE"));
    taking(first, needed(alloc, "value", "VALUE"))
}

fn vectors_definition<'d>(alloc: Global) -> Result<clap::Command<'d>, AllocError>
    ensures shape { IfOk result (λ command. shape_of command ≡ vectors_usage) }
    ensures local { IfOk result (λ command. (out-Command command).has_globals ≡ false) }
{
    let command = clap::Command::new(alloc, "vectors")
        .about("Compares what is printed with what a file expects")
        .after_help(VECTORS_EXAMPLE);
    let file = explained(alloc, "file", "FILE", "The path of a file of vectors");
    taking(add_json(alloc, Ok(command)), file)
}

fn run_definition<'d>(alloc: Global) -> Result<clap::Command<'d>, AllocError>
    ensures shape { IfOk result (λ command. shape_of command ≡ run_usage) }
    ensures local { IfOk result (λ command. (out-Command command).has_globals ≡ false) }
{
    let command = clap::Command::new(alloc, "run")
        .about("Runs a schedule over the nodes of a setup, and prints what they give")
        .after_help(RUN_EXAMPLE);
    let expect = valued_option(
        alloc,
        "expect",
        "TRACE",
        "Compares the trace with this file, and prints the first line that differs",
    );
    let begins = valued_option(
        alloc,
        "begins",
        "TRACE",
        "Compares the beginning of the trace with this file likewise",
    );
    let lines = flag(
        alloc,
        "lines",
        "Puts the line of the schedule before each line of the trace",
    );
    let first = taking(Ok(command), expect);
    let second = taking(first, begins);
    let third = add_json(alloc, taking(second, lines));
    add_inputs(alloc, third)
}

fn recording_definition<'d>(alloc: Global) -> Result<clap::Command<'d>, AllocError>
    ensures shape { IfOk result (λ command. shape_of command ≡ recording_usage) }
    ensures local { IfOk result (λ command. (out-Command command).has_globals ≡ false) }
{
    let command = clap::Command::new(alloc, "recording")
        .about("Prints the messages of recordings of network traffic")
        .after_help(RECORDING_EXAMPLE);
    let ports = valued_option(
        alloc,
        "ports",
        "PORTS",
        "Prints only datagrams from or to one of these ports",
    );
    let first = add_heads(alloc, taking(Ok(command), ports));
    let filtered = add_filters(alloc, add_json(alloc, first));
    let second = add_choice(alloc, filtered);
    let third = add_whole(alloc, add_packets(alloc, second));
    taking(third, files(alloc))
}

fn chart_definition<'d>(alloc: Global) -> Result<clap::Command<'d>, AllocError>
    ensures shape { IfOk result (λ command. shape_of command ≡ chart_usage) }
    ensures local { IfOk result (λ command. (out-Command command).has_globals ≡ false) }
{
    let command = clap::Command::new(alloc, "chart")
        .about("Draws a run of a schedule over the nodes of a setup, as an SVG picture")
        .after_help(CHART_EXAMPLE);
    add_inputs(alloc, Ok(command))
}

fn audit_definition<'d>(alloc: Global) -> Result<clap::Command<'d>, AllocError>
    ensures shape { IfOk result (λ command. shape_of command ≡ audit_usage) }
    ensures local { IfOk result (λ command. (out-Command command).has_globals ≡ false) }
{
    let command = clap::Command::new(alloc, "audit")
        .about("Prints what recordings of network traffic show against the protocol")
        .after_help(AUDIT_EXAMPLE);
    let ports = valued_option(
        alloc,
        "ports",
        "PORTS",
        "Looks at these ports beside 30490, and learns none from Offers and Subscribes without --learned",
    );
    let first = add_settings(alloc, taking(Ok(command), ports));
    let second = add_json(alloc, add_findings(alloc, first));
    taking(add_packets(alloc, add_choice(alloc, second)), files(alloc))
}

/// The command with the options that are settings of an audit.
fn add_settings<'d>(
    alloc: Global,
    command: Result<clap::Command<'d>, AllocError>,
) -> Result<clap::Command<'d>, AllocError>
    ensures app { (app : App) → IfOk command.entry (λ c. app_of c ≡ app)
        → IfOk result (λ r. app_of r ≡ with_settings app) }
    ensures local { IfOk command.entry (λ c. (out-Command c).has_globals ≡ false)
        → IfOk result (λ r. (out-Command r).has_globals ≡ false) }
{
    let answer = valued_option(
        alloc,
        "answer-ms",
        "N",
        "The milliseconds that an answer may take, 2000 without it",
    );
    let settle = valued_option(
        alloc,
        "settle-ms",
        "N",
        "The milliseconds at first in which no event without a subscription is told, 10000 without it",
    );
    let rules = valued_option(
        alloc,
        "rules",
        "FILE",
        "Takes findings as the rules of this file say",
    );
    let first = taking(taking(command, answer), settle);
    taking(add_session_settings(alloc, first), rules)
}

/// The command with the options that number and choose the lines of findings.
fn add_findings<'d>(
    alloc: Global,
    command: Result<clap::Command<'d>, AllocError>,
) -> Result<clap::Command<'d>, AllocError>
    ensures app { (app : App) → IfOk command.entry (λ c. app_of c ≡ app)
        → IfOk result (λ r. app_of r ≡ with_findings app) }
    ensures local { IfOk command.entry (λ c. (out-Command c).has_globals ≡ false)
        → IfOk result (λ r. (out-Command r).has_globals ≡ false) }
{
    let frames = flag(
        alloc,
        "frames",
        "Puts the number of its packet before each line",
    );
    let service = valued_option(
        alloc,
        "service",
        "SERVICES",
        "Prints only findings of one of these services",
    );
    let group = flag(
        alloc,
        "group",
        "Prints the first three findings of one kind, service, method, sender and receiver, and counts the others",
    );
    let first = taking(command, frames);
    taking(taking(first, group), service)
}

/// The command with the two files of a run as its further arguments.
fn add_inputs<'d>(
    alloc: Global,
    command: Result<clap::Command<'d>, AllocError>,
) -> Result<clap::Command<'d>, AllocError>
    ensures app { (app : App) → IfOk command.entry (λ c. app_of c ≡ app)
        → IfOk result (λ r. app_of r ≡ with_inputs app) }
    ensures local { IfOk command.entry (λ c. (out-Command c).has_globals ≡ false)
        → IfOk result (λ r. (out-Command r).has_globals ≡ false) }
{
    let first = taking(command, needed(alloc, "setup", "SETUP"));
    taking(first, needed(alloc, "schedule", "SCHEDULE"))
}

/// The command with the options that name services and a types file.
fn add_filters<'d>(
    alloc: Global,
    command: Result<clap::Command<'d>, AllocError>,
) -> Result<clap::Command<'d>, AllocError>
    ensures app { (app : App) → IfOk command.entry (λ c. app_of c ≡ app)
        → IfOk result (λ r. app_of r ≡ with_filters app) }
    ensures local { IfOk command.entry (λ c. (out-Command c).has_globals ≡ false)
        → IfOk result (λ r. (out-Command r).has_globals ≡ false) }
{
    let service = valued_option(
        alloc,
        "service",
        "SERVICES",
        "Prints only datagrams with a message of one of these services",
    );
    let types = valued_option(
        alloc,
        "types",
        "FILE",
        "Prints the values of the payloads whose shapes this file tells",
    );
    taking(taking(command, service), types)
}

/// The command with the option that asks for JSON objects.
pub(crate) fn add_json<'d>(
    alloc: Global,
    command: Result<clap::Command<'d>, AllocError>,
) -> Result<clap::Command<'d>, AllocError>
    ensures app { (app : App) → IfOk command.entry (λ c. app_of c ≡ app)
        → IfOk result (λ r. app_of r ≡ with_json app) }
    ensures local { IfOk command.entry (λ c. (out-Command c).has_globals ≡ false)
        → IfOk result (λ r. (out-Command r).has_globals ≡ false) }
{
    let json = flag(alloc, "json", "Prints each line as a JSON object");
    taking(command, json)
}

/// The command with the options that say what stands before each line.
fn add_heads<'d>(
    alloc: Global,
    command: Result<clap::Command<'d>, AllocError>,
) -> Result<clap::Command<'d>, AllocError>
    ensures app { (app : App) → IfOk command.entry (λ c. app_of c ≡ app)
        → IfOk result (λ r. app_of r ≡ with_heads app) }
    ensures local { IfOk command.entry (λ c. (out-Command c).has_globals ≡ false)
        → IfOk result (λ r. (out-Command r).has_globals ≡ false) }
{
    let frames = flag(
        alloc,
        "frames",
        "Puts the number of its packet before each line",
    );
    let endpoints = flag(
        alloc,
        "endpoints",
        "Puts time, sender and receiver before each line",
    );
    taking(taking(command, frames), endpoints)
}

/// The command with the options that choose by addresses, client and times, and with that which learns
/// endpoints.
pub(crate) fn add_choice<'d>(
    alloc: Global,
    command: Result<clap::Command<'d>, AllocError>,
) -> Result<clap::Command<'d>, AllocError>
    ensures app { (app : App) → IfOk command.entry (λ c. app_of c ≡ app)
        → IfOk result (λ r. app_of r ≡ with_choice app) }
    ensures local { IfOk command.entry (λ c. (out-Command c).has_globals ≡ false)
        → IfOk result (λ r. (out-Command r).has_globals ≡ false) }
{
    let address = valued_option(
        alloc,
        "address",
        "A",
        "Prints only what came from or went to one of these addresses",
    );
    let client = valued_option(alloc, "client", "C", "Prints only what is of this client");
    let from = valued_option(
        alloc,
        "from",
        "TIME",
        "Prints only what is from this time on, in seconds since 1970",
    );
    let until = valued_option(
        alloc,
        "until",
        "TIME",
        "Prints only what is before this time",
    );
    let first = taking(command, address);
    let second = taking(first, client);
    let third = taking(second, from);
    let learned = flag(
        alloc,
        "learned",
        "Looks only at port 30490, at PORTS, and at endpoints that were offered or subscribed before",
    );
    taking(taking(third, until), learned)
}

/// The command with the options that choose packets.
pub(crate) fn add_packets<'d>(
    alloc: Global,
    command: Result<clap::Command<'d>, AllocError>,
) -> Result<clap::Command<'d>, AllocError>
    ensures app { (app : App) → IfOk command.entry (λ c. app_of c ≡ app)
        → IfOk result (λ r. app_of r ≡ with_packets app) }
    ensures local { IfOk command.entry (λ c. (out-Command c).has_globals ≡ false)
        → IfOk result (λ r. (out-Command r).has_globals ≡ false) }
{
    let interface = valued_option(
        alloc,
        "interface",
        "N",
        "Looks only at packets of one of these interfaces, counted from 0",
    );
    let vlan = valued_option(
        alloc,
        "vlan",
        "ID",
        "Looks only at packets with one of these VLAN IDs",
    );
    let dedup = valued_option(
        alloc,
        "dedup",
        "MS",
        "Leaves out packets that equal one of so many milliseconds before",
    );
    let first = taking(command, interface);
    let second = taking(first, vlan);
    taking(second, dedup)
}

/// The command with the options on messages that are put together.
fn add_whole<'d>(
    alloc: Global,
    command: Result<clap::Command<'d>, AllocError>,
) -> Result<clap::Command<'d>, AllocError>
    ensures app { (app : App) → IfOk command.entry (λ c. app_of c ≡ app)
        → IfOk result (λ r. app_of r ≡ with_whole app) }
    ensures local { IfOk command.entry (λ c. (out-Command c).has_globals ≡ false)
        → IfOk result (λ r. (out-Command r).has_globals ≡ false) }
{
    let whole = flag(alloc, "whole", "Puts messages together from their segments");
    let limit = valued_option(
        alloc,
        "whole-limit",
        "N",
        "The bytes that such a message may have, 1048576 without it",
    );
    let slots = valued_option(
        alloc,
        "whole-slots",
        "N",
        "How many may have come in part at once, 16 without it",
    );
    let timeout = valued_option(
        alloc,
        "whole-timeout",
        "MS",
        "The milliseconds that a part stands after its last segment, 5000 without it",
    );
    let first = taking(command, whole);
    let second = taking(first, limit);
    let third = taking(second, slots);
    taking(third, timeout)
}

/// A command with a further argument, where it is there.
pub(crate) fn taking<'d>(
    command: Result<clap::Command<'d>, AllocError>,
    arg: Arg<'d>,
) -> Result<clap::Command<'d>, AllocError>
    requires { arg.global ≡ false }
    ensures app { (app : App) (rule : Rule) → IfOk command.entry (λ c. app_of c ≡ app)
        → rule_of arg.entry ≡ rule → IfOk result (λ r. app_of r ≡ with_rule app rule) }
    ensures local { IfOk command.entry (λ c. (out-Command c).has_globals ≡ false)
        → IfOk result (λ r. (out-Command r).has_globals ≡ false) }
{
    command?.arg(arg)
}

/// A positional argument that a call has to have, by its name.
pub(crate) fn needed<'d>(alloc: Global, name: &'d str, value_name: &'d str) -> Arg<'d>
    ensures rule { rule_of result ≡ required name.entry.now }
    ensures local { result.global ≡ false }
{
    Arg::new(alloc, name).value_name(value_name).required(true)
}

/// The same with what help says of it.
fn explained<'d>(alloc: Global, name: &'d str, value_name: &'d str, help: &'d str) -> Arg<'d>
    ensures rule { rule_of result ≡ required name.entry.now }
    ensures local { result.global ≡ false }
{
    needed(alloc, name, value_name).help(help)
}

/// The paths of recordings, of which a call has one or more.
pub(crate) fn files<'d>(alloc: Global) -> Arg<'d>
    ensures rule { rule_of result ≡ required_many (codes "file") }
    ensures local { result.global ≡ false }
{
    explained(
        alloc,
        "file",
        "FILE",
        "The path of a recording, - for standard input; several are one recording",
    )
    .action(ArgAction::Append)
}

/// An option with a value, by its name.
pub(crate) fn valued_option<'d>(
    alloc: Global,
    name: &'d str,
    value_name: &'d str,
    help: &'d str,
) -> Arg<'d>
    ensures rule { rule_of result ≡ valued name.entry.now }
    ensures local { result.global ≡ false }
{
    Arg::new(alloc, name)
        .long(name)
        .value_name(value_name)
        .help(help)
}

/// An option without a value, by its name.
pub(crate) fn flag<'d>(alloc: Global, name: &'d str, help: &'d str) -> Arg<'d>
    ensures rule { rule_of result ≡ flag_rule name.entry.now }
    ensures local { result.global ≡ false }
{
    Arg::new(alloc, name)
        .long(name)
        .help(help)
        .action(ArgAction::SetTrue)
}
