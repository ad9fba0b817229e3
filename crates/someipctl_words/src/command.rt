//! What the arguments ask for: a command, help, or nothing that there is.
ghost use Rattle.std.specs.Prelude.{◌≡◌, IfErr, IfOk, OnOk, Some, codes, map, option_map};
ghost use Rattle.clap.specs.Words.{first_value, found_of, subcommand_rows_of};
ghost use Rattle.someipctl_words.specs.declared.command.LineError.TheVariants.{OutOfMemory};
ghost use Rattle.someipctl_words.specs.CommandLine.{IsLineErrorOf, IsTaken, RefusesWords};
ghost use Rattle.someipctl_words.specs.CommandLine.{asked_by_audit, asked_by_audit_options, asked_by_chart};
ghost use Rattle.someipctl_words.specs.CommandLine.{asked_by_command, asked_by_entered, asked_by_options};
ghost use Rattle.someipctl_words.specs.CommandLine.{asked_by_encode, asked_by_payload, asked_by_recording, asked_by_run};
ghost use Rattle.someipctl_words.specs.CommandLine.{asked_by_show, asked_by_subcommand, asked_by_vectors};
ghost use Rattle.someipctl_words.specs.CommandLine.{asked_by_choice, asked_by_packets, asked_by_settings, audit_options_by, choice_options_by};
ghost use Rattle.someipctl_words.specs.CommandLine.{is_on, packet_options_by, recording_options_by, requested};
ghost use Rattle.someipctl_words.specs.CommandLine.{setting_options_by, texts_at, values_of};

use crate::explore_words::{ExploreOptions, explore_matched};
use crate::extract_words::{ExtractOptions, extract_matched};
use crate::grammar::definition;
use crate::report_words::{ReportOptions, services_matched};
use crate::stats_words::{StatsOptions, stats_matched};
use clap::ArgMatches;
use clap::error::ErrorKind;
use std::alloc::{AllocError, Global};
use std::convert::AsStr;
use thiserror::Error;

/// What the words ask for.
#[derive(Drop, PartialEq, Eq)]
pub enum Command<'w> {
    /// Print the messages of a capture.
    Show {
        /// The capture's path, as it was given.
        capture: &'w str,
        /// The text of the services whose datagrams are asked for. None asks for all.
        service: Option<&'w str>,
        /// The path of a types file, as it was given.
        types: Option<&'w str>,
        /// Whether each line is to be a JSON object.
        json: bool,
    },
    /// Read a payload by its shape.
    Payload {
        /// The shape's text.
        shape: &'w str,
        /// The payload in hex, `-` for no bytes.
        hex: &'w str,
    },
    /// Write a value as a payload, by a shape.
    Encode {
        /// The shape's text.
        shape: &'w str,
        /// The value's text.
        value: &'w str,
    },
    /// Compare what is printed of datagrams and payloads with what a file says.
    Vectors {
        /// The file's path, as it was given.
        file: &'w str,
        /// Whether each line is to be a JSON object.
        json: bool,
    },
    /// Run a schedule over the nodes of a setup.
    Run {
        /// The setup's path, as it was given.
        setup: &'w str,
        /// The schedule's path, as it was given.
        schedule: &'w str,
        /// The path of the trace that is expected, as it was given.
        expect: Option<&'w str>,
        /// That of a file that the trace begins with.
        begins: Option<&'w str>,
        /// Whether each line of the trace is to begin with the line of the schedule.
        lines: bool,
        /// Whether each line is to be a JSON object.
        json: bool,
    },
    /// Print the messages of recordings of network traffic.
    Recording {
        /// Their paths, as they were given.
        files: Vec<&'w str>,
        /// What of it is asked for, and what is told.
        options: RecordingOptions<'w>,
    },
    /// Draw a run of a schedule over the nodes of a setup.
    Chart {
        /// The setup's path, as it was given.
        setup: &'w str,
        /// The schedule's path, as it was given.
        schedule: &'w str,
    },
    /// Print what recordings of network traffic show against the protocol.
    Audit {
        /// Their paths, as they were given.
        files: Vec<&'w str>,
        /// What the audit goes by.
        options: AuditOptions<'w>,
    },
    /// Try schedules over the nodes of a setup, and print the first that reaches a goal.
    Explore {
        /// The setup's path, as it was given.
        setup: &'w str,
        /// The path of the moves, as it was given.
        moves: &'w str,
        /// The words that a line of the trace is to have.
        goal: &'w str,
        /// What is tried, and what is asked of the lines before.
        options: ExploreOptions<'w>,
    },
    /// Write the packets of datagrams of recordings of network traffic.
    Extract {
        /// Their paths, as they were given.
        files: Vec<&'w str>,
        /// Which datagrams are asked for.
        options: ExtractOptions<'w>,
    },
    /// Print who offered what in recordings of network traffic and when, and who was subscribed.
    Services {
        /// Their paths, as they were given.
        files: Vec<&'w str>,
        /// Which lines are asked for.
        options: ReportOptions<'w>,
    },
    /// Print how much came in recordings of network traffic, and how long it took.
    Stats {
        /// Their paths, as they were given.
        files: Vec<&'w str>,
        /// What counts.
        options: StatsOptions<'w>,
    },
}

/// The options that choose packets of recordings.
#[derive(Clone, Copy, PartialEq, Eq)]
pub struct PacketOptions<'w> {
    /// The text of the interfaces whose packets are looked at. None looks at all.
    pub interface: Option<&'w str>,
    /// The text of the VLAN IDs whose packets are looked at. None looks at all.
    pub vlan: Option<&'w str>,
    /// The text of the milliseconds within which an equal packet is a copy. None leaves copies in.
    pub dedup: Option<&'w str>,
}

/// The options that choose datagrams of recordings, or findings of an audit, by their addresses, their client and
/// their times; and whether endpoints are learned.
#[derive(Clone, Copy, PartialEq, Eq)]
pub struct ChoiceOptions<'w> {
    /// The text of the addresses whose datagrams are asked for. None asks for all.
    pub address: Option<&'w str>,
    /// The text of the Client ID whose datagrams are asked for. None asks for all.
    pub client: Option<&'w str>,
    /// The text of the time from which on datagrams are asked for.
    pub from: Option<&'w str>,
    /// The text of the time before which they are.
    pub until: Option<&'w str>,
    /// Whether only what is at port 30490, at the ports or at endpoints that were named before is looked at.
    pub learned: bool,
}

/// The options of `audit`.
#[derive(Clone, Copy, PartialEq, Eq)]
pub struct AuditOptions<'w> {
    /// Which packets are looked at.
    pub packets: PacketOptions<'w>,
    /// Which findings are told, beside services.
    pub choice: ChoiceOptions<'w>,
    /// The text of the ports that are looked at. None looks at the endpoints that are learnt.
    pub ports: Option<&'w str>,
    /// Whether each line is to begin with the number of its packet.
    pub frames: bool,
    /// Whether only the first three findings of a group are to be shown.
    pub group: bool,
    /// Whether each line is to be a JSON object.
    pub json: bool,
    /// The text of the services whose findings are told. None tells all.
    pub service: Option<&'w str>,
    /// The settings of the audit.
    pub settings: SettingOptions<'w>,
    /// The path of a file of rules, as it was given.
    pub rules: Option<&'w str>,
}

/// The options that are settings of an audit.
#[derive(Clone, Copy, PartialEq, Eq)]
pub struct SettingOptions<'w> {
    /// The text of how many milliseconds an answer may take.
    pub answer_ms: Option<&'w str>,
    /// The text of for how many milliseconds no event without a subscription is told.
    pub settle_ms: Option<&'w str>,
    /// The text of how many milliseconds after a later one a message may come that was overtaken.
    pub overtake_ms: Option<&'w str>,
    /// The text of which events a sender counts together.
    pub sessions: Option<&'w str>,
}

/// The options of `recording`.
#[derive(Clone, Copy, PartialEq, Eq)]
pub struct RecordingOptions<'w> {
    /// Which packets are looked at.
    pub packets: PacketOptions<'w>,
    /// Which datagrams are asked for, beside ports and services.
    pub choice: ChoiceOptions<'w>,
    /// The text of the ports whose datagrams are asked for. None asks for all.
    pub ports: Option<&'w str>,
    /// Whether each line is to begin with the number of its packet.
    pub frames: bool,
    /// Whether each line is to begin with the time and the endpoints of its datagram.
    pub endpoints: bool,
    /// Whether each line is to be a JSON object.
    pub json: bool,
    /// The text of the services whose datagrams are asked for. None asks for all.
    pub service: Option<&'w str>,
    /// The path of a types file, as it was given.
    pub types: Option<&'w str>,
    /// Whether messages are to be put together from their segments.
    pub whole: bool,
    /// The text of how many bytes such a message may have.
    pub limit: Option<&'w str>,
    /// The text of how many may have come in part at once.
    pub slots: Option<&'w str>,
    /// The text of how many milliseconds a part stands.
    pub timeout: Option<&'w str>,
}

/// Why the words give no command. `Usage` and `Help` print as the whole text for the user, to the
/// end of its last line.
#[derive(Debug, Drop, Error)]
pub enum LineError {
    /// The words are no call of the program: the fault, and the form of a call.
    #[error("{0}")]
    Usage(clap::Error),
    /// The words ask for help, and this is its text.
    #[error("{0}")]
    Help(String),
    /// Memory ran out before the words were read.
    #[error("out of memory")]
    OutOfMemory,
}

/// The command that the words give. The first word is the program's own name.
///
/// The error is `Help` where they ask for help, as `someipctl help show`, `Usage` where they are no
/// call of the program, and `OutOfMemory` where memory ran out first.
pub fn command_of<'w, S: AsStr>(alloc: Global, words: &'w [S]) -> Result<Command<'w>, LineError>
    // Only words without a fault give a command, and it is the one that they match.
    ensures taken { OnOk result (IsTaken (map S.text words.entry.now)) }
    ensures matched { IfOk result (λ command.
        requested (map S.text words.entry.now) ≡ Some (asked_by_command command)) }

    // Help answers only a call for help, and usage only another fault.
    ensures refused { IfErr result (RefusesWords (map S.text words.entry.now)) }
{
    let matches = match definition(alloc)?.try_get_matches_from(words) {
        Ok(matches) => matches,
        Err(error) => return Err(line_error(alloc, error)),
    };
    match matched(alloc, &matches)? {
        Some(command) => Ok(command),
        None => unreachable!(),
    }
}

/// What an error of the parse says of the words.
fn line_error(alloc: Global, error: clap::Error) -> LineError
    ensures { IsLineErrorOf error result }
{
    match error.kind() {
        ErrorKind::OutOfMemory => LineError::OutOfMemory,
        ErrorKind::DisplayHelp => match error.to_string(alloc) {
            Ok(text) => LineError::Help(text),
            Err(_) => LineError::OutOfMemory,
        },
        _ => LineError::Usage(error),
    }
}

impl From<AllocError> for LineError {
    ghost from_gives = { λ _ error. error ≡ OutOfMemory };

    fn from(_error: AllocError) -> LineError {
        LineError::OutOfMemory
    }
}

/// The command that the matches say.
fn matched<'w>(alloc: Global, matches: &ArgMatches<'w>) -> Result<Option<Command<'w>>, AllocError>
    ensures { IfOk result (λ command.
        option_map asked_by_command command ≡ asked_by_entered (subcommand_rows_of matches.now)) }
{
    match matches.subcommand() {
        Some((name, rest)) => matched_under(alloc, name, rest),
        None => Ok(None),
    }
}

/// The same of the matches under a subcommand's name.
fn matched_under<'w>(
    alloc: Global,
    name: &str,
    rest: &ArgMatches<'w>,
) -> Result<Option<Command<'w>>, AllocError>
    ensures { IfOk result (λ command. option_map asked_by_command command
        ≡ asked_by_subcommand name.now (first_value (found_of rest.now)) (values_of (found_of rest.now))) }
{
    match name {
        "show" => Ok(show_matched(rest)),
        "payload" => Ok(payload_matched(rest)),
        "encode" => Ok(encode_matched(rest)),
        "vectors" => Ok(vectors_matched(rest)),
        "run" => Ok(run_matched(rest)),
        "recording" => recording_matched(alloc, rest),
        "chart" => Ok(chart_matched(rest)),
        "audit" => audit_matched(alloc, rest),
        "explore" => explore_matched(alloc, rest),
        "extract" => extract_matched(alloc, rest),
        "services" => services_matched(alloc, rest),
        "stats" => stats_matched(alloc, rest),
        _ => Ok(None),
    }
}

fn show_matched<'w>(matches: &ArgMatches<'w>) -> Option<Command<'w>>
    ensures { option_map asked_by_command result ≡ asked_by_show (first_value (found_of matches.now)) }
{
    let capture = matches.get_str("capture")?;
    Some(Command::Show {
        capture,
        service: matches.get_str("service"),
        types: matches.get_str("types"),
        json: is_given(matches, "json"),
    })
}

fn payload_matched<'w>(matches: &ArgMatches<'w>) -> Option<Command<'w>>
    ensures { option_map asked_by_command result ≡ asked_by_payload (first_value (found_of matches.now)) }
{
    let shape = matches.get_str("shape")?;
    let hex = matches.get_str("hex")?;
    Some(Command::Payload { shape, hex })
}

fn encode_matched<'w>(matches: &ArgMatches<'w>) -> Option<Command<'w>>
    ensures { option_map asked_by_command result ≡ asked_by_encode (first_value (found_of matches.now)) }
{
    let shape = matches.get_str("shape")?;
    let value = matches.get_str("value")?;
    Some(Command::Encode { shape, value })
}

fn vectors_matched<'w>(matches: &ArgMatches<'w>) -> Option<Command<'w>>
    ensures { option_map asked_by_command result ≡ asked_by_vectors (first_value (found_of matches.now)) }
{
    let file = matches.get_str("file")?;
    Some(Command::Vectors {
        file,
        json: is_given(matches, "json"),
    })
}

fn run_matched<'w>(matches: &ArgMatches<'w>) -> Option<Command<'w>>
    ensures { option_map asked_by_command result ≡ asked_by_run (first_value (found_of matches.now)) }
{
    let setup = matches.get_str("setup")?;
    let schedule = matches.get_str("schedule")?;
    Some(Command::Run {
        setup,
        schedule,
        expect: matches.get_str("expect"),
        begins: matches.get_str("begins"),
        lines: is_given(matches, "lines"),
        json: is_given(matches, "json"),
    })
}

fn recording_matched<'w>(
    alloc: Global,
    matches: &ArgMatches<'w>,
) -> Result<Option<Command<'w>>, AllocError>
    ensures { IfOk result (λ command. option_map asked_by_command command
        ≡ asked_by_recording (first_value (found_of matches.now)) (values_of (found_of matches.now))) }
{
    if matches.get_str("file").is_none() {
        return Ok(None);
    }
    let files = files_matched(alloc, matches)?;
    Ok(Some(Command::Recording {
        files,
        options: options_matched(matches),
    }))
}

/// The paths that stand behind a command which takes one or more.
pub(crate) fn files_matched<'w>(
    alloc: Global,
    matches: &ArgMatches<'w>,
) -> Result<Vec<&'w str>, AllocError>
    ensures { IfOk result (λ files. texts_at files.items ≡ values_of (found_of matches.now) (codes "file")) }
{
    match matches.get_strs("file") {
        Some(files) => files.to_vec(alloc),
        None => Ok(Vec::new(alloc)),
    }
}

pub(crate) fn packets_matched<'w>(matches: &ArgMatches<'w>) -> PacketOptions<'w>
    ensures { asked_by_packets result ≡ packet_options_by (first_value (found_of matches.now)) }
{
    PacketOptions {
        interface: matches.get_str("interface"),
        vlan: matches.get_str("vlan"),
        dedup: matches.get_str("dedup"),
    }
}

pub(crate) fn choice_matched<'w>(matches: &ArgMatches<'w>) -> ChoiceOptions<'w>
    ensures { asked_by_choice result ≡ choice_options_by (first_value (found_of matches.now)) }
{
    ChoiceOptions {
        address: matches.get_str("address"),
        client: matches.get_str("client"),
        from: matches.get_str("from"),
        until: matches.get_str("until"),
        learned: is_given(matches, "learned"),
    }
}

fn options_matched<'w>(matches: &ArgMatches<'w>) -> RecordingOptions<'w>
    ensures { asked_by_options result ≡ recording_options_by (first_value (found_of matches.now)) }
{
    RecordingOptions {
        packets: packets_matched(matches),
        choice: choice_matched(matches),
        ports: matches.get_str("ports"),
        frames: is_given(matches, "frames"),
        endpoints: is_given(matches, "endpoints"),
        json: is_given(matches, "json"),
        service: matches.get_str("service"),
        types: matches.get_str("types"),
        whole: is_given(matches, "whole"),
        limit: matches.get_str("whole-limit"),
        slots: matches.get_str("whole-slots"),
        timeout: matches.get_str("whole-timeout"),
    }
}

fn chart_matched<'w>(matches: &ArgMatches<'w>) -> Option<Command<'w>>
    ensures { option_map asked_by_command result ≡ asked_by_chart (first_value (found_of matches.now)) }
{
    let setup = matches.get_str("setup")?;
    let schedule = matches.get_str("schedule")?;
    Some(Command::Chart { setup, schedule })
}

fn audit_matched<'w>(
    alloc: Global,
    matches: &ArgMatches<'w>,
) -> Result<Option<Command<'w>>, AllocError>
    ensures { IfOk result (λ command. option_map asked_by_command command
        ≡ asked_by_audit (first_value (found_of matches.now)) (values_of (found_of matches.now))) }
{
    if matches.get_str("file").is_none() {
        return Ok(None);
    }
    let files = files_matched(alloc, matches)?;
    Ok(Some(Command::Audit {
        files,
        options: audit_options_matched(matches),
    }))
}

fn audit_options_matched<'w>(matches: &ArgMatches<'w>) -> AuditOptions<'w>
    ensures { asked_by_audit_options result ≡ audit_options_by (first_value (found_of matches.now)) }
{
    AuditOptions {
        packets: packets_matched(matches),
        choice: choice_matched(matches),
        ports: matches.get_str("ports"),
        frames: is_given(matches, "frames"),
        group: is_given(matches, "group"),
        json: is_given(matches, "json"),
        service: matches.get_str("service"),
        settings: settings_matched(matches),
        rules: matches.get_str("rules"),
    }
}

fn settings_matched<'w>(matches: &ArgMatches<'w>) -> SettingOptions<'w>
    ensures { asked_by_settings result ≡ setting_options_by (first_value (found_of matches.now)) }
{
    SettingOptions {
        answer_ms: matches.get_str("answer-ms"),
        settle_ms: matches.get_str("settle-ms"),
        overtake_ms: matches.get_str("overtake-ms"),
        sessions: matches.get_str("sessions"),
    }
}

/// Whether an option without a value was given.
pub(crate) fn is_given(matches: &ArgMatches<'_>, name: &str) -> bool
    ensures { result ≡ is_on (first_value (found_of matches.now) name.now) }
{
    match matches.get_str(name) {
        Some(value) => value == "true",
        None => false,
    }
}
