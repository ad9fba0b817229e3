//! Why the program did not do its work.
//!
//! A text for standard error stands once, at the lowest error that says it: `line L: bad hex` at
//! `BadCaptureLine`, `line L: bad step` at `ScheduleError`, `bad shape at P` at `ShapeTextError`. The
//! `Failure` of the program prints that one.
ghost use Rattle.std.specs.Prelude.{◌≡◌};
ghost use Rattle.someipctl_cli.specs.Failures.{failure_of, failure_of_list, failure_of_services};
ghost use Rattle.someipctl_cli.specs.Failures.{status_of_failure};

use recording::RecordingError;
use someipctl_audit::SettingError;
use someipctl_explore::{GoalRefusal, MovesRefusal};
use someipctl_io::{Fault, ReadFault};
use someipctl_recordings::LimitsError;
use someipctl_recordings::lists::ListError;
use someipctl_rules::RulesRefusal;
use someipctl_run::{BadTraceLine, ScheduleRefusal, SetupRefusal};
use someipctl_show::BadCaptureLine;
use someipctl_show::payload::PayloadRefusal;
use someipctl_show::services::ServicesError;
use someipctl_show::types::TypesRefusal;
use someipctl_show::vectors::BadVectorLine;
use thiserror::Error;

/// Why an input is refused, for each command.
#[derive(Debug, Drop, Error)]
pub enum Refusal {
    /// That of a capture.
    #[error(transparent)]
    Capture(BadCaptureLine),
    /// That of a file of vectors.
    #[error(transparent)]
    Vectors(BadVectorLine),
    /// That of a setup.
    #[error(transparent)]
    Setup(SetupRefusal),
    /// That of an expected trace.
    #[error(transparent)]
    Trace(BadTraceLine),
    /// That of a schedule.
    #[error(transparent)]
    Schedule(ScheduleRefusal),
    /// That of the arguments of `payload` or of `encode`.
    #[error(transparent)]
    Payload(PayloadRefusal),
    /// A recording has a fault. What comes before it was shown.
    #[error("recording: {0}")]
    Recording(RecordingError),
    /// That of a file of moves.
    #[error(transparent)]
    Moves(MovesRefusal),
    /// That of the words of a goal.
    #[error(transparent)]
    Goal(GoalRefusal),
    /// That of a types file.
    #[error(transparent)]
    Types(TypesRefusal),
    /// That of a file of rules.
    #[error(transparent)]
    Rules(RulesRefusal),
}

/// An option of `recording`, `audit` or `explore` whose value is checked behind the words of the call.
#[derive(Clone, Copy, Debug, PartialEq, Eq)]
pub enum OptionName {
    /// `--ports`.
    Ports,
    /// `--address`.
    Address,
    /// `--client`.
    Client,
    /// `--from`.
    From,
    /// `--until`.
    Until,
    /// `--interface`.
    Interface,
    /// `--vlan`.
    Vlan,
    /// `--dedup`.
    Dedup,
    /// `--steps`.
    Steps,
    /// `--most`.
    Most,
}

/// Why the program did not do its work. Printed, it is the text for standard error.
#[derive(Debug, Drop, Error)]
pub enum Failure<'p> {
    /// An input is refused.
    #[error(transparent)]
    Refused(Refusal),
    /// One of several recordings, at this path, has a fault. What comes before it was shown.
    #[error("recording: {0}: {1}")]
    RecordingOf(&'p str, RecordingError),
    /// This text is no value of an option, of a command that is used so.
    #[error("error: invalid value '{}' for '{}': {}\n\nUsage: someipctl {}", .1, form_of(*.0), values_of(*.0), .2)]
    BadOption(OptionName, &'p str, &'static str),
    /// This text names no services, of a command that is used so.
    #[error("error: invalid value '{0}' for '--service <SERVICES>': services are four hex digits, perhaps with a dot and four more, with commas between them\n\nUsage: someipctl {1}")]
    BadServices(&'p str, &'static str),
    /// One of the limits of messages that are put together is none.
    #[error("error: invalid value for '{}': {}\n\nUsage: someipctl recording [OPTIONS] <FILE>...", option_of(*.0), .0)]
    BadLimits(LimitsError),
    /// One of the settings of an audit is none, of a command that is used so.
    #[error("error: invalid value for '{}': {}\n\nUsage: someipctl {}", option_of_setting(*.0), .0, .1)]
    BadSetting(SettingError, &'static str),
    /// Such a limit was given, and messages are not put together.
    #[error("error: limits of whole messages need '--whole'\n\nUsage: someipctl recording [OPTIONS] <FILE>...")]
    LimitAlone,
    /// Both a whole trace and the beginning of one are expected of a run.
    #[error("error: the argument '--expect <TRACE>' cannot be used with '--begins <TRACE>'\n\nUsage: someipctl run [OPTIONS] <SETUP> <SCHEDULE>")]
    ExpectAndBegins,
    /// A trace is expected of a run, by this option, and objects are asked for.
    #[error("error: the argument '--json' cannot be used with '{0} <TRACE>'\n\nUsage: someipctl run [OPTIONS] <SETUP> <SCHEDULE>")]
    JsonAndExpected(&'static str),
    /// The arguments are no call of the program.
    #[error("{0}")]
    Usage(clap::Error),
    /// A word of the command line is no UTF-8.
    #[error("error: a word is no UTF-8\n\nUsage: someipctl <COMMAND>")]
    NotText,
    /// Memory ran out.
    #[error("{}", ReadFault::OutOfMemory)]
    OutOfMemory,
    /// The file at this path could not be read.
    #[error("{} {}", ReadFault::CannotRead, .0)]
    CannotRead(&'p str),
    /// Standard output could not be written.
    #[error("{}", someipctl_io::CannotWrite)]
    CannotWrite,
}

impl<'p> Failure<'p> {
    /// The program's exit status: 1 where an input is refused, 2 for usage, 3 where memory ran out,
    /// 4 where reading or writing failed.
    pub fn status(&self) -> u8
        ensures { result ≡ status_of_failure self.now }
    {
        match self {
            Failure::Refused(_) | Failure::RecordingOf(_, _) => 1,
            Failure::Usage(_)
            | Failure::NotText
            | Failure::BadOption(_, _, _)
            | Failure::BadServices(_, _)
            | Failure::BadLimits(_)
            | Failure::BadSetting(_, _)
            | Failure::LimitAlone
            | Failure::ExpectAndBegins
            | Failure::JsonAndExpected(_) => 2,
            Failure::OutOfMemory => 3,
            Failure::CannotRead(_) | Failure::CannotWrite => 4,
        }
    }

    /// Why a command failed that reads the file at a path.
    pub fn of(fault: Fault<Refusal>, path: &'p str) -> Failure<'p>
        ensures { result ≡ failure_of fault path.entry }
    {
        match fault {
            Fault::Refused(refusal) => Failure::Refused(refusal),
            Fault::CannotRead => Failure::CannotRead(path),
            Fault::CannotWrite => Failure::CannotWrite,
            Fault::OutOfMemory => Failure::OutOfMemory,
        }
    }

    /// Why a text of an option names no list, of a command that is used so.
    pub fn of_list(
        error: ListError,
        option: OptionName,
        text: &'p str,
        usage: &'static str,
    ) -> Failure<'p>
        ensures { result ≡ failure_of_list error option text.entry usage.entry }
    {
        match error {
            ListError::BadList => Failure::BadOption(option, text, usage),
            ListError::OutOfMemory => Failure::OutOfMemory,
        }
    }

    /// Why a text names no services, of a command that is used so.
    pub fn of_services(error: ServicesError, text: &'p str, usage: &'static str) -> Failure<'p>
        ensures { result ≡ failure_of_services error text.entry usage.entry }
    {
        match error {
            ServicesError::BadServices => Failure::BadServices(text, usage),
            ServicesError::OutOfMemory => Failure::OutOfMemory,
        }
    }
}

/// The option with what help calls its value.
fn form_of(option: OptionName) -> &'static str {
    match option {
        OptionName::Ports => "--ports <PORTS>",
        OptionName::Address => "--address <A>",
        OptionName::Client => "--client <C>",
        OptionName::From => "--from <TIME>",
        OptionName::Until => "--until <TIME>",
        OptionName::Interface => "--interface <N>",
        OptionName::Vlan => "--vlan <ID>",
        OptionName::Dedup => "--dedup <MS>",
        OptionName::Steps => "--steps <N>",
        OptionName::Most => "--most <M>",
    }
}

/// What its values are.
fn values_of(option: OptionName) -> &'static str {
    match option {
        OptionName::Ports => "ports are numbers from 1 to 65535 with commas between them",
        OptionName::Address => "addresses are IPv4 addresses with commas between them",
        OptionName::Client => "a client is four hex digits",
        OptionName::From | OptionName::Until => {
            "a time is seconds since 1970, perhaps with a dot and up to nine decimals"
        }
        OptionName::Interface => "interfaces are numbers from 0 to 65535 with commas between them",
        OptionName::Vlan => "VLAN IDs are numbers from 0 to 4095 with commas between them",
        OptionName::Dedup => "copies come within 1 to 60000 milliseconds",
        OptionName::Steps => "steps are a number from 0 to 16",
        OptionName::Most => "schedules are a number from 1 to 1000000000000",
    }
}

/// The option that says such a setting.
fn option_of_setting(error: SettingError) -> &'static str {
    match error {
        SettingError::BadAnswer => "--answer-ms <N>",
        SettingError::BadSettle => "--settle-ms <N>",
        SettingError::BadOvertake => "--overtake-ms <N>",
        SettingError::BadSessions => "--sessions <HOW>",
    }
}

/// The option that says such a limit.
fn option_of(error: LimitsError) -> &'static str {
    match error {
        LimitsError::BadLimit => "--whole-limit <N>",
        LimitsError::BadSlots => "--whole-slots <N>",
        LimitsError::BadTimeout => "--whole-timeout <MS>",
    }
}
