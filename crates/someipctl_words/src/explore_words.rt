//! The words of `explore`: its options as `clap` is told of them, and what they ask for.
ghost use Rattle.std.specs.Prelude.{◌≡◌, IfOk, false, map, option_map};
ghost use Rattle.clap.specs.Words.{App, app_of, first_value, found_of, rule_of, shape_of};
ghost use Rattle.clap.specs.declared.builder.Command.TheViews.{out-Command};
ghost use Rattle.someipctl_words.specs.CommandLine.{asked_by_command, asked_by_explore, asked_by_explore_options};
ghost use Rattle.someipctl_words.specs.CommandLine.{explore_options_by, explore_usage, texts_at, valued_many};
ghost use Rattle.someipctl_words.specs.CommandLine.{values_of, with_conditions};

use crate::command::{Command, is_given};
use crate::examples::EXPLORE_EXAMPLE;
use crate::grammar::{flag, needed, taking, valued_option};
use clap::{Arg, ArgAction, ArgMatches};
use std::alloc::{AllocError, Global};

/// The options of `explore`.
#[derive(Drop, PartialEq, Eq)]
pub struct ExploreOptions<'w> {
    /// The path of the schedule that all begin with, as it was given.
    pub after: Option<&'w str>,
    /// The text of how many moves a schedule has at most.
    pub steps: Option<&'w str>,
    /// The text of how many schedules are judged at most.
    pub most: Option<&'w str>,
    /// Words that a line has before the goal: each of these.
    pub once: Vec<&'w str>,
    /// Words that no line has before the goal.
    pub never: Vec<&'w str>,
    /// Whether it is told how far the search has come.
    pub progress: bool,
}

/// The command, as `clap` is told of it.
pub(crate) fn explore_definition<'d>(alloc: Global) -> Result<clap::Command<'d>, AllocError>
    ensures shape { IfOk result (λ command. shape_of command ≡ explore_usage) }
    ensures local { IfOk result (λ command. (out-Command command).has_globals ≡ false) }
{
    let command = clap::Command::new(alloc, "explore")
        .about("Tries the schedules of some moves, and prints the first that reaches a goal")
        .after_help(EXPLORE_EXAMPLE);
    let after = valued_option(
        alloc,
        "after",
        "SCHEDULE",
        "Does the steps of this schedule first",
    );
    let steps = valued_option(
        alloc,
        "steps",
        "N",
        "The moves that a schedule has at most, 6 without it",
    );
    let most = valued_option(
        alloc,
        "most",
        "M",
        "The schedules that are judged at most, 10000000 without it",
    );
    let progress = flag(
        alloc,
        "progress",
        "Tells on standard error of each million schedules that were judged",
    );
    let first = taking(Ok(command), after);
    let second = taking(first, steps);
    let third = add_conditions(alloc, taking(second, most));
    let fourth = taking(third, progress);
    let fifth = taking(fourth, needed(alloc, "setup", "SETUP"));
    let sixth = taking(fifth, needed(alloc, "moves", "MOVES"));
    taking(sixth, needed(alloc, "goal", "GOAL"))
}

/// The command with the options that say what stands before the goal.
fn add_conditions<'d>(
    alloc: Global,
    command: Result<clap::Command<'d>, AllocError>,
) -> Result<clap::Command<'d>, AllocError>
    ensures app { (app : App) → IfOk command.entry (λ c. app_of c ≡ app)
        → IfOk result (λ r. app_of r ≡ with_conditions app) }
    ensures local { IfOk command.entry (λ c. (out-Command c).has_globals ≡ false)
        → IfOk result (λ r. (out-Command r).has_globals ≡ false) }
{
    let once = repeated_option(
        alloc,
        "once",
        "WORDS",
        "Only after a line with these words; may be given several times",
    );
    let never = repeated_option(
        alloc,
        "never",
        "WORDS",
        "Only where no line with these words came before; may be given several times",
    );
    let first = taking(command, once);
    taking(first, never)
}

/// An option with a value that may be given several times, by its name.
fn repeated_option<'d>(alloc: Global, name: &'d str, value_name: &'d str, help: &'d str) -> Arg<'d>
    ensures rule { rule_of result ≡ valued_many name.entry.now }
    ensures local { result.global ≡ false }
{
    Arg::new(alloc, name)
        .long(name)
        .value_name(value_name)
        .help(help)
        .action(ArgAction::Append)
}

/// What the matches of `explore` ask for.
pub(crate) fn explore_matched<'w>(
    alloc: Global,
    matches: &ArgMatches<'w>,
) -> Result<Option<Command<'w>>, AllocError>
    ensures { IfOk result (λ command. option_map asked_by_command command
        ≡ asked_by_explore (first_value (found_of matches.now)) (values_of (found_of matches.now))) }
{
    let Some(setup) = matches.get_str("setup") else {
        return Ok(None);
    };
    let Some(moves) = matches.get_str("moves") else {
        return Ok(None);
    };
    let Some(goal) = matches.get_str("goal") else {
        return Ok(None);
    };
    let options = explore_options(alloc, matches)?;
    Ok(Some(Command::Explore {
        setup,
        moves,
        goal,
        options,
    }))
}

fn explore_options<'w>(
    alloc: Global,
    matches: &ArgMatches<'w>,
) -> Result<ExploreOptions<'w>, AllocError>
    ensures { IfOk result (λ options. asked_by_explore_options options
        ≡ explore_options_by (first_value (found_of matches.now)) (values_of (found_of matches.now))) }
{
    Ok(ExploreOptions {
        after: matches.get_str("after"),
        steps: matches.get_str("steps"),
        most: matches.get_str("most"),
        once: values_matched(alloc, matches, "once")?,
        never: values_matched(alloc, matches, "never")?,
        progress: is_given(matches, "progress"),
    })
}

/// All values of an option, of all its uses.
fn values_matched<'w>(
    alloc: Global,
    matches: &ArgMatches<'w>,
    name: &str,
) -> Result<Vec<&'w str>, AllocError>
    ensures { IfOk result (λ values. texts_at values.items ≡ values_of (found_of matches.now) name.now) }
{
    match matches.get_strs(name) {
        Some(values) => values.to_vec(alloc),
        None => Ok(Vec::new(alloc)),
    }
}
