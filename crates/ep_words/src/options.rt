//! The options, as `clap` reads them.

ghost use Rattle.std.specs.Prelude.{◌≡◌, ◌≢◌, [], false, map, IfOk, MatchResult};
ghost use Rattle.clap.specs.Words.{app_of, fault_of, found_of, rows_of, rule_of, matches_of};
ghost use Rattle.ep_words.specs.Settings.{options};
ghost use Rattle.ep_words.specs.Options.{command_with, option_rule};

use crate::errors::WordsError;
use clap::builder::ValueParser;
use clap::{Arg, ArgAction, ArgMatches, Command};
use std::alloc::{AllocError, Global};

/// The names of the options.
const OPTIONS: [&str; 18] = [
    "task",
    "in-eprime",
    "in-param",
    "in-solution",
    "in-cnf",
    "in-log",
    "in-opb",
    "solutions",
    "conflicts",
    "workers",
    "cubes",
    "number",
    "out-eprime",
    "out-param",
    "out-cnf",
    "out-log",
    "out-solution",
    "undefined",
];

/// The options that the words set, with their values.
pub(crate) fn matches_of<'a>(
    alloc: Global,
    words: &'a [&'a str],
) -> Result<ArgMatches<'a>, WordsError>
    ensures { MatchResult result
        (λ matches. (fault_of (command_with options) (map (λ word. word.now) words.now) ≡ [])
        × (rows_of (found_of matches)
        ≡ matches_of (command_with options) (map (λ word. word.now) words.now)))
        (λ error. error ≡ WordsError.Usage
        → fault_of (command_with options) (map (λ word. word.now) words.now) ≢ []) }
{
    Ok(command(alloc)?.try_get_matches_from(words)?)
}

/// A command with the options, and with nothing else: no help, and no program's name before them.
fn command<'a>(alloc: Global) -> Result<Command<'a>, AllocError>
    ensures { IfOk result (λ command. app_of command ≡ command_with options) }
{
    let mut command = Command::new(alloc, "epsat")
        .no_binary_name(true)
        .disable_help_flag(true);
    for name in OPTIONS {
        command = command.arg(option(alloc, name))?;
    }
    Ok(command)
}

/// An option that takes one value, which isn't empty.
fn option<'a>(alloc: Global, name: &'a str) -> Arg<'a>
    ensures rule { rule_of result ≡ option_rule name.now }
    ensures local { result.global ≡ false }
{
    Arg::new(alloc, name)
        .long(name)
        .action(ArgAction::Set)
        .value_parser(ValueParser::NonEmptyString)
}
