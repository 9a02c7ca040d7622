//! The values that options are given.

ghost use Rattle.std.specs.Prelude.{◌≡◌, ◌≤◌, ℕ, List, length, true, map, option_map, IfOk, MatchResult};
ghost use Rattle.ep_words.specs.Settings.{value_of};
ghost use Rattle.ep_words.specs.Jobs.{number_within, solution_count, sets_only, conflicts_of, cubes_of, workers_of};
ghost use Rattle.ep_words.specs.Views.{settings_of};
ghost use Rattle.std.specs.List.{list_all, list_any};
ghost use Rattle.std.specs.Str.{bytes_eq};
ghost use Rattle.std.specs.Char.{is_ascii_digit};
ghost use Rattle.ep_base.specs.TokenTexts.{is_number};
ghost use Rattle.std.specs.Str.Parse.{digits_value};

use crate::errors::WordsError;
use clap::ArgMatches;
use ep_base::{Memory, Word};
use std::alloc::Global;

/// How many solutions there may be at most.
const MOST_SOLUTIONS: u64 = 1_000_000;

/// Whether no option is set but some.
pub(crate) fn set_only(settings: &ArgMatches, names: &[&str]) -> bool
    ensures { result ≡ sets_only (map (λ name. name.now) names.now) (settings_of settings.now) }
{
    for name in settings.ids() {
        if settings.get_str(name).is_some() && !is_among(names, name) {
            return false;
        }
    }
    true
}

/// The value that an option is given, if it is set.
pub(crate) fn value_in<'a>(settings: &ArgMatches<'a>, name: &str) -> Option<&'a str>
    ensures { option_map (λ value. value.now) result ≡ value_of name.now (settings_of settings.now) }
{
    settings.get_str(name)
}

/// A copy of the value that an option is given, if it is set.
pub(crate) fn word_in(
    alloc: Global,
    settings: &ArgMatches,
    name: &str,
) -> Result<Option<Word>, Memory>
    ensures { IfOk result (λ word. word ≡ value_of name.now (settings_of settings.now)) }
{
    match value_in(settings, name) {
        Some(value) => Ok(Some(Word::new(alloc, value)?)),
        None => Ok(None),
    }
}

/// A copy of the value of an option that has to be set.
pub(crate) fn needed_word(
    alloc: Global,
    settings: &ArgMatches,
    name: &str,
) -> Result<Word, WordsError>
    ensures { MatchResult result
        (λ word. value_of name.now (settings_of settings.now) ≡ Some word)
        (λ error. error ≡ WordsError.Usage → value_of name.now (settings_of settings.now) ≡ None) }
{
    match value_in(settings, name) {
        Some(value) => Ok(Word::new(alloc, value)?),
        None => Err(WordsError::Usage),
    }
}

/// How many conflicts the search may take.
pub(crate) fn conflicts(settings: &ArgMatches) -> Option<u64>
    ensures { result ≡ conflicts_of (settings_of settings.now) }
{
    match value_in(settings, "conflicts") {
        Some(text) => number(text, 1, 1_000_000_000),
        None => Some(1_000_000),
    }
}

/// How many workers there are to be.
pub(crate) fn workers(settings: &ArgMatches) -> Option<u64>
    ensures { result ≡ workers_of (settings_of settings.now) }
{
    match value_in(settings, "workers") {
        Some(text) => number(text, 1, 64),
        None => Some(1),
    }
}

/// Over how many variables a formula is to be divided, where that is wanted.
pub(crate) fn cubes(settings: &ArgMatches) -> Result<Option<u64>, WordsError>
    ensures { MatchResult result
        (λ cubes. cubes_of (settings_of settings.now) ≡ Some cubes)
        (λ error. error ≡ WordsError.Usage → cubes_of (settings_of settings.now) ≡ None) }
{
    match value_in(settings, "cubes") {
        Some(text) => match number(text, 1, 6) {
            Some(count) => Ok(Some(count)),
            None => Err(WordsError::Usage),
        },
        None => Ok(None),
    }
}

/// A number of solutions, or `all`.
pub(crate) fn solutions(text: &str) -> Option<u64>
    ensures { result ≡ solution_count text.now }
{
    if text == "all" {
        return Some(MOST_SOLUTIONS);
    }
    number(text, 1, MOST_SOLUTIONS)
}

/// The number that one to ten decimal digits write, if it lies between two others.
pub(crate) fn number(text: &str, least: u64, greatest: u64) -> Option<u64>
    ensures { result ≡ number_within least greatest text.now }
{
    if !all_digits(text) || text.len() > 10 {
        return None;
    }
    let number = digits_number(text);
    if least <= number && number <= greatest {
        Some(number)
    } else {
        None
    }
}

/// Whether a text is one digit or more.
fn all_digits(text: &str) -> bool
    ensures { result ≡ is_number text.now }
{
    match text.as_bytes() {
        [] => false,
        digits => are_digits(digits),
    }
}

fn are_digits(bytes: &[u8]) -> bool
    ensures { result ≡ list_all is_ascii_digit bytes.now }
{
    bytes.iter().all(|byte| byte.is_ascii_digit())
}

/// The number that at most ten digits write.
fn digits_number(text: &str) -> u64
    requires few { length text.now ≤ 10 }
    requires digits { is_number text.now ≡ true }
    ensures { result ≡ digits_value 10 text.now }
{
    text.parse::<u64>().unwrap()
}

/// Whether a text is one of some names.
pub(crate) fn is_among(names: &[&str], name: &str) -> bool
    ensures { result ≡ list_any (λ other. bytes_eq other.now name.now) names.now }
{
    names.iter().any(|other| *other == name)
}
