//! The settings that words make.

ghost use Rattle.std.specs.Prelude.{◌≡◌, ◌==◌, ◌||◌, ℕ, List, map, not, IfOk, IfErr};
ghost use Rattle.std.specs.List.{list_all};
ghost use Rattle.ep_words.specs.Settings.{Setting, MakeSettings, AreSetOnce};
ghost use Rattle.ep_words.specs.Options.{is_fit};
ghost use Rattle.ep_words.specs.Views.{settings_of};

use crate::errors::WordsError;
use crate::options::matches_of;
use clap::ArgMatches;
use std::alloc::Global;

/// The settings that the words make.
pub(crate) fn settings_of<'a>(
    alloc: Global,
    words: &'a [&'a str],
) -> Result<ArgMatches<'a>, WordsError>
    ensures made { IfOk result (λ made.
        MakeSettings (map (λ word. word.now) words.now) (settings_of made)
        × AreSetOnce (settings_of made)) }
    ensures usage { IfErr result (λ error. error ≡ WordsError.Usage → (all : List Setting)
        → MakeSettings (map (λ word. word.now) words.now) all → ¬ AreSetOnce all) }
{
    if !all_fit(words) {
        return Err(WordsError::Usage);
    }
    matches_of(alloc, words)
}

/// Whether each word begins with `--` and goes on, or doesn't begin with `-`: `clap` takes `-` as
/// a value, and lets `--` stand.
fn all_fit(words: &[&str]) -> bool
    ensures { result ≡ list_all (λ word. is_fit word.now) words.now }
{
    words.iter().all(|word| is_fit(word))
}

/// Whether a word begins with `--` and goes on, or doesn't begin with `-`.
fn is_fit(word: &str) -> bool
    ensures { result ≡ is_fit word.now }
{
    match word.as_bytes() {
        [] => true,
        [first] | [first, _] => *first != b'-',
        [first, second, ..] => *first != b'-' || *second == b'-',
    }
}
