//! Reads the header of a formula's text.

ghost use Rattle.std.specs.Prelude.{◌≡◌, ◌<◌, ◌^◌, IfSome};
ghost use Rattle.sat_text.specs.Words.{words};
ghost use Rattle.sat_text.specs.Numbers.{natural_of};
ghost use Rattle.sat_text.specs.Cnf.{is_p, is_cnf, header_end, header_count, header_vars, header_format, header_of, HasFewVariables};

use crate::numbers::natural;
use crate::words::next_word;

/// What a line says as the header.
#[derive(Clone, Copy, Debug, PartialEq, Eq)]
pub enum HeaderLine {
    /// The numbers of variables and of clauses.
    Good(u64, u64),
    /// Words are wanting.
    Short,
    /// A word is wrong.
    Wrong,
}

fn is_letter_p(word: &[u8]) -> bool
    ensures { result ≡ is_p word.now }
{
    matches!(word, [b'p'])
}

fn is_word_cnf(word: &[u8]) -> bool
    ensures { result ≡ is_cnf word.now }
{
    matches!(word, [b'c', b'n', b'f'])
}

fn end(vars: u64, count: Option<u64>, line: &[u8]) -> HeaderLine
    ensures value { result ≡ header_end vars count (words line.now) }
    ensures small { vars < 10 ^ 18 → HasFewVariables result }
{
    let Some(count) = count else {
        return HeaderLine::Wrong;
    };
    match next_word(line) {
        None => HeaderLine::Good(vars, count),
        Some(_) => HeaderLine::Wrong,
    }
}

#[tactic(auto, unfolding(crate::specs::Cnf::header_count))]
fn count(vars: Option<u64>, line: &[u8]) -> HeaderLine
    requires { IfSome vars (λ n. n < 10 ^ 18) }
    ensures value { result ≡ header_count vars (words line.now) }
    ensures small { HasFewVariables result }
{
    let Some(vars) = vars else {
        return HeaderLine::Wrong;
    };
    match next_word(line) {
        None => HeaderLine::Short,
        Some((word, later)) => end(vars, natural(word), later),
    }
}

#[tactic(auto, unfolding(crate::specs::Cnf::header_vars))]
fn variables(line: &[u8]) -> HeaderLine
    ensures value { result ≡ header_vars (words line.now) }
    ensures small { HasFewVariables result }
{
    match next_word(line) {
        None => HeaderLine::Short,
        Some((word, later)) => count(natural(word), later),
    }
}

#[tactic(auto, unfolding(crate::specs::Cnf::header_format))]
fn format(line: &[u8]) -> HeaderLine
    ensures value { result ≡ header_format (words line.now) }
    ensures small { HasFewVariables result }
{
    match next_word(line) {
        None => HeaderLine::Short,
        Some((word, later)) => {
            if is_word_cnf(word) {
                variables(later)
            } else {
                HeaderLine::Wrong
            }
        }
    }
}

/// What a line says as the header.
#[tactic(auto, unfolding(crate::specs::Cnf::header_of))]
pub(crate) fn header(line: &[u8]) -> HeaderLine
    ensures value { result ≡ header_of (words line.now) }
    ensures small { HasFewVariables result }
{
    match next_word(line) {
        None => HeaderLine::Short,
        Some((word, later)) => {
            if is_letter_p(word) {
                format(later)
            } else {
                HeaderLine::Wrong
            }
        }
    }
}
