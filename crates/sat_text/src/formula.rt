//! Reads the text of a formula.

ghost use Rattle.std.specs.Prelude.{◌≡◌, ◌<◌, ◌≤◌, ◌+◌, ◌^◌, ℕ, Ok, Err, false, length, IfOk, OnOk, MatchResult};
ghost use Rattle.sat_text.specs.Words.{lines, last_line, words, text_words};
ghost use Rattle.sat_text.specs.Heard.{Heard};
ghost use Rattle.sat_text.specs.Cnf.{first_word_line, formula_from, formula_of, StopsLine, NamesLine, plain_formula};

use crate::clauses::read_clauses;
use crate::faults::Stop;
use crate::header::{HeaderLine, header};
use crate::notes::Comments;
use crate::words::{is_silent, next_line};
use cnf_core::Formula;
use std::alloc::Global;

/// The number of the last line of a text, or 1 where it is empty.
pub(crate) fn last_line(text: &[u8]) -> u64
    requires { length text.now < 2 ^ 62 }
    ensures { result ≡ last_line text.now }
{
    let mut rest = text;
    let mut count = 0u64;
    while let Some((_, later)) = next_line(rest) {
        count += 1;
        rest = later;
    }
    count.max(1)
}

/// The line of the first word of a text, whose first line has the number behind this one.
fn first_word(before: u64, text: &[u8]) -> Stop
    requires few { before + length text.now < 2 ^ 62 }
    ensures { (last : ℕ) → NamesLine last result
        (first_word_line last (text_words (before + 1) (lines text.now))) }
{
    let mut rest = text;
    let mut number = before;
    while let Some((line, later)) = next_line(rest) {
        number += 1;
        if !is_silent(line) {
            return Stop::At(number);
        }
        rest = later;
    }
    Stop::Ends
}

/// The formula of a text, whose comments are heard on the way.
pub(crate) fn read_formula(alloc: Global, text: &[u8], said: &mut Comments) -> Result<Formula, Stop>
    requires { length text.now < 2 ^ 62 }
    ensures heard { OnOk result (Heard said.old said.new (lines text.now)) }
    ensures origin { IfOk result (λ f. f.from_new ≡ false) }
    ensures found { (last : ℕ) → MatchResult result
        (λ f. formula_from last 1 (lines text.now) ≡ Ok (plain_formula f))
        (λ stop. StopsLine last stop (formula_from last 1 (lines text.now))) }
{
    let mut rest = text;
    let mut number = 0u64;
    while let Some((line, later)) = next_line(rest) {
        number += 1;
        if !is_silent(line) {
            return match header(line) {
                HeaderLine::Good(vars, count) => {
                    read_clauses(alloc, vars, count, number, later, said)
                }
                HeaderLine::Short => Err(first_word(number, later)),
                HeaderLine::Wrong => Err(Stop::At(number)),
            };
        }
        said.hear(alloc, line)?;
        rest = later;
    }
    Err(Stop::Ends)
}
