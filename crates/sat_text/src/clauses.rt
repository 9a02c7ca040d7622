//! Reads the clauses of a formula's text.

ghost use Rattle.std.specs.Prelude.{◌≡◌, ◌<◌, ◌≤◌, ◌+◌, ◌^◌, ◌++◌, ◌∷◌, [], false, ℕ, List, Result, Ok, Some, length, unsigned_abs, OnOk, IfOk, MatchResult};
ghost use Rattle.cnf_core.specs.Literal.{Literal, VariablesUpTo};
ghost use Rattle.sat_text.specs.Words.{lines, first_line, behind_line, words, PlacedWord, words_on, text_words};
ghost use Rattle.sat_text.specs.Numbers.{whole_of};
ghost use Rattle.sat_text.specs.Clauses.{in_order};
ghost use Rattle.sat_text.specs.Heard.{Heard};
ghost use Rattle.sat_text.specs.Cnf.{clauses_of_words, Completes, StopsLine};

use crate::faults::Stop;
use crate::items::{is_zero, literal};
use crate::notes::Comments;
use crate::numbers::next_whole;
use crate::proof::order;
use crate::words::{blank, is_comment_line, split_line};
use cnf_core::{Formula, Lit};
use ep_base::Memory;
use std::alloc::Global;

/// Adds the clause that was begun, and begins the next one.
fn end_clause(f: &mut Formula, begun: &mut Vec<Lit>) -> Result<(), Memory>
    requires { VariablesUpTo f.old.vars begun.old.items }
    ensures ok { OnOk result
        (f.new ≡ record f.old { clauses = f.old.clauses ++ in_order begun.old.items ∷ [] }) }
    ensures empty { OnOk result (begun.new.items ≡ []) }
{
    order(begun);
    f.add_ordered(begun.as_slice())?;
    begun.clear();
    Ok(())
}

/// Takes the number of the next word of the clauses.
fn take_number(
    f: &mut Formula,
    left: &mut u64,
    begun: &mut Vec<Lit>,
    line: u64,
    number: i64,
) -> Result<(), Stop>
    requires variables { VariablesUpTo f.old.vars begun.old.items }
    requires small { unsigned_abs number < 10 ^ 18 }
    ensures small { OnOk result (VariablesUpTo f.new.vars begun.new.items) }
    ensures vars { OnOk result (f.new.vars ≡ f.old.vars) }
    ensures origin { OnOk result (f.new.from_new ≡ f.old.from_new) }
    ensures next { (last : ℕ) (word : PlacedWord) (later : List PlacedWord)
        (answer : Result (List (List Literal)) ℕ) →
        word.line ≡ line → whole_of word.bytes ≡ Some number →
        Completes last f.old left.old begun.old.items (word ∷ later) answer →
        MatchResult result
        (λ _. Completes last f.new left.new begun.new.items later answer)
        (λ stop. StopsLine last stop answer) }
{
    if *left == 0 {
        return Err(Stop::At(line));
    }
    if is_zero(number) {
        end_clause(f, begun)?;
        *left -= 1;
        return Ok(());
    }
    let lit = literal(number);
    if lit.var() > f.vars() {
        return Err(Stop::At(line));
    }
    begun.push(lit)?;
    Ok(())
}

/// Takes the words of the first line of a text, and gives what stands behind its line end.
fn take_line<'a>(
    f: &mut Formula,
    left: &mut u64,
    begun: &mut Vec<Lit>,
    number: u64,
    text: &'a [u8],
) -> Result<&'a [u8], Stop>
    requires { VariablesUpTo f.old.vars begun.old.items }
    ensures small { OnOk result (VariablesUpTo f.new.vars begun.new.items) }
    ensures vars { OnOk result (f.new.vars ≡ f.old.vars) }
    ensures origin { OnOk result (f.new.from_new ≡ f.old.from_new) }
    ensures rest { IfOk result (λ rest. rest.now ≡ behind_line text.now) }
    ensures next { (last : ℕ) (later : List PlacedWord) (answer : Result (List (List Literal)) ℕ) →
        Completes last f.old left.old begun.old.items
        (words_on number (words (first_line text.now)) ++ later) answer →
        MatchResult result
        (λ _. Completes last f.new left.new begun.new.items later answer)
        (λ stop. StopsLine last stop answer) }
{
    let mut rest = text;
    while let [b, later @ ..] = rest {
        if *b == b'\n' {
            return Ok(later);
        }
        if blank(*b) {
            rest = later;
        } else {
            let Some((found, after)) = next_whole(rest) else {
                return Err(Stop::At(number));
            };
            take_number(f, left, begun, number, found)?;
            rest = after;
        }
    }
    Ok(rest)
}

/// The clauses of a text, whose first line has the number behind this one, and whose comments are
/// heard on the way.
pub(crate) fn read_clauses(
    alloc: Global,
    vars: u64,
    count: u64,
    before: u64,
    text: &[u8],
    said: &mut Comments,
) -> Result<Formula, Stop>
    requires small { vars < 10 ^ 18 }
    requires few { before + length text.now < 2 ^ 62 }
    ensures vars { IfOk result (λ f. f.vars ≡ vars) }
    ensures origin { IfOk result (λ f. f.from_new ≡ false) }
    ensures heard { OnOk result (Heard said.old said.new (lines text.now)) }
    ensures clauses { (last : ℕ) → MatchResult result
        (λ f. clauses_of_words last vars count [] (text_words (before + 1) (lines text.now))
        ≡ Ok f.clauses)
        (λ stop. StopsLine last stop
        (clauses_of_words last vars count [] (text_words (before + 1) (lines text.now)))) }
{
    let mut f = Formula::with_vars(alloc, vars);
    let mut left = count;
    let mut begun = Vec::new(alloc);
    let mut rest = text;
    let mut number = before;
    while !rest.is_empty() {
        number += 1;
        if is_comment_line(rest) {
            let (line, later) = split_line(rest);
            said.hear(alloc, line)?;
            rest = later;
        } else {
            rest = take_line(&mut f, &mut left, &mut begun, number, rest)?;
        }
    }
    if left == 0 { Ok(f) } else { Err(Stop::Ends) }
}
