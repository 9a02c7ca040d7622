//! Which flat problems can be made into clauses.

ghost use Rattle.std.specs.Prelude.{◌≡◌, ◌<◌, true, IsTrue, map};
ghost use Rattle.std.specs.List.{All};
ghost use Rattle.ep_base.specs.Reads.{IsWithinNumbers};
ghost use Rattle.ep_flat.specs.Cons.{con_variables, kind_variables};
ghost use Rattle.ep_flat.specs.FlatViews.{plain_con, plain_flat, plain_kind};
ghost use Rattle.ep_flat.specs.Flats.{HasSmallCoefficients, HaveSmallNumbers, IsSoundFlat, NamesBelow};

use ep_base::{Run, Runs};
use ep_flat::{Con, ConKind, Flat};

/// The greatest number that a table has.
const MOST: i64 = 1_099_511_627_776;

/// Whether each is one of so many variables.
fn are_below(count: u64, variables: &[u64]) -> bool
    ensures { IsTrue result → All (λ x. x < count) variables.now }
{
    for variable in variables {
        if *variable >= count {
            return false;
        }
    }
    true
}

/// The same of the variables in a clause.
fn has_parts_below(count: u64, parts: &[(bool, u64)]) -> bool
    ensures { IsTrue result → All (λ x. x < count) (map (λ p. p.1) parts.now) }
{
    for part in parts {
        if part.1 >= count {
            return false;
        }
    }
    true
}

/// The same of the variables in a sum.
fn has_terms_below(count: u64, parts: &[(i64, u64)]) -> bool
    ensures { IsTrue result → All (λ x. x < count) (map (λ p. p.1) parts.now) }
{
    for part in parts {
        if part.1 >= count {
            return false;
        }
    }
    true
}

/// Whether a number is small.
fn is_small_number(number: i64) -> bool
    ensures { result ≡ true → IsWithinNumbers number }
{
    number >= -MOST && number <= MOST
}

/// Whether the ends of a run are small.
fn has_small_ends(run: Run) -> bool
    ensures low { result ≡ true → IsWithinNumbers run.lo }
    ensures high { result ≡ true → IsWithinNumbers run.hi }
{
    is_small_number(run.lo) && is_small_number(run.hi)
}

/// Whether each coefficient is small.
fn has_small_terms(parts: &[(i64, u64)]) -> bool
    ensures { IsTrue result → All IsWithinNumbers (map (λ p. p.0) parts.now) }
{
    for part in parts {
        if !is_small_number(part.0) {
            return false;
        }
    }
    true
}

/// Whether each number of a set is small.
fn is_small(set: &Runs) -> bool
    ensures { IsTrue result → All IsWithinNumbers set.now }
{
    let parts = set.runs();
    for run in parts {
        if !has_small_ends(*run) {
            return false;
        }
    }
    true
}

/// Whether each number of some sets is small.
fn are_small(domains: &[Runs]) -> bool
    ensures { IsTrue result → HaveSmallNumbers domains.now }
{
    for domain in domains {
        if !is_small(domain) {
            return false;
        }
    }
    true
}

/// Whether the coefficients of a constraint are small.
#[tactic(auto, unfolding(ep_flat::specs::Cons::kind_coefficients), using(crate::proofs::Small::all_none))]
fn has_small_coefficients(con: &Con) -> bool
    ensures { IsTrue result → HasSmallCoefficients (plain_con con.now) }
{
    match &con.kind {
        ConKind::Linear(parts, _, _) => has_small_terms(parts),
        _ => true,
    }
}

/// Whether a constraint names variables below a number alone.
#[tactic(auto, unfolding(ep_flat::specs::Cons::kind_variables), using(crate::proofs::Small::all_none, crate::proofs::Small::all_more, crate::proofs::Small::all_both))]
fn names_below(count: u64, kind: &ConKind) -> bool
    ensures { IsTrue result → All (λ x. x < count) (kind_variables (plain_kind kind.now)) }
{
    match kind {
        ConKind::Clause(parts) => has_parts_below(count, parts),
        ConKind::Linear(parts, _, _) => has_terms_below(count, parts),
        ConKind::All(xs) | ConKind::AllDiff(xs) => are_below(count, xs),
        ConKind::AtLeast(xs, _, _) | ConKind::AtMost(xs, _, _) => are_below(count, xs),
        ConKind::Table(xs, _) => are_below(count, xs),
        ConKind::Member(x, _) => *x < count,
        ConKind::Same(x, y) | ConKind::Power(x, y, _) | ConKind::Absolute(x, y) => {
            *x < count && *y < count
        }
        ConKind::Product(r, x, y) | ConKind::Quotient(r, x, y) | ConKind::Remainder(r, x, y) => {
            *r < count && *x < count && *y < count
        }
        ConKind::Least(r, xs) | ConKind::Greatest(r, xs) => *r < count && are_below(count, xs),
        ConKind::Gcc(xs, _, ys) | ConKind::Lex(_, xs, ys) => {
            are_below(count, xs) && are_below(count, ys)
        }
        ConKind::Element(r, xs, _, indices) => {
            *r < count && are_below(count, xs) && are_below(count, indices)
        }
    }
}

/// Whether a constraint with its variable does.
#[tactic(auto, unfolding(ep_flat::specs::Cons::con_variables), using(crate::proofs::Small::all_none, crate::proofs::Small::all_more, crate::proofs::Small::all_both))]
fn con_names_below(count: u64, con: &Con) -> bool
    ensures { IsTrue result → NamesBelow count (plain_con con.now) }
{
    let is_named = match con.truth {
        Some(truth) => truth < count,
        None => true,
    };
    is_named && names_below(count, &con.kind)
}

/// Whether all constraints do.
fn all_name_below(count: u64, cons: &[Con]) -> bool
    ensures { IsTrue result → All (NamesBelow count) (map plain_con cons.now) }
{
    for con in cons {
        if !con_names_below(count, con) {
            return false;
        }
    }
    true
}

/// Whether the coefficients of all constraints are small.
fn have_small_coefficients(cons: &[Con]) -> bool
    ensures { IsTrue result → All HasSmallCoefficients (map plain_con cons.now) }
{
    for con in cons {
        if !has_small_coefficients(con) {
            return false;
        }
    }
    true
}

/// Whether a flat problem names its own variables alone, with numbers that are small enough.
pub(crate) fn is_sound(flat: &Flat) -> bool
    ensures { IsTrue result → IsSoundFlat (plain_flat flat.now) }
{
    let count = flat.vars.len() as u64;
    all_name_below(count, &flat.cons)
        && are_small(&flat.vars)
        && have_small_coefficients(&flat.cons)
}
