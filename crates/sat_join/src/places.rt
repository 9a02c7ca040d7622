//! Where the clauses that the steps of a cube name stand in the joined log.

ghost use Rattle.std.specs.Prelude.{◌≡◌, ℕ, ◌+◌, ◌^◌, ◌<◌, ◌++◌, All, IfOk, IfSome, IfNone, length, map};
ghost use Rattle.std.specs.List.{list_any, list_all};
ghost use Rattle.cnf_core.specs.Literal.{negation, is_among, same_literal, HaveSameLiterals, IsClause};
ghost use Rattle.cnf_core.specs.Events.{clauses_of};
ghost use Rattle.cnf_core.specs.Reading.{is_false};
ghost use Rattle.sat_split.specs.Cubes.{IsFalseIn};
ghost use Rattle.sat_join.specs.Joins.{ArePlaces, IsPlace, IsRefutedAt, IsWidened};

use cnf_core::{Clause, ClauseList, EventList, Lit};
use ep_base::Memory;
use std::alloc::Global;

fn is_same(one: &Lit, other: &Lit) -> bool
    ensures { result ≡ same_literal one.now other.now }
{
    one.var() == other.var() && one.positive() == other.positive()
}

fn is_among(literals: &[Lit], lit: &Lit) -> bool
    ensures { result ≡ is_among literals.now lit.now }
{
    literals.iter().any(|one| is_same(lit, one))
}

// Whether a clause has a literal of the cube.
fn has_one_of(literals: &[Lit], clause: &[Lit]) -> bool
    ensures { result ≡ list_any (is_among literals.now) clause.now }
{
    clause.iter().any(|lit| is_among(literals, lit))
}

// The place in the joined log of what a hint names in the log of a cube. None is left of the cube's own literals, and of clauses
// that one of them makes true.
fn place_of(givens: &ClauseList, literals: &[Lit], first: u64, hint: u64) -> Option<u64>
    requires { first + hint < 2 ^ 64 }
    ensures { IsPlace givens.now literals.now first hint result }
{
    let given = givens.len() as u64;
    if hint < given {
        if has_one_of(literals, givens.clause(hint as usize)) {
            return None;
        }
        return Some(hint);
    }
    let beyond = hint - given;
    let own = literals.len() as u64;
    if beyond < own {
        return None;
    }
    Some(first + (beyond - own))
}

/// The places in the joined log of what the hints of a cube's step name, where the first step of the cube has this place.
pub(crate) fn places_of(
    alloc: Global,
    givens: &ClauseList,
    literals: &[Lit],
    first: u64,
    hints: &[u64],
) -> Result<Vec<u64>, Memory>
    requires { All (λ hint. first + hint < 2 ^ 64) hints.now }
    ensures { IfOk result (λ places. ArePlaces givens.now literals.now first hints.now places.items) }
{
    let mut places = Vec::new(alloc);
    for hint in hints {
        if let Some(place) = place_of(givens, literals, first, *hint) {
            places.push(place)?;
        }
    }
    Ok(places)
}

// The negations of literals.
fn negated(alloc: Global, literals: &[Lit]) -> Result<Vec<Lit>, Memory>
    ensures { IfOk result (λ all. all.items ≡ map negation literals.now) }
{
    let mut all = Vec::new(alloc);
    for lit in literals {
        all.push(lit.negated())?;
    }
    Ok(all)
}

/// A clause with the negations of the cube's literals.
pub(crate) fn widened(alloc: Global, clause: &[Lit], literals: &[Lit]) -> Result<Clause, Memory>
    ensures same { IfOk result (λ wide. IsWidened literals.now clause.now wide) }
    ensures clause { IfOk result (λ wide. IsClause wide) }
{
    let mut all = negated(alloc, literals)?;
    for lit in clause {
        all.push(*lit)?;
    }
    Clause::new(alloc, all)
}

/// The clause of the negations of literals.
pub(crate) fn refutation(alloc: Global, literals: &[Lit]) -> Result<Clause, Memory>
    ensures same { IfOk result (λ clause. HaveSameLiterals clause (map negation literals.now)) }
    ensures clause { IfOk result (λ clause. IsClause clause) }
{
    let all = negated(alloc, literals)?;
    Clause::new(alloc, all)
}

// Whether each literal of a clause is false where these are true.
fn is_false_in(literals: &[Lit], clause: &[Lit]) -> bool
    ensures { result ≡ list_all (is_false literals.now) clause.now }
{
    clause.iter().all(|lit| is_among(literals, &lit.negated()))
}

/// The first event each of whose literals is false where these are true.
pub(crate) fn find_false(events: &EventList, literals: &[Lit]) -> Option<u64>
    ensures found { IfSome result (λ place. IsRefutedAt events.now literals.now place) }
    ensures none { IfNone result (All (λ other. IsFalseIn literals.now other → ⊥) (clauses_of events.now)) }
{
    for place in 0..events.len() {
        if is_false_in(literals, events.clause(place)) {
            return Some(place as u64);
        }
    }
    None
}
