//! Resolves what refutes the cubes in pairs.

ghost use Rattle.std.specs.Prelude.{◌≡◌, ℕ, ◌^◌, ◌<◌, ◌∷◌, List, All, IfOk, OnOk, IsTrue, length};
ghost use Rattle.cnf_core.specs.Literal.{Literal, IsVariable};
ghost use Rattle.sat_search.specs.Logs.{EndsWithEmptyStep};
ghost use Rattle.sat_join.specs.Joins.{Divides, IsClosing, IsLogOfClauses, RefutesCubes, KeepsNew};

use crate::joining::refute;
use cnf_core::{Clause, Formula, Log};
use ep_base::Memory;
use sat_split::cube_literals;
use std::alloc::Global;

// For each pair of cubes that the variable before these tells apart, the place of what refutes both.
fn halved(alloc: Global, joined: &mut Log, vars: &[u64], ends: &[u64]) -> Result<Vec<u64>, Memory>
    requires variables { All IsVariable vars.now }
    requires there { All (λ e. e < length joined.old.events) ends.now }
    ensures closing { IfOk result (λ halves. (clauses : List (List Literal)) (v : ℕ) → Divides clauses (v ∷ vars.now)
        → IsClosing clauses (v ∷ vars.now) ends.now joined.old.events
        → IsClosing clauses vars.now halves.items joined.new.events × KeepsNew joined.old.events joined.new.events) }
    ensures notes { OnOk result (joined.new.notes ≡ joined.old.notes) }
    ensures base { OnOk result (joined.new.base ≡ joined.old.base) }
{
    let mut halves = Vec::new(alloc);
    for cube in 0..ends.len() / 2 {
        let mut hints = Vec::new(alloc);
        hints.push(ends[2 * cube])?;
        hints.push(ends[2 * cube + 1])?;
        let literals = cube_literals(alloc, cube as u64, vars)?;
        halves.push(refute(alloc, joined, &literals, hints)?)?;
    }
    Ok(halves)
}

// Whether the last event is the empty step.
fn is_closed(joined: &Log) -> bool
    ensures { IsTrue result → EndsWithEmptyStep joined.now.events }
{
    let events = joined.events();
    let count = events.len();
    count > 0 && events.hints(count - 1).is_some() && events.clause(count - 1).is_empty()
}

/// Ends a log in which all cubes are joined with the empty step.
pub fn close(
    alloc: Global,
    formula: &Formula,
    vars: &[u64],
    ends: Vec<u64>,
    joined: &mut Log,
) -> Result<(), Memory>
    requires divides { Divides formula.now.clauses vars.now }
    requires joint { RefutesCubes formula.now.clauses vars.now ends.items joined.old.events }
    requires all { length ends.items ≡ 2 ^ length vars.now }
    ensures joined { OnOk result (IsLogOfClauses formula.now.clauses joined.new.events) }
    ensures new { OnOk result (KeepsNew joined.old.events joined.new.events) }
    ensures ends { OnOk result (EndsWithEmptyStep joined.new.events) }
    ensures notes { OnOk result (joined.new.notes ≡ joined.old.notes) }
    ensures base { OnOk result (joined.new.base ≡ joined.old.base) }
{
    let mut ends = ends;
    let mut rest = vars;
    while let Some((_, later)) = rest.split_first() {
        ends = halved(alloc, joined, later, &ends)?;
        rest = later;
    }
    if is_closed(joined) {
        return Ok(());
    }
    joined.step(Clause::new(alloc, Vec::new(alloc))?, ends)
}
