//! Levels: where a variable got its value, where a learnt clause leads back to, and going back.

ghost use Rattle.std.specs.Prelude.{◌≡◌, ◌⊎◌, ℕ, ◌≤◌, Contains, All};
ghost use Rattle.sat_state.specs.Trail.{Entry, level_of};
ghost use Rattle.sat_search.specs.Analysis.{IsFrom, HasTwoFrom};

use crate::order::Order;
use crate::search::Tools;
use cnf_core::Clause;
use sat_state::State;

/// The level at which a variable got its value, or 0 where it has none.
pub fn level_in(state: &State, var: u64) -> u64
    ensures { IsFrom state.now.trail result var }
{
    let _trail = state.trail();
    match state.level_in(var) {
        Some(level) => level,
        None => 0,
    }
}

/// The level to which a clause leads back: that of the second highest of its literals.
pub fn second_level(state: &State, clause: &Clause) -> u64
    ensures { (result ≡ 0) ⊎ HasTwoFrom state.now.trail result clause.now }
{
    let lits = clause.lits();
    let mut highest = 0u64;
    let mut second = 0u64;
    for lit in lits {
        let level = level_in(state, lit.var());
        second = second.max(level.min(highest));
        highest = highest.max(level);
    }
    second
}

// The place of the first literal of the trail that isn't of a level below this one. Levels never fall along the trail.
fn start_of(state: &State, level: u64) -> usize {
    let trail = state.trail();
    let mut low = 0usize;
    let mut high = trail.len();
    while low < high {
        let middle = low + (high - low) / 2;
        if level_in(state, trail[middle].var()) < level {
            low = middle + 1;
        } else {
            high = middle;
        }
    }
    low
}

// Keeps the values of the literals that are of a level above this one.
fn release_above(state: &State, order: &mut Order, level: u64) {
    let trail = state.trail();
    let start = start_of(state, level.saturating_add(1));
    for place in (start..trail.len()).rev() {
        order.release(trail[place]);
    }
}

/// Goes back to a level, if it is below the present one.
pub fn go_back(state: &mut State, tools: &mut Tools, level: u64)
    ensures clauses { state.new.clauses ≡ state.old.clauses }
    ensures vars { state.new.vars ≡ state.old.vars }
    ensures trail { All (Contains state.old.trail) state.new.trail }
    ensures level { level_of state.new.trail ≤ level }
{
    release_above(state, &mut tools.order, level);
    state.backtrack(level.min(state.level()));
    tools.analysis.forget(state.trail().len());
}

/// Gives the order the literals of the levels below the last one, which were true together without a conflict.
pub fn keep_below_conflict(state: &State, order: &mut Order) {
    order.keep_longest(state.trail(), start_of(state, state.level()));
}

/// Gives the order all literals, which are true together without a conflict.
pub fn keep_all(state: &State, order: &mut Order) {
    let trail = state.trail();
    order.keep_longest(trail, trail.len());
}
