//! Clauses that come into a state, with the number of variables that goes with them.

ghost use Rattle.std.specs.Prelude.{◌≡◌, ◌⊎◌, ℕ, ◌≤◌, ◌∷◌, ◌++◌, [], All, IfOk, OnOk, OnErr};
ghost use Rattle.cnf_core.specs.Literal.{VariablesUpTo};
ghost use Rattle.cnf_core.specs.Events.{given, clauses_of};
ghost use Rattle.sat_state.specs.Trail.{level_of, IsOpenBelow};
ghost use Rattle.sat_search.specs.Analysis.{IsKnown, AreInRange};

use crate::levels::{go_back, second_level};
use crate::search::Tools;
use cnf_core::{Clause, EventList, Log, MOST_VARIABLE};
use ep_base::Memory;
use sat_state::State;
use std::alloc::Global;

// The greatest variable of a clause, or this number where it is greater.
fn most_variable(clause: &Clause, vars: u64) -> u64
    requires { vars ≤ MOST_VARIABLE }
    ensures most { result ≤ MOST_VARIABLE }
    ensures range { AreInRange result clause.now }
    ensures keeps { vars ≤ result }
    ensures least { (most : ℕ) → vars ≤ most → VariablesUpTo most clause.now → result ≤ most }
{
    let lits = clause.lits();
    let mut most = vars;
    for lit in lits {
        most = most.max(lit.var());
    }
    most
}

/// Appends a clause, and answers the number of variables then. Where there are decisions, two of its literals aren't false below
/// the last level.
pub fn add(state: &mut State, vars: u64, clause: Clause) -> Result<u64, Memory>
    requires known { IsKnown vars state.old }
    requires level { (level_of state.old.trail ≡ 0) ⊎ IsOpenBelow state.old.trail clause }
    ensures known { IfOk result (λ now. IsKnown now state.new) }
    ensures clauses { OnOk result (state.new.clauses ≡ state.old.clauses ++ clause ∷ []) }
    ensures trail { OnOk result (state.new.trail ≡ state.old.trail) }
{
    let most = most_variable(&clause, vars);
    state.add(clause)?;
    Ok(most)
}

// Appends the clauses of events, and answers the number of variables then.
fn add_events(
    alloc: Global,
    state: &mut State,
    vars: u64,
    events: &EventList,
) -> Result<u64, Memory>
    requires known { IsKnown vars state.old }
    requires level { level_of state.old.trail ≡ 0 }
    requires clauses { state.old.clauses ≡ [] }
    ensures known { IfOk result (λ now. IsKnown now state.new) }
    ensures clauses { OnOk result (state.new.clauses ≡ clauses_of events.now) }
{
    let mut most = vars;
    for place in 0..events.len() {
        let clause = Clause::from_ordered(alloc, events.clause(place))?;
        most = add(state, most, clause)?;
    }
    Ok(most)
}

// The greatest variable of the clauses of events, or 0.
fn most_named(events: &EventList) -> u64
    ensures { result ≤ MOST_VARIABLE }
{
    let mut most = 0;
    for place in 0..events.len() {
        if let Some(last) = events.clause(place).last() {
            most = most.max(last.var());
        }
    }
    most
}

// Counts the clauses of events that name a variable with this sign.
fn counts(
    alloc: Global,
    vars: u64,
    positive: bool,
    events: &EventList,
) -> Result<Vec<u32>, Memory> {
    let mut counts = Vec::new(alloc);
    counts.resize(vars.saturating_add(1) as usize, 0u32)?;
    for place in 0..events.len() {
        for lit in events.clause(place) {
            if lit.positive() == positive {
                if let Some(count) = counts.get_mut(lit.var() as usize) {
                    *count = count.saturating_add(1);
                }
            }
        }
    }
    Ok(counts)
}

// Tells the state how many clauses of events name each variable with this sign.
fn expect(
    alloc: Global,
    state: &mut State,
    vars: u64,
    positive: bool,
    events: &EventList,
) -> Result<(), Memory>
    ensures { state.new ≡ state.old }
{
    let counts = counts(alloc, vars, positive, events)?;
    for (var, count) in counts.iter().enumerate() {
        state.expect(var as u64, positive, *count);
    }
    Ok(())
}

/// A state of the clauses of a log, with the number of their variables.
pub fn state_of(alloc: Global, log: &Log) -> Result<(State, u64), Memory>
    ensures known { IfOk result (λ made. IsKnown made.1 made.0) }
    ensures clauses { IfOk result (λ made. made.0.clauses ≡ clauses_of log.now.events) }
{
    let events = log.events();
    let vars = most_named(events);
    let mut state = State::new(alloc, &[], vars)?;
    expect(alloc, &mut state, vars, true, events)?;
    expect(alloc, &mut state, vars, false, events)?;
    let vars = add_events(alloc, &mut state, vars, events)?;
    Ok((state, vars))
}

/// Appends a given to the clauses and to the log, and answers the number of variables then. Of the levels only those are left
/// that the clause leads back to, so that a search goes on from there.
pub fn give(
    state: &mut State,
    tools: &mut Tools,
    vars: u64,
    clause: Clause,
    log: &mut Log,
) -> Result<u64, Memory>
    requires known { IsKnown vars state.old }
    ensures known { IfOk result (λ now. IsKnown now state.new) }
    ensures clauses { OnOk result (state.new.clauses ≡ state.old.clauses ++ clause ∷ []) }
    ensures ok { OnOk result (log.new ≡ record log.old { events = log.old.events ++ given clause ∷ [] }) }
    ensures err { OnErr result (log.new ≡ log.old) }
{
    let copy = clause.copied()?;
    let level = second_level(state, &clause);
    go_back(state, tools, level);
    let most = add(state, vars, clause)?;
    if level > 0 {
        tools.stay(log.events().len() as u64);
    }
    log.given(copy)?;
    Ok(most)
}
