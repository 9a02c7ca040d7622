//! The search: decisions up to a falsified clause, and a learnt clause for each.

ghost use Rattle.std.specs.Prelude.{◌≡◌, ◌⊎◌, ℕ, ◌<◌, ◌≤◌, ◌∷◌, ◌++◌, [], length, All, IfOk, OnOk, IsNone, IsSome, IfSome};
ghost use Rattle.cnf_core.specs.Events.{clauses_of, nonempty_steps, HintsAreThere};
ghost use Rattle.sat_state.specs.Trail.{literals, trail_value, NamesFalsified};
ghost use Rattle.sat_state.specs.View.{IsPropagated};
ghost use Rattle.sat_search.specs.Analysis.{IsKnown, AreInRange, AllHaveValues, KeepsValues, HasTwoFrom};
ghost use Rattle.sat_search.specs.Logs.{IsSound, IsContinued, HasEnded, IsAnswer, with_step};

use crate::learning::{Analysis, Explanation, explain};
use crate::levels::{go_back, keep_all, keep_below_conflict, second_level};
use crate::order::Order;
use crate::outcome::Outcome;
use crate::recent::Recent;
use crate::restarts::Restarts;
use cnf_core::{Clause, Lit, Log};
use ep_base::Memory;
use sat_state::{Propagated, State};
use std::alloc::Global;

/// What the search keeps beside the state: the choice of decisions, what conflicts are explained on, and when it restarts.
#[derive(Drop)]
pub struct Tools {
    pub(crate) order: Order,
    pub(crate) analysis: Analysis,
    restarts: Restarts,
    recent: Recent,
}

impl Tools {
    /// Nothing is kept yet.
    pub fn new(alloc: Global) -> Tools {
        Tools {
            order: Order::new(alloc),
            analysis: Analysis::new(alloc),
            restarts: Restarts::new(),
            recent: Recent::new(alloc),
        }
    }

    /// Values were found, beside which the search goes on by the clause of this number.
    pub fn stay(&mut self, number: u64) {
        self.restarts.stay();
        self.recent.push(number);
    }
}

// Decides a variable if it is there and has no value, and propagates. Answers the number of a clause that is falsified then.
fn decide(state: &mut State, vars: u64, var: u64, positive: bool) -> Option<u64>
    requires known { IsKnown vars state.old }
    requires propagated { IsPropagated state.old }
    ensures clauses { state.new.clauses ≡ state.old.clauses }
    ensures vars { state.new.vars ≡ state.old.vars }
    ensures falsified { IfSome result (NamesFalsified state.new.clauses state.new.trail) }
    ensures propagated { IsNone result → IsPropagated state.new }
    ensures stays { KeepsValues state.old.trail state.new.trail }
    ensures value { 1 ≤ var → var ≤ vars → IsSome (trail_value (literals state.new.trail) var) }
{
    if var == 0 || var > vars || state.value(var).is_some() {
        return None;
    }
    state.decide(Lit::new(var, positive));
    match state.propagate() {
        Propagated::Conflict(number) => Some(number),
        Propagated::Done => None,
    }
}

// Decides variables in their order.
fn decide_in_order(state: &mut State, order: &mut Order, vars: u64) -> Option<u64>
    requires known { IsKnown vars state.old }
    requires propagated { IsPropagated state.old }
    ensures clauses { state.new.clauses ≡ state.old.clauses }
    ensures vars { state.new.vars ≡ state.old.vars }
    ensures falsified { IfSome result (NamesFalsified state.new.clauses state.new.trail) }
    ensures propagated { IsNone result → IsPropagated state.new }
{
    for _ in 0..vars {
        let var = order.place();
        if var == 0 {
            break;
        }
        let falsified = decide(state, vars, var, order.phase(var));
        if falsified.is_some() {
            return falsified;
        }
        order.advance();
    }
    None
}

// Decides what has no value yet.
fn decide_rest(state: &mut State, order: &Order, vars: u64) -> Option<u64>
    requires known { IsKnown vars state.old }
    requires propagated { IsPropagated state.old }
    ensures clauses { state.new.clauses ≡ state.old.clauses }
    ensures vars { state.new.vars ≡ state.old.vars }
    ensures falsified { IfSome result (NamesFalsified state.new.clauses state.new.trail) }
    ensures propagated { IsNone result → IsPropagated state.new }
    ensures values { IsNone result → AllHaveValues vars state.new.trail }
{
    for place in 0..vars {
        let falsified = decide(state, vars, place + 1, order.phase(place + 1));
        if falsified.is_some() {
            return falsified;
        }
    }
    None
}

// Propagates and decides until each variable has a value, or up to a falsified clause, whose number it answers.
fn decide_all(state: &mut State, order: &mut Order, vars: u64) -> Option<u64>
    requires known { IsKnown vars state.old }
    ensures clauses { state.new.clauses ≡ state.old.clauses }
    ensures vars { state.new.vars ≡ state.old.vars }
    ensures falsified { IfSome result (NamesFalsified state.new.clauses state.new.trail) }
    ensures propagated { IsNone result → IsPropagated state.new }
    ensures values { IsNone result → AllHaveValues vars state.new.trail }
{
    if let Propagated::Conflict(number) = state.propagate() {
        return Some(number);
    }
    let falsified = decide_in_order(state, order, vars);
    if falsified.is_some() {
        return falsified;
    }
    decide_rest(state, order, vars)
}

// The level from which the search goes on with a clause: the start where it is time to restart, or else that to which the clause
// leads back.
fn next_level(state: &State, restarts: &mut Restarts, clause: &Clause) -> u64
    ensures { (result ≡ 0) ⊎ HasTwoFrom state.now.trail result clause.now }
{
    if restarts.count() {
        0
    } else {
        second_level(state, clause)
    }
}

// Appends the clause to the log as a step, and to the clauses at the level from which the search goes on.
fn append(
    state: &mut State,
    tools: &mut Tools,
    vars: u64,
    clause: Clause,
    hints: Vec<u64>,
    log: &mut Log,
) -> Result<(), Memory>
    requires known { IsKnown vars state.old }
    requires clauses { state.old.clauses ≡ clauses_of log.old.events }
    requires range { AreInRange vars clause }
    requires hints { HintsAreThere log.old.events hints.items }
    ensures log { (log.new ≡ log.old) ⊎ (log.new ≡ with_step log.old clause hints.items) }
    ensures logged { OnOk result (log.new ≡ with_step log.old clause hints.items) }
    ensures known { OnOk result (IsKnown vars state.new) }
    ensures clauses { OnOk result (state.new.clauses ≡ clauses_of log.new.events) }
{
    let copy = clause.copied()?;
    log.step(copy, hints)?;
    let level = next_level(state, &mut tools.restarts, &clause);
    go_back(state, tools, level);
    state.add(clause)?;
    Ok(())
}

// Tells the state by which clauses a conflict was explained.
fn touch(state: &mut State, hints: &[u64])
    ensures { state.new ≡ state.old }
{
    for number in hints {
        state.touch(*number);
    }
}

// The hints of the last step, or none where a given is last.
fn last_hints(log: &Log) -> &[u64] {
    let events = log.events();
    if events.len() == 0 {
        return &[];
    }
    events.hints(events.len() - 1).unwrap_or(&[])
}

// Lets the state look no more at clauses that the last one makes needless, where the search goes on beside values that were found:
// those that show it, and those that came before it.
fn retire_needless(state: &mut State, tools: &mut Tools, log: &Log)
    ensures { state.new ≡ state.old }
{
    if !tools.restarts.is_near() {
        return;
    }
    let number = (log.events().len() as u64).saturating_sub(1);
    let hints = last_hints(log);
    for hint in hints {
        state.retire(*hint, number);
    }
    tools.recent.retire_before(state, number);
}

// Explains a falsified clause, and learns what follows. Answers how the search ends, if it does.
fn learn(
    alloc: Global,
    state: &mut State,
    tools: &mut Tools,
    vars: u64,
    number: u64,
    budget: u64,
    log: &mut Log,
) -> Result<Option<Outcome>, Memory>
    requires known { IsKnown vars state.old }
    requires clauses { state.old.clauses ≡ clauses_of log.old.events }
    requires falsified { NamesFalsified state.old.clauses state.old.trail number }
    requires sound { IsSound log.old.events }
    requires within { nonempty_steps log.old.events ≤ budget }
    ensures continued { IsContinued budget log.old log.new }
    ensures known { OnOk result (IsKnown vars state.new) }
    ensures clauses { OnOk result (state.new.clauses ≡ clauses_of log.new.events) }
    ensures more { IfOk result (λ ended. IsNone ended → nonempty_steps log.old.events < nonempty_steps log.new.events) }
    ensures ended { IfOk result (λ ended. IfSome ended (HasEnded budget log.new.events)) }
{
    keep_below_conflict(state, &mut tools.order);
    // Beside values that were found, what follows from a decision is gone through and left for good: the clause that says so stands in
    // the place of those that said it of parts of it.
    tools
        .analysis
        .explain_by_decisions(tools.restarts.is_near());
    let Explanation { lits, hints } = explain(
        alloc,
        state,
        &mut tools.order,
        &mut tools.analysis,
        vars,
        number,
    )?;
    touch(state, hints.as_slice());
    if lits.is_empty() {
        append(state, tools, vars, Clause::new(alloc, lits)?, hints, log)?;
        Ok(Some(Outcome::Unsat))
    } else if log.steps() == budget {
        Ok(Some(Outcome::Spent))
    } else {
        append(state, tools, vars, Clause::new(alloc, lits)?, hints, log)?;
        retire_needless(state, tools, log);
        Ok(None)
    }
}

/// Searches until each variable has a value, the empty clause is logged, or the budget is spent.
pub fn search(
    alloc: Global,
    state: &mut State,
    tools: &mut Tools,
    vars: u64,
    budget: u64,
    log: &mut Log,
) -> Result<Outcome, Memory>
    requires known { IsKnown vars state.old }
    requires clauses { state.old.clauses ≡ clauses_of log.old.events }
    requires sound { IsSound log.old.events }
    requires within { nonempty_steps log.old.events ≤ budget }
    ensures continued { IsContinued budget log.old log.new }
    ensures known { OnOk result (IsKnown vars state.new) }
    ensures clauses { OnOk result (state.new.clauses ≡ clauses_of log.new.events) }
    ensures answer { IfOk result (IsAnswer budget (literals state.new.trail) log.new.events) }
{
    tools.order.grow(vars)?;
    'conflicts: loop {
        match decide_all(state, &mut tools.order, vars) {
            None => {
                keep_all(state, &mut tools.order);
                return Ok(Outcome::Sat);
            }
            Some(number) => {
                if let Some(outcome) = learn(alloc, state, tools, vars, number, budget, log)? {
                    return Ok(outcome);
                }
            }
        }
    }
}
