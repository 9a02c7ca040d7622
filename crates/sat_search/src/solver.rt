//! The solver: clauses, a state of search, and the log that both keep in step with.

ghost use Rattle.std.specs.Prelude.{◌≡◌, ℕ, ◌+◌, ◌<◌, ◌≤◌, ◌^◌, ◌↔◌, [], ◌∷◌, ◌++◌, length, List, Bool, true, false, All, None, Some, IfOk, OnOk, OnErr, IsSome, IsSomeAnd, IfSome, IsErr, IsTrue};
ghost use Rattle.cnf_core.specs.Clauses.{Satisfies};
ghost use Rattle.cnf_core.specs.Events.{LogEvent, given, is_given, clauses_of, givens, nonempty_steps};
ghost use Rattle.cnf_core.specs.Steps.{GivensNameOnly};
ghost use Rattle.sat_search.specs.View.{SolverView, value_in};
ghost use Rattle.sat_search.specs.Logs.{IsSound, AddsSteps, EndsWithEmptyStep, NoneIsEmpty};

use crate::adding::{give, state_of};
use crate::outcome::{Outcome, SolveError};
use crate::search::{Tools, search};
use cnf_core::{Clause, Log};
use ep_base::Memory;
use sat_state::State;
use std::alloc::Global;
use std::marker::Model;

/// The clauses of a log, and what a search over them keeps.
#[derive(Drop)]
pub struct Solver {
    alloc: Global,
    state: State,
    tools: Tools,
    vars: u64,
    answered: bool,
    broken: bool,
}

impl Model for Solver {
    ghost use Rattle.sat_search.specs.View.{SolverView};

    ghost Value = { SolverView };

    ghost use Rattle.sat_search.specs.SolverInside.{seen_solver, IsSolver};

    ghost view = { seen_solver };

    ghost invariant = { IsSolver };
}

impl Solver {
    /// A solver of the log's clauses.
    pub fn new(alloc: Global, log: &Log) -> Result<Solver, Memory>
        ensures made { IfOk result (λ solver. solver ≡ record { clauses = clauses_of log.now.events; broken = false; kept = None }) }
        // What the calls below require of the log holds of one that has givens alone.
        ensures sound { All (λ e. is_given e ≡ true) log.now.events → IsSound log.now.events }
    {
        let (state, vars) = state_of(alloc, log)?;
        Ok(Solver {
            alloc,
            state,
            tools: Tools::new(alloc),
            vars,
            answered: false,
            broken: false,
        })
    }

    /// Appends a given to the log and to the clauses.
    pub fn add_given(&mut self, clause: Clause, log: &mut Log) -> Result<(), SolveError>
        requires sound { IsSound log.old.events }
        requires clauses { self.old.broken ≡ false → self.old.clauses ≡ clauses_of log.old.events }
        ensures sound { IsSound log.new.events }
        ensures clauses { self.new.broken ≡ false → self.new.clauses ≡ clauses_of log.new.events }
        ensures ok { OnOk result (log.new ≡ record log.old { events = log.old.events ++ given clause ∷ [] }) }
        ensures err { OnErr result (log.new ≡ log.old) }
        ensures steps { nonempty_steps log.new.events ≡ nonempty_steps log.old.events }
        ensures kept { self.new.kept ≡ None }
        ensures broken { (result ≡ Err SolveError.Broken) ↔ (self.old.broken ≡ true) }
        ensures breaks { (self.new.broken ≡ true) ↔ (IsErr result) }
    {
        self.answered = false;
        if self.broken {
            return Err(SolveError::Broken);
        }
        self.broken = true;
        self.vars = give(&mut self.state, &mut self.tools, self.vars, clause, log)?;
        self.broken = false;
        Ok(())
    }

    /// Searches for values that satisfy every given, or for the empty clause, within as many steps
    /// with a literal as the budget allows.
    #[tactic(auto, using(crate::proofs::Continued::givens_kept))]
    pub fn solve(&mut self, budget: u64, log: &mut Log) -> Result<Outcome, SolveError>
        requires sound { IsSound log.old.events }
        requires clauses { self.old.broken ≡ false → self.old.clauses ≡ clauses_of log.old.events }
        requires budget { nonempty_steps log.old.events ≤ budget }
        ensures sound { IsSound log.new.events }
        ensures clauses { self.new.broken ≡ false → self.new.clauses ≡ clauses_of log.new.events }
        ensures steps { AddsSteps log.old log.new }
        ensures givens { givens log.new.events ≡ givens log.old.events }
        ensures within { nonempty_steps log.new.events ≤ budget }
        ensures sat { result ≡ Ok Outcome.Sat → IsSomeAnd self.new.kept (λ trues. Satisfies (value_in trues) (givens log.new.events)) }
        ensures unsat { result ≡ Ok Outcome.Unsat → EndsWithEmptyStep log.new.events }
        ensures unsat_none { result ≡ Ok Outcome.Unsat → (s : ℕ → Bool) → Satisfies s (givens log.new.events) → ⊥ }
        ensures spent { result ≡ Ok Outcome.Spent → nonempty_steps log.new.events ≡ budget }
        ensures spent_open { result ≡ Ok Outcome.Spent → NoneIsEmpty log.new.events }
        ensures spent_few { result ≡ Ok Outcome.Spent → (vars : List ℕ) → GivensNameOnly vars log.new.events → budget < 3 ^ length vars }
        ensures kept { IsSome self.new.kept → result ≡ Ok Outcome.Sat }
        ensures broken { (result ≡ Err SolveError.Broken) ↔ (self.old.broken ≡ true) }
        ensures breaks { (self.new.broken ≡ true) ↔ (IsErr result) }
        ensures idle { result ≡ Err SolveError.Broken → log.new ≡ log.old }
    {
        self.answered = false;
        if self.broken {
            return Err(SolveError::Broken);
        }
        self.broken = true;
        let outcome = search(
            self.alloc,
            &mut self.state,
            &mut self.tools,
            self.vars,
            budget,
            log,
        )?;
        self.broken = false;
        self.answered = outcome == Outcome::Sat;
        Ok(outcome)
    }

    /// The value of a variable where the last call answered [`Outcome::Sat`].
    pub fn value(&self, var: u64) -> bool
        requires { IsSome self.now.kept }
        ensures { IfSome self.now.kept (λ trues. result ≡ value_in trues var) }
    {
        self.state.value(var) == Some(true)
    }
}
