//! A solution with a better objective, and the given which asks for one that is better still.

ghost use Rattle.std.specs.Prelude.{◌≡◌, ◌≢◌, ◌↔◌, ◌<◌, ℕ, Bool, false, length, IfOk, IsTrue, OnErr};
ghost use Rattle.cnf_core.specs.Clauses.{SatisfiesClause};
ghost use Rattle.ep_base.specs.Senses.{better_number};
ghost use Rattle.enc_var.specs.Decoding.{Means, decoded, known_holds};
ghost use Rattle.enc_var.specs.Layouts.{literals_at};
ghost use Rattle.enc_var.specs.declared.known.Known.TheVariants as variants;
ghost use Rattle.ep_answer.specs.AnswerViews.{plain_problem};
ghost use Rattle.ep_answer.specs.Searches.{ClauseSaysBetter, HasFound, IsImproved, Reaches, kept_values};
ghost use Rattle.cnf_core.specs.Events.{clauses_of, nonempty_steps};
ghost use Rattle.sat_search.specs.Logs.{IsSound};

use crate::decoding::{hull, number_of, read_back};
use crate::problem::Problem;
use crate::refusals::refusal;
use cnf_core::{Clause, Log};
use enc_var::{Known, Layout};
use ep_base::{Memory, Sense};
use std::alloc::Global;

/// The opposite of what is known.
fn contrary(known: Known) -> Known
    ensures { (s : ℕ → Bool) → IsTrue (known_holds s result) ↔ (known_holds s known ≡ false) }
{
    match known {
        Known::True => Known::False,
        Known::False => Known::True,
        Known::Is(lit) => Known::Is(lit.negated()),
    }
}

/// What is known of "the variable is better than this number".
fn better(layout: &Layout, sense: Sense, var: u64, best: i64) -> Known
    requires { var < length layout.now }
    ensures { (s : ℕ → Bool) → Means s (literals_at layout.now var)
        → IsTrue (known_holds s result) ↔ IsTrue (better_number sense (decoded s (literals_at layout.now var)) best) }
{
    match sense {
        Sense::Minimising => {
            let within = hull(layout.domain(var).runs());
            if best <= within.lo {
                Known::False
            } else {
                layout.le(var, best - 1)
            }
        }
        Sense::Maximising => contrary(layout.le(var, best)),
    }
}

/// The clause which says what is known, where that isn't always so.
fn clause_of(alloc: Global, known: Known) -> Result<Clause, Memory>
    requires { known ≢ variants.True }
    ensures { IfOk result (λ clause.
        (s : ℕ → Bool) → SatisfiesClause s clause ↔ IsTrue (known_holds s known)) }
{
    let mut lits = Vec::new(alloc);
    match known {
        Known::True => unreachable!(),
        Known::False => {}
        Known::Is(lit) => lits.push(lit)?,
    }
    Clause::new(alloc, lits)
}

/// The clause which says that a variable is better than a number that it reaches. It is empty where no number is better.
fn better_clause(
    alloc: Global,
    layout: &Layout,
    sense: Sense,
    var: u64,
    best: i64,
) -> Result<Clause, Memory>
    requires there { var < length layout.now }
    requires reached { (s : ℕ → Bool) × Reaches s (literals_at layout.now var) best }
    ensures { IfOk result (ClauseSaysBetter (literals_at layout.now var) sense best) }
{
    clause_of(alloc, better(layout, sense, var, best))
}

/// The number of the objective and those of the cells in the solution that the solver keeps. A given is added which says that the
/// objective is better.
pub fn improve(
    alloc: Global,
    p: &mut Problem,
    sense: Sense,
    var: u64,
    log: &mut Log,
) -> Result<(i64, Vec<i64>), Memory>
    requires { HasFound (plain_problem p.old) var log.old }
    ensures improved { IfOk result (λ best. IsImproved (plain_problem p.old) sense var
        (kept_values p.old.solver) log.old log.new best.0 best.1.items) }
    ensures err { OnErr result (log.new ≡ log.old) }
    ensures sound { IsSound log.new.events }
    ensures steps { nonempty_steps log.new.events ≡ nonempty_steps log.old.events }
    ensures problem { plain_problem p.new ≡ record (plain_problem p.old) { solver = p.new.solver } }
    ensures clauses { p.new.solver.broken ≡ false → p.new.solver.clauses ≡ clauses_of log.new.events }
    ensures whole { IfOk result (λ best. p.new.solver.broken ≡ false) }
{
    let number = number_of(&p.layout, &p.solver, var);
    let cells = read_back(alloc, &p.layout, &p.solver, p.map.cells.as_slice())?;
    let clause = better_clause(alloc, &p.layout, sense, var, number)?;
    match p.solver.add_given(clause, log) {
        Ok(()) => Ok((number, cells)),
        Err(error) => Err(refusal(error)),
    }
}
