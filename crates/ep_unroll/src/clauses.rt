//! The clauses and the objective of an instance as terms.

ghost use Rattle.std.specs.Prelude.{IfOk, map, option_map};
ghost use Rattle.ep_tree.specs.Views.{expr_tree};
ghost use Rattle.ep_eval.specs.Known.{env_of};
ghost use Rattle.ep_instance_parts.specs.Instances.{goal_of};
ghost use Rattle.ep_unroll.specs.Clauses.{AreClauses, IsClauseTerm, IsGoal};
ghost use Rattle.ep_unroll.specs.Firsts.{numbering_of};

use super::expressions::term_of;
use super::firsts::CellTable;
use super::growing::put;
use ep_base::{Memory, Sense};
use ep_eval::{Around, Env, Scope};
use ep_ground::{Arena, Node, Term};
use ep_tree::{Expr, Objective};
use std::alloc::Global;

/// The term that is 1 where a clause is true, and else 0.
fn clause_term(
    alloc: Global,
    env: &Env,
    table: &CellTable,
    arena: &mut Arena,
    clause: &Expr,
) -> Result<Term, Memory>
    ensures { IfOk result (IsClauseTerm (numbering_of env.now.mode table.now) (env_of env.now) arena.old arena.new (expr_tree clause.now)) }
{
    let scope = Scope {
        alloc,
        env,
        around: &Around::Nothing,
    };
    let term = term_of(scope, table, arena, clause)?;
    let mut parts = Vec::new(alloc);
    parts.push(term)?;
    put(arena, Node::And(parts))
}

/// The terms of clauses, in order.
pub fn clause_terms(
    alloc: Global,
    env: &Env,
    table: &CellTable,
    arena: &mut Arena,
    clauses: &[Expr],
) -> Result<Vec<Term>, Memory>
    ensures { IfOk result (λ ts. AreClauses (numbering_of env.now.mode table.now) (env_of env.now) arena.old arena.new (map expr_tree clauses.now) ts.items) }
{
    let mut terms = Vec::new(alloc);
    for clause in clauses {
        let term = clause_term(alloc, env, table, arena, clause)?;
        terms.push(term)?;
    }
    Ok(terms)
}

/// The objective's sense and term, where one is stated.
pub fn goal_term(
    alloc: Global,
    env: &Env,
    table: &CellTable,
    arena: &mut Arena,
    objective: Option<&Objective>,
) -> Result<Option<(Sense, Term)>, Memory>
    ensures { IfOk result (IsGoal (numbering_of env.now.mode table.now) (env_of env.now) arena.old arena.new (option_map (λ o. goal_of o.now) objective.entry)) }
{
    let Some(objective) = objective else {
        return Ok(None);
    };
    let scope = Scope {
        alloc,
        env,
        around: &Around::Nothing,
    };
    let term = term_of(scope, table, arena, &objective.e)?;
    Ok(Some((objective.sense, term)))
}
