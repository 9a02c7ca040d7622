//! Assignments that are judged.

ghost use Rattle.std.specs.Prelude.{◌≡◌, All, IfOk, None, Some, [], is_some, map, option_map};
ghost use Rattle.ep_base.specs.declared.operators.Sense.{Sense};
ghost use Rattle.ep_tree.specs.Closed.{IsClosed};
ghost use Rattle.ep_tree.specs.Evaluation.{evaluate as value_in, first_untrue};
ghost use Rattle.ep_tree.specs.Limits.{limits_of_values};
ghost use Rattle.ep_tree.specs.Measures.{met};
ghost use Rattle.ep_tree.specs.Solutions as solutions;
ghost use Rattle.ep_tree.specs.Solutions.{Fits, Found, judgement};
ghost use Rattle.ep_tree.specs.Trees.{ExprTree};
ghost use Rattle.ep_tree.specs.Views.{assigned, expr_tree};
ghost use Rattle.ep_reach_laws.specs.Reaches.{PassesNoLimit};
ghost use Rattle.ep_eval.specs.Known.{env_of};
ghost use Rattle.ep_eval.specs.Outcomes.{seen_value};
ghost use Rattle.ep_instance_parts.specs.Instances.{goal_of, plain_instance, instance_mode};
ghost use Rattle.ep_instance.specs.Assigning.{judged_by_goal, judgement_in};
ghost use Rattle.ep_instance.specs.Judgements.{IsWithinLimits, judgement_of};

use super::values::set_finds;
use ep_base::{Memory, Name};
use ep_eval::{Env, EvalError, Seen, evaluate};
use ep_instance_parts::{Instance, is_true, seen_number};
use ep_tree::{Assignment, Expr, Objective};
use std::alloc::Global;

/// What a solution text gives an instance.
#[derive(Drop)]
pub enum Shaped {
    /// An assignment that fits.
    Fits(Assignment),
    /// A decision variable without a letting that fits, or a letting that is no decision variable.
    WrongShape(Name),
}

/// What judging an assignment says.
#[derive(Clone, Copy, Debug, PartialEq, Eq)]
pub enum Judgement {
    /// It is a solution; the objective has this value where one is stated.
    Solution { objective: Option<i64> },
    /// The least number of a clause that isn't true, counted from 1.
    Violated(u64),
    /// Each clause is true, and the objective has no value.
    ObjectiveUndefined,
}

/// The value of an expression that passes no limit.
fn seen_in(alloc: Global, env: &Env, e: &Expr) -> Result<Seen, Memory>
    requires { limits_of_values env.now.mode 0 (met env.now.mode (env_of env.now) (expr_tree e.now)) ≡ [] }
    ensures { IfOk result (λ seen.
        seen_value seen ≡ value_in env.now.mode (env_of env.now) (expr_tree e.now)) }
{
    match evaluate(alloc, env, e) {
        Ok(seen) => Ok(seen),
        Err(EvalError::Limit(_)) => unreachable!(),
        Err(EvalError::Memory) => Err(Memory),
    }
}

/// The least number of a clause that isn't true, counted from 1.
fn first_violated(alloc: Global, env: &Env, clauses: &[Expr]) -> Result<Option<u64>, Memory>
    requires { All (λ clause. limits_of_values env.now.mode 0
        (met env.now.mode (env_of env.now) (expr_tree clause)) ≡ []) clauses.now }
    ensures { IfOk result (λ n. n
        ≡ first_untrue env.now.mode (env_of env.now) 1 (map expr_tree clauses.now)) }
{
    let mut number: u64 = 1;
    for clause in clauses {
        let seen = seen_in(alloc, env, clause)?;
        if !is_true(&seen) {
            return Ok(Some(number));
        }
        number += 1;
    }
    Ok(None)
}

/// The judgement by the number of an objective that is stated, where each clause is true.
#[tactic(auto, unfolding(ep_tree::specs::Solutions::judged_by))]
fn judged_by(value: Option<i64>) -> Judgement
    ensures { judgement_of result ≡ solutions.judged_by None (is_some value) value }
{
    match value {
        Some(number) => Judgement::Solution {
            objective: Some(number),
        },
        None => Judgement::ObjectiveUndefined,
    }
}

/// The judgement by the objective, where each clause is true.
fn judge_objective(alloc: Global, env: &Env, goal: Option<&Objective>) -> Result<Judgement, Memory>
    requires { (sense : Sense) (e : ExprTree) → option_map (λ o. goal_of o.now) goal ≡ Some (sense, e) →
        limits_of_values env.now.mode 0 (met env.now.mode (env_of env.now) e) ≡ [] }
    ensures { IfOk result (λ j. judgement_of j
        ≡ judged_by_goal env.now.mode (env_of env.now) (option_map (λ o. goal_of o.now) goal.entry)) }
{
    let Some(goal) = goal else {
        return Ok(Judgement::Solution { objective: None });
    };
    let seen = seen_in(alloc, env, &goal.e)?;
    let value = seen_number(&seen);
    Ok(judged_by(value))
}

/// The judgement of an instance by what names stand for: the clauses in their order, and then the
/// objective.
fn judged_in(alloc: Global, env: &Env, instance: &Instance) -> Result<Judgement, Memory>
    requires { PassesNoLimit env.now.mode (env_of env.now) (plain_instance instance.now) }
    ensures { IfOk result (λ j. judgement_of j
        ≡ judgement_in env.now.mode (env_of env.now) (plain_instance instance.now)) }
{
    let violated = first_violated(alloc, env, instance.clauses())?;
    match violated {
        Some(number) => Ok(Judgement::Violated(number)),
        None => judge_objective(alloc, env, instance.objective()),
    }
}

/// Judges assignments of one instance, one after another. What the parameters and the lettings stand
/// for is copied once; each assignment sets the decision variables anew.
#[derive(Drop)]
pub struct Judge {
    alloc: Global,
    env: Env,
}

impl Judge {
    ghost use Rattle.ep_instance.specs.Judgements.{IsJudgeOf};

    /// A judge of an instance.
    pub fn new(alloc: Global, instance: &Instance) -> Result<Judge, Memory>
        ensures { IfOk result (IsJudgeOf (instance_mode instance.now) (plain_instance instance.now)) }
    {
        let env = instance.env().copy()?;
        Ok(Judge { alloc, env })
    }

    /// Judges an assignment that fits. Where memory is refused, others can be judged still.
    pub fn judge(&mut self, instance: &Instance, a: &Assignment) -> Result<Judgement, Memory>
        requires closed { IsClosed (plain_instance instance.now) }
        requires small { IsWithinLimits (instance_mode instance.now) (plain_instance instance.now) }
        requires fits { (found : Found) × Fits (plain_instance instance.now) (assigned a.now) found }
        requires own { IsJudgeOf (instance_mode instance.now) (plain_instance instance.now) self.old }
        ensures own { IsJudgeOf (instance_mode instance.now) (plain_instance instance.now) self.new }
        ensures judgement { IfOk result (λ j. (found : Found) → Fits (plain_instance instance.now) (assigned a.now) found →
            judgement_of j ≡ judgement (instance_mode instance.now) (plain_instance instance.now) found) }
    {
        set_finds(self.alloc, &mut self.env, instance.finds(), &a.entries)?;
        judged_in(self.alloc, &self.env, instance)
    }
}

/// Judges an assignment that fits. A `Judge` is cheaper where several assignments are judged, since
/// this call copies what the parameters and the lettings stand for.
pub fn is_solution(alloc: Global, instance: &Instance, a: &Assignment) -> Result<Judgement, Memory>
    requires closed { IsClosed (plain_instance instance.now) }
    requires small { IsWithinLimits (instance_mode instance.now) (plain_instance instance.now) }
    requires fits { (found : Found) × Fits (plain_instance instance.now) (assigned a.now) found }
    ensures { IfOk result (λ j. (found : Found) → Fits (plain_instance instance.now) (assigned a.now) found →
        judgement_of j ≡ judgement (instance_mode instance.now) (plain_instance instance.now) found) }
{
    let mut judge = Judge::new(alloc, instance)?;
    judge.judge(instance, a)
}
