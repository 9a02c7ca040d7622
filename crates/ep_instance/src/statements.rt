//! The statements of a model, bound in their order.

ghost use Rattle.std.specs.Prelude.{◌≡◌, [], false, true, map, Ok, IfOk, option_map};
ghost use Rattle.ep_tree.specs.Binding as defined;
ghost use Rattle.ep_tree.specs.Binding.{bind_statement, bind_statements, nothing_bound, now_with, with_clauses, with_goal};
ghost use Rattle.ep_tree.specs.Closed.{IsClosed};
ghost use Rattle.ep_tree.specs.Environments.{context_of};
ghost use Rattle.ep_tree.specs.Faults.{domain_faults, faults, group_faults, stated_faults, text_faults};
ghost use Rattle.ep_tree.specs.Views.{domain_tree, expr_tree, group_of, statement_kind_tree, statement_tree};
ghost use Rattle.ep_eval.specs.Known.{env_of};
ghost use Rattle.ep_instance_parts.specs.Instances.{plain_instance};
ghost use Rattle.ep_instance_parts.specs.Refusals.{BindsTo};
ghost use Rattle.ep_instance.specs.Progressing.{finds_progress, given_progress, named_progress, progress_of, valued_progress, where_progress};
ghost use Rattle.ep_instance.specs.Steps.{IsFaultless};

use super::finds::bind_finds;
use super::givens::bind_givens;
use super::lettings::{bind_domain, bind_value};
use ep_base::{Name, Place, Sense};
use ep_eval::Env;
use ep_instance_parts::{BindError, Find, Instance, Source, check_conditions};
use ep_tree::{Declared, Domain, Expr, Mode, Objective, Statement, StatementKind};
use std::alloc::Global;

/// How far binding has come: the parts of the instance so far, and the number of the next condition.
#[derive(Drop)]
pub struct Progress {
    pub finds: Vec<Find>,
    pub clauses: Vec<Expr>,
    pub objective: Option<Objective>,
    pub env: Env,
    pub next_where: u64,
}

/// A `given`.
fn bind_given(
    alloc: Global,
    place: Place,
    params: &Env,
    groups: Vec<Declared>,
    at: &mut Progress,
) -> Result<(), BindError>
    requires faultless { group_faults (context_of (env_of at.old.env)) false true (map group_of groups.items) ≡ [] }
    ensures mode { at.new.env.mode ≡ at.old.env.mode }
    ensures progress { BindsTo (λ _. progress_of at.new) result (given_progress at.old.env.mode
        (env_of params.now) (progress_of at.old) place (map group_of groups.items)) }
{
    bind_givens(alloc, place, params, &groups, &mut at.env)
}

/// A `find`.
fn bind_find(
    alloc: Global,
    place: Place,
    groups: Vec<Declared>,
    at: &mut Progress,
) -> Result<(), BindError>
    ensures mode { at.new.env.mode ≡ at.old.env.mode }
    ensures progress { BindsTo (λ _. progress_of at.new) result (finds_progress at.old.env.mode
        (progress_of at.old) place (map group_of groups.items)) }
{
    let mut finds = bind_finds(alloc, place, &at.env, &groups)?;
    at.finds.append(&mut finds)?;
    Ok(())
}

/// A letting of a value.
fn bind_letting_value(
    alloc: Global,
    place: Place,
    name: Name,
    d: Option<Domain>,
    e: Expr,
    at: &mut Progress,
) -> Result<(), BindError>
    requires stated { stated_faults (context_of (env_of at.old.env)) (option_map domain_tree d) ≡ [] }
    requires value { faults (context_of (env_of at.old.env)) false (expr_tree e) ≡ [] }
    ensures mode { at.new.env.mode ≡ at.old.env.mode }
    ensures progress { BindsTo (λ _. progress_of at.new) result (valued_progress at.old.env.mode
        (progress_of at.old) place name (option_map domain_tree d) (expr_tree e)) }
{
    bind_value(alloc, Source::Model, &mut at.env, place, &name, &d, &e)
}

/// A letting of a domain.
fn bind_letting_domain(
    alloc: Global,
    place: Place,
    name: Name,
    d: Domain,
    at: &mut Progress,
) -> Result<(), BindError>
    requires faultless { domain_faults (context_of (env_of at.old.env)) false (domain_tree d) ≡ [] }
    ensures mode { at.new.env.mode ≡ at.old.env.mode }
    ensures progress { BindsTo (λ _. progress_of at.new) result (named_progress at.old.env.mode
        (progress_of at.old) place name (domain_tree d)) }
{
    bind_domain(alloc, Source::Model, &mut at.env, place, &name, &d)
}

/// Conditions on the parameters.
fn bind_where(alloc: Global, conditions: Vec<Expr>, at: &mut Progress) -> Result<(), BindError>
    ensures mode { at.new.env.mode ≡ at.old.env.mode }
    ensures progress { BindsTo (λ _. progress_of at.new) result (where_progress at.old.env.mode
        (progress_of at.old) (map expr_tree conditions.items)) }
{
    let next = check_conditions(alloc, &at.env, at.next_where, &conditions)?;
    at.next_where = next;
    Ok(())
}

/// Constraints.
fn add_clauses(clauses: Vec<Expr>, at: &mut Progress) -> Result<(), BindError>
    ensures mode { at.new.env.mode ≡ at.old.env.mode }
    ensures progress { BindsTo (λ _. progress_of at.new) result (Ok (now_with (progress_of at.old)
        (with_clauses (progress_of at.old).instance (map expr_tree clauses.items)))) }
{
    let mut clauses = clauses;
    at.clauses.append(&mut clauses)?;
    Ok(())
}

/// What is to be as small or as great as can be.
fn set_objective(sense: Sense, e: Expr, at: &mut Progress) -> Result<(), BindError>
    ensures mode { at.new.env.mode ≡ at.old.env.mode }
    ensures progress { BindsTo (λ _. progress_of at.new) result (Ok (now_with (progress_of at.old)
        (with_goal (progress_of at.old).instance sense (expr_tree e)))) }
{
    at.objective = Some(Objective { sense, e });
    Ok(())
}

/// A statement of a model, which begins at a place.
fn bind_statement(
    alloc: Global,
    params: &Env,
    at: &mut Progress,
    place: Place,
    kind: StatementKind,
) -> Result<(), BindError>
    requires faultless { IsFaultless (env_of at.old.env) (statement_kind_tree place kind) }
    ensures mode { at.new.env.mode ≡ at.old.env.mode }
    ensures progress { BindsTo (λ _. progress_of at.new) result (bind_statement at.old.env.mode
        (env_of params.now) (progress_of at.old) (statement_kind_tree place kind)) }
{
    match kind {
        StatementKind::Given(groups) => bind_given(alloc, place, params, groups, at),
        StatementKind::Find(groups) => bind_find(alloc, place, groups, at),
        StatementKind::Letting(name, _, d, e) => bind_letting_value(alloc, place, name, d, e, at),
        StatementKind::LettingDomain(name, _, d) => bind_letting_domain(alloc, place, name, d, at),
        StatementKind::Where(conditions) => bind_where(alloc, conditions, at),
        StatementKind::SuchThat(clauses) => add_clauses(clauses, at),
        StatementKind::Objective(sense, e) => set_objective(sense, e, at),
        StatementKind::Branching(_) => Ok(()),
        StatementKind::Heuristic(_) => Ok(()),
    }
}

/// The statements of a model in their order.
pub fn bind_statements(
    alloc: Global,
    params: &Env,
    mode: Mode,
    statements: Vec<Statement>,
) -> Result<Instance, BindError>
    requires faultless { text_faults (map statement_tree statements.items) ≡ [] }
    ensures mode { IfOk result (λ i. i.env.mode ≡ mode) }
    ensures instance { BindsTo plain_instance result (defined.and_next (bind_statements mode (env_of params.now)
        nothing_bound (map statement_tree statements.items)) (λ at. Ok at.instance)) }
    ensures closed { IfOk result (λ i. IsClosed (plain_instance i)) }
{
    let env = Env::new(alloc, mode);
    let mut at = Progress {
        finds: Vec::new(alloc),
        clauses: Vec::new(alloc),
        objective: None,
        env,
        next_where: 1,
    };
    for statement in statements {
        bind_statement(alloc, params, &mut at, statement.place, statement.kind)?;
    }
    let instance = Instance::new(at.finds, at.clauses, at.objective, at.env);
    Ok(instance)
}
