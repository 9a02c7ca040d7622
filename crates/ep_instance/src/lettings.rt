//! Lettings: names for values and for domains.

ghost use Rattle.std.specs.Prelude.{◌≡◌, ℕ, [], false, true, IfOk, IsTrue, map, option_and_then, option_map};
ghost use Rattle.std.specs.List.{list_all};
ghost use Rattle.ep_tree.specs.Binding.{bind_letting, bind_params, or_refuse, shape_bound, shape_of, undefined_at};
ghost use Rattle.ep_tree.specs.Environments.{context_of, has_domain};
ghost use Rattle.ep_tree.specs.Faults.{domain_faults, faults, lettings_of, stated_faults, text_faults};
ghost use Rattle.ep_tree.specs.Names.{nothing_known};
ghost use Rattle.ep_tree.specs.StatementSpelling as spelling;
ghost use Rattle.ep_tree.specs.TypedValues.{is_number_of};
ghost use Rattle.ep_tree.specs.Views.{domain_tree, expr_tree, statement_tree};
ghost use Rattle.ep_eval.specs.Known.{env_of};
ghost use Rattle.ep_instance_parts.specs.Reading.{IsReadListed};
ghost use Rattle.ep_instance_parts.specs.Refusals.{BindsTo, text_name};
ghost use Rattle.ep_instance_parts.specs.Steps.{StepsTo};
ghost use Rattle.ep_instance.specs.Finding.{IsListedShape};
ghost use Rattle.ep_instance.specs.Steps.{IsFaultless, named_said, plain_said, stated_said, value_said};

use ep_base::{Memory, Name, Place, Runs};
use ep_eval::{Env, Seen, evaluate, evaluate_after, scalar_in, type_in};
use ep_instance_parts::{
    BindError, Listed, Source, bind_fitted, put_value, read_listed, read_opened, shape_from,
};
use ep_tree::{Domain, Expr, Mode, Scalar, Statement, StatementKind};
use std::alloc::Global;

/// A name stands for the value of an expression.
fn bind_plain(
    alloc: Global,
    text: Source,
    env: &mut Env,
    place: Place,
    name: &Name,
    e: &Expr,
) -> Result<(), BindError>
    requires faultless { faults (context_of (env_of env.old)) false (expr_tree e.now) ≡ [] }
    ensures mode { env.new.mode ≡ env.old.mode }
    ensures known { BindsTo (λ _. env_of env.new) result (plain_said env.old.mode
        (undefined_at (text_name text) place) (env_of env.old) name.now (expr_tree e.now)) }
{
    let seen = evaluate(alloc, env, e)?;
    let Seen::Value(value) = seen else {
        return Err(BindError::Undefined(text, place));
    };
    let _mode = env.mode();
    let ty = type_in(alloc, env, e)?;
    put_value(alloc, env, name, ty, value)
}

/// A name stands for the value of an expression, fitted into the domain that its letting states.
fn bind_stated(
    alloc: Global,
    text: Source,
    env: &mut Env,
    place: Place,
    name: &Name,
    d: &Domain,
    e: &Expr,
) -> Result<(), BindError>
    requires faultless { domain_faults (context_of (env_of env.old)) false (domain_tree d.now) ≡ [] }
    ensures mode { env.new.mode ≡ env.old.mode }
    ensures known { BindsTo (λ _. env_of env.new) result (stated_said env.old.mode
        (undefined_at (text_name text) place) (env_of env.old) name.now (domain_tree d.now) (expr_tree e.now)) }
{
    let (read, count) = read_opened(alloc, env, 0, d)?;
    let (seen, _) = evaluate_after(alloc, env, count, e)?;
    let Seen::Value(value) = seen else {
        return Err(BindError::Undefined(text, place));
    };
    let _mode = env.mode();
    let own = type_in(alloc, env, e)?;
    let shape = shape_from(alloc, text, place, env, d, read)?;
    bind_fitted(alloc, env, name, &shape, own, &value)
}

/// A domain that has a list of its numbers.
#[derive(Drop)]
pub struct ListedShape {
    pub scalar: Scalar,
    pub indices: Vec<Runs>,
    pub values: Runs,
}

/// The domain that was read, where it is defined.
pub fn listed_from(
    alloc: Global,
    env: &Env,
    d: &Domain,
    read: Listed,
) -> Result<Option<ListedShape>, Memory>
    requires read { (before after : ℕ) × IsReadListed env.now.mode (env_of env.now) before (domain_tree d.now) read after }
    ensures { IfOk result (IsListedShape (shape_of env.now.mode (env_of env.now) (domain_tree d.now))) }
{
    let scalar = scalar_in(alloc, env, d)?;
    let indices = read.indices;
    let values = read.values;
    let Some(indices) = indices else {
        return Ok(None);
    };
    let Some(values) = values else {
        return Ok(None);
    };
    Ok(Some(ListedShape {
        scalar,
        indices,
        values,
    }))
}

/// A name stands for a domain.
pub fn bind_domain(
    alloc: Global,
    text: Source,
    env: &mut Env,
    place: Place,
    name: &Name,
    d: &Domain,
) -> Result<(), BindError>
    requires faultless { domain_faults (context_of (env_of env.old)) false (domain_tree d.now) ≡ [] }
    ensures mode { env.new.mode ≡ env.old.mode }
    ensures known { BindsTo (λ _. env_of env.new) result (named_said env.old.mode
        (undefined_at (text_name text) place) (env_of env.old) name.now (domain_tree d.now)) }
{
    let _mode = env.mode();
    let (read, _) = read_listed(alloc, env, 0, d)?;
    let Some(shape) = listed_from(alloc, env, d, read)? else {
        return Err(BindError::Undefined(text, place));
    };
    let name = Name::new(alloc, name.text())?;
    env.name_domain(name, shape.indices, shape.values, shape.scalar)?;
    Ok(())
}

/// A name stands for the value of an expression, fitted into a domain where one is stated.
pub fn bind_value(
    alloc: Global,
    text: Source,
    env: &mut Env,
    place: Place,
    name: &Name,
    d: &Option<Domain>,
    e: &Expr,
) -> Result<(), BindError>
    requires stated { stated_faults (context_of (env_of env.old)) (option_map domain_tree d.now) ≡ [] }
    requires value { faults (context_of (env_of env.old)) false (expr_tree e.now) ≡ [] }
    ensures mode { env.new.mode ≡ env.old.mode }
    ensures known { BindsTo (λ _. env_of env.new) result (value_said env.old.mode (text_name text) place
        (env_of env.old) name.now (option_map domain_tree d.now) (expr_tree e.now)) }
{
    match d {
        None => bind_plain(alloc, text, env, place, name, e),
        Some(d) => bind_stated(alloc, text, env, place, name, d, e),
    }
}

/// A letting of a text; any other statement binds nothing.
fn bind_letting(
    alloc: Global,
    text: Source,
    env: &mut Env,
    statement: &Statement,
) -> Result<(), BindError>
    requires faultless { spelling.is_letting (statement_tree statement.now) ≡ true →
        IsFaultless (env_of env.old) (statement_tree statement.now) }
    ensures mode { env.new.mode ≡ env.old.mode }
    ensures known { BindsTo (λ _. env_of env.new) result
        (bind_letting env.old.mode (text_name text) (env_of env.old) (statement_tree statement.now)) }
{
    let place = statement.place;
    match &statement.kind {
        StatementKind::Letting(name, _, d, e) => bind_value(alloc, text, env, place, name, d, e),
        StatementKind::LettingDomain(name, _, d) => {
            bind_domain(alloc, text, env, place, name, d)
        }
        StatementKind::Given(_) => Ok(()),
        StatementKind::Find(_) => Ok(()),
        StatementKind::Where(_) => Ok(()),
        StatementKind::SuchThat(_) => Ok(()),
        StatementKind::Objective(_, _) => Ok(()),
        StatementKind::Branching(_) => Ok(()),
        StatementKind::Heuristic(_) => Ok(()),
    }
}

/// What the lettings of a text stand for, each of which sees the earlier ones.
pub fn bind_params(
    alloc: Global,
    text: Source,
    mode: Mode,
    statements: &[Statement],
) -> Result<Env, BindError>
    requires faultless { text_faults (lettings_of (map statement_tree statements.now)) ≡ [] }
    ensures mode { IfOk result (λ env. env.mode ≡ mode) }
    ensures known { BindsTo (λ env. env_of env) result
        (bind_params mode (text_name text) nothing_known (lettings_of (map statement_tree statements.now))) }
{
    let mut env = Env::new(alloc, mode);
    for statement in statements {
        bind_letting(alloc, text, &mut env, statement)?;
    }
    Ok(env)
}
