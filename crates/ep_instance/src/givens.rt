//! Parameters, bound to the values that a parameter text gives them.

ghost use Rattle.std.specs.Prelude.{◌≡◌, [], ◌∷◌, false, true, map};
ghost use Rattle.ep_tree.specs.Binding.{bind_givens, bind_names, first_missing};
ghost use Rattle.ep_tree.specs.Binding as defined;
ghost use Rattle.ep_tree.specs.Environments.{context_of};
ghost use Rattle.ep_tree.specs.Faults.{group_faults};
ghost use Rattle.ep_tree.specs.Views.{group_of};
ghost use Rattle.ep_eval.specs.Known.{env_of};
ghost use Rattle.ep_instance_parts.specs.Reading.{IsShape, IsTypedShape};
ghost use Rattle.ep_instance_parts.specs.Refusals.{BindsTo};
ghost use Rattle.ep_instance.specs.Steps.{group_said, missing_name, name_said, nothing_refused};

use ep_base::{Name, Place};
use ep_eval::Env;
use ep_instance_parts::{BindError, Shape, bind_fitted, given_shape, missing};
use ep_tree::Declared;
use std::alloc::Global;

/// Checks that a name has a parameter.
fn check_name(alloc: Global, params: &Env, name: &Name) -> Result<(), BindError>
    ensures { BindsTo (λ _. tt) result (nothing_refused (missing_name (env_of params.now) name.now)) }
{
    match params.entry(name) {
        Some(_) => Ok(()),
        None => Err(missing(alloc, name)),
    }
}

/// Checks that each name of a group has a parameter.
fn check_names(alloc: Global, params: &Env, names: &[(Name, Place)]) -> Result<(), BindError>
    ensures { BindsTo (λ _. tt) result (nothing_refused (first_missing (env_of params.now) names.now)) }
{
    for name in names {
        check_name(alloc, params, &name.0)?;
    }
    Ok(())
}

/// A name stands for its parameter, fitted into a domain.
fn bind_name(
    alloc: Global,
    params: &Env,
    shape: &Shape,
    name: &Name,
    env: &mut Env,
) -> Result<(), BindError>
    requires typed { IsTypedShape shape.now }
    ensures mode { env.new.mode ≡ env.old.mode }
    ensures known { (bound : defined.Shape) → IsShape bound shape.now → BindsTo (λ _. env_of env.new) result
        (name_said (env_of params.now) bound name.now (env_of env.old)) }
{
    match params.entry(name) {
        Some(entry) => bind_fitted(alloc, env, name, shape, entry.ty, &entry.value),
        None => Err(missing(alloc, name)),
    }
}

/// The names of a group stand for their parameters, fitted into the group's domain.
fn bind_names(
    alloc: Global,
    params: &Env,
    shape: &Shape,
    names: &[(Name, Place)],
    env: &mut Env,
) -> Result<(), BindError>
    requires typed { IsTypedShape shape.now }
    ensures mode { env.new.mode ≡ env.old.mode }
    ensures known { (bound : defined.Shape) → IsShape bound shape.now → BindsTo (λ _. env_of env.new) result
        (bind_names (env_of params.now) bound names.now (env_of env.old)) }
{
    for name in names {
        bind_name(alloc, params, shape, &name.0, env)?;
    }
    Ok(())
}

/// The names of a group of a `given` stand for their parameters.
fn bind_group(
    alloc: Global,
    place: Place,
    params: &Env,
    group: &Declared,
    env: &mut Env,
) -> Result<(), BindError>
    requires faultless { group_faults (context_of (env_of env.old)) false true (group_of group.now ∷ []) ≡ [] }
    ensures mode { env.new.mode ≡ env.old.mode }
    ensures known { BindsTo (λ _. env_of env.new) result
        (group_said env.old.mode place (env_of params.now) (group_of group.now) (env_of env.old)) }
{
    let _mode = env.mode();
    let shape = given_shape(alloc, place, env, &group.domain)?;
    check_names(alloc, params, &group.names)?;
    bind_names(alloc, params, &shape, &group.names, env)
}

/// The names of a `given` stand for their parameters, group by group.
pub fn bind_givens(
    alloc: Global,
    place: Place,
    params: &Env,
    groups: &[Declared],
    env: &mut Env,
) -> Result<(), BindError>
    requires faultless { group_faults (context_of (env_of env.old)) false true (map group_of groups.now) ≡ [] }
    ensures mode { env.new.mode ≡ env.old.mode }
    ensures known { BindsTo (λ _. env_of env.new) result
        (bind_givens env.old.mode place (env_of params.now) (map group_of groups.now) (env_of env.old)) }
{
    for group in groups {
        bind_group(alloc, place, params, group, env)?;
    }
    Ok(())
}
