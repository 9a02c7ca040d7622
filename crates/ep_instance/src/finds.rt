//! Decision variables, as their groups declare them.

ghost use Rattle.std.specs.Prelude.{◌≡◌, ◌++◌, IfOk, OnOk, map, option_map};
ghost use Rattle.ep_base.specs.Options.{map_both};
ghost use Rattle.ep_tree.specs.Views.{group_of};
ghost use Rattle.ep_eval.specs.Known.{env_of};
ghost use Rattle.ep_instance_parts.specs.Instances.{find_of};
ghost use Rattle.ep_instance_parts.specs.Refusals.{BindsTo};
ghost use Rattle.ep_instance.specs.Finding.{kept_find, kept_finds};
ghost use Rattle.ep_instance.specs.Steps.{finds_said};

use super::lettings::{ListedShape, listed_from};
use ep_base::{Memory, Name, Place};
use ep_eval::Env;
use ep_instance_parts::{BindError, Find, Source, read_listed, type_of_shape};
use ep_numbers::copy_sets;
use ep_tree::Declared;
use std::alloc::Global;

/// A decision variable with this domain.
fn find_named(alloc: Global, shape: &ListedShape, name: &Name) -> Result<Find, Memory>
    ensures { IfOk result (λ f. find_of f ≡ kept_find shape.now name.now) }
{
    let name = Name::new(alloc, name.text())?;
    let ty = type_of_shape(shape.scalar, &shape.indices);
    let indices = copy_sets(alloc, &shape.indices)?;
    let values = shape.values.copy(alloc)?;
    Ok(Find {
        name,
        ty,
        indices,
        values,
    })
}

/// Adds the decision variables of a group.
fn add_finds(
    alloc: Global,
    finds: &mut Vec<Find>,
    shape: &ListedShape,
    names: &[(Name, Place)],
) -> Result<(), Memory>
    ensures { OnOk result (map find_of finds.new.items
        ≡ map find_of finds.old.items ++ kept_finds shape.now names.now) }
{
    for name in names {
        let find = find_named(alloc, shape, &name.0)?;
        finds.push(find)?;
    }
    Ok(())
}

/// Decision variables and those of one group more, where the domains are defined.
fn with_group(
    alloc: Global,
    finds: Option<Vec<Find>>,
    shape: Option<ListedShape>,
    names: &[(Name, Place)],
) -> Result<Option<Vec<Find>>, Memory>
    ensures { IfOk result (λ more. option_map (λ v. map find_of v.items) more
        ≡ map_both (λ xs ys. xs ++ ys) (option_map (λ v. map find_of v.items) finds)
        (option_map (λ s. kept_finds s names.now) shape)) }
{
    let Some(mut finds) = finds else {
        return Ok(None);
    };
    let Some(shape) = shape else {
        return Ok(None);
    };
    add_finds(alloc, &mut finds, &shape, names)?;
    Ok(Some(finds))
}

/// The decision variables of a `find`. All domains are read, also behind an undefined one, since
/// limits come first.
pub fn bind_finds(
    alloc: Global,
    place: Place,
    env: &Env,
    groups: &[Declared],
) -> Result<Vec<Find>, BindError>
    ensures { BindsTo (λ fs. map find_of fs.items) result
        (finds_said env.now.mode place (env_of env.now) (map group_of groups.now)) }
{
    let mut finds = Some(Vec::new(alloc));
    let mut count = 0;
    for group in groups {
        let (read, after) = read_listed(alloc, env, count, &group.domain)?;
        let shape = listed_from(alloc, env, &group.domain, read)?;
        finds = with_group(alloc, finds, shape, &group.names)?;
        count = after;
    }
    let Some(finds) = finds else {
        return Err(BindError::Undefined(Source::Model, place));
    };
    Ok(finds)
}
