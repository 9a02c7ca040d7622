//! The values that an assignment gives decision variables.

ghost use Rattle.std.specs.Prelude.{◌≡◌, All, IfOk, IsTrue, OnErr, OnOk, map, option_map};
ghost use Rattle.std.specs.List.{list_all};
ghost use Rattle.ep_base.specs.Numbers.{has_number};
ghost use Rattle.ep_tree.specs.Solutions.{named_in};
ghost use Rattle.ep_tree.specs.TypedValues.{is_number_of};
ghost use Rattle.ep_tree.specs.Types as types;
ghost use Rattle.ep_tree.specs.Values.{fitted};
ghost use Rattle.ep_tree.specs.Views.{named_value, value_tree};
ghost use Rattle.ep_eval.specs.Known.{env_of};
ghost use Rattle.ep_instance_parts.specs.Instances.{find_of};
ghost use Rattle.ep_instance.specs.Assigning.{AgreeElsewhere, HasFit, IsUnder, SetsFind};

use ep_base::{Memory, Name};
use ep_eval::Env;
use ep_instance_parts::{Elements, Find, fit, scalar_of};
use ep_tree::{Entry, Value, ValueType};
use std::alloc::Global;

/// A value of a type, fitted into the domain of a decision variable.
pub fn fitted_find(
    alloc: Global,
    find: &Find,
    ty: ValueType,
    value: &Value,
) -> Result<Option<Value>, Memory>
    ensures { IfOk result (λ fit. option_map value_tree fit ≡ fitted (types.scalar_of ty) (types.scalar_of find.now.ty)
        (has_number find.now.values) find.now.indices.items (value_tree value.now)) }
{
    let wanted = scalar_of(find.ty);
    let elements = Elements::Within(find.values.copy(alloc)?);
    fit(
        alloc,
        value,
        scalar_of(ty),
        wanted,
        &elements,
        &find.indices,
    )
}

/// What an assignment gives a name. Linear in the assignment's names.
fn entry_named<'a>(entries: &'a [Entry], name: &Name) -> Option<&'a Entry>
    ensures { option_map (λ e. named_value e.now) result ≡ named_in (map named_value entries.now) name.now }
{
    for entry in entries {
        if entry.name == *name {
            return Some(entry);
        }
    }
    None
}

/// A decision variable stands for the value that an assignment gives it, which fits.
fn set_find(alloc: Global, env: &mut Env, find: &Find, entries: &[Entry]) -> Result<(), Memory>
    requires values { IsTrue (list_all (is_number_of (types.scalar_of find.now.ty)) find.now.values) }
    requires fits { HasFit (map named_value entries.now) (find_of find.now) }
    ensures mode { env.new.mode ≡ env.old.mode }
    ensures unchanged { OnErr result (env.new ≡ env.old) }
    ensures known { OnOk result (SetsFind (find_of find.now) (map named_value entries.now)
        (env_of env.old) (env_of env.new)) }
{
    let Some(entry) = entry_named(entries, &find.name) else {
        unreachable!()
    };
    let fit = fitted_find(alloc, find, entry.ty, &entry.value)?;
    let Some(value) = fit else { unreachable!() };
    let name = Name::new(alloc, find.name.text())?;
    let ty = find.ty;
    env.set(Entry { name, ty, value })?;
    Ok(())
}

/// Decision variables stand for the values that an assignment gives them, which fit. They are set from
/// the last to the first. Where memory is refused, all other names stand for what they did.
pub fn set_finds(
    alloc: Global,
    env: &mut Env,
    finds: &[Find],
    entries: &[Entry],
) -> Result<(), Memory>
    requires values { All (λ f. IsTrue (list_all (is_number_of f.scalar) f.values)) (map find_of finds.now) }
    requires fits { All (HasFit (map named_value entries.now)) (map find_of finds.now) }
    ensures mode { env.new.mode ≡ env.old.mode }
    ensures known { OnOk result (IsUnder (map find_of finds.now) (map named_value entries.now)
        (env_of env.old) (env_of env.new)) }
    ensures elsewhere { AgreeElsewhere (map find_of finds.now) (env_of env.new) (env_of env.old) }
{
    let mut left = finds.len();
    while left > 0 {
        left -= 1;
        let find = &finds[left];
        set_find(alloc, env, find, entries)?;
    }
    Ok(())
}
