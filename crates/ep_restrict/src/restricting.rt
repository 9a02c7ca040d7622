//! An instance with some of its clauses alone.

ghost use Rattle.std.specs.Prelude.{◌≡◌, ◌≤◌, IfOk, length, map};
ghost use Rattle.std.specs.List.{All};
ghost use Rattle.ep_instance_parts.specs.Instances.{find_of, instance_mode, plain_instance};
ghost use Rattle.ep_restrict.specs.Restricted.{AreClauseNumbers, numbered_clauses, restricted};
ghost use Rattle.ep_tree.specs.Views.{expr_tree};

use ep_base::{Memory, Name};
use ep_copies::copy_expr;
use ep_instance_parts::{Find, Instance};
use ep_numbers::copy_sets;
use ep_tree::Expr;
use std::alloc::Global;

/// The same decision variable once more.
fn copy_find(alloc: Global, find: &Find) -> Result<Find, Memory>
    ensures { IfOk result (λ copy. find_of copy ≡ find_of find.now) }
{
    let name = Name::new(alloc, find.name.text())?;
    let indices = copy_sets(alloc, &find.indices)?;
    let values = find.values.copy(alloc)?;
    Ok(Find {
        name,
        ty: find.ty,
        indices,
        values,
    })
}

/// The same decision variables once more.
fn copy_finds(alloc: Global, finds: &[Find]) -> Result<Vec<Find>, Memory>
    ensures { IfOk result (λ copies. map find_of copies.items ≡ map find_of finds.now) }
{
    let mut copies = Vec::with_capacity(alloc, finds.len())?;
    for find in finds {
        let copy = copy_find(alloc, find)?;
        copies.push(copy)?;
    }
    Ok(copies)
}

/// The clauses with these numbers, which count from 1.
fn copy_clauses(alloc: Global, clauses: &[Expr], numbers: &[u64]) -> Result<Vec<Expr>, Memory>
    requires { All (λ n. (1 ≤ n) × (n ≤ length clauses.now)) numbers.now }
    ensures { IfOk result (λ copies. map expr_tree copies.items
        ≡ numbered_clauses (map expr_tree clauses.now) numbers.now) }
{
    let mut copies = Vec::with_capacity(alloc, numbers.len())?;
    for number in numbers {
        let place = *number as usize - 1;
        let copy = copy_expr(alloc, &clauses[place])?;
        copies.push(copy)?;
    }
    Ok(copies)
}

/// The instance with the clauses of these numbers alone, which count from 1, and without an objective.
/// Linear in the instance.
pub fn restrict(alloc: Global, instance: &Instance, keep: &[u64]) -> Result<Instance, Memory>
    requires { AreClauseNumbers (plain_instance instance.now) keep.now }
    ensures same { IfOk result (λ fewer. plain_instance fewer ≡ restricted (plain_instance instance.now) keep.now) }
    ensures mode { IfOk result (λ fewer. instance_mode fewer ≡ instance_mode instance.now) }
{
    let finds = copy_finds(alloc, instance.finds())?;
    let clauses = copy_clauses(alloc, instance.clauses(), keep)?;
    let env = instance.env().copy()?;
    let fewer = Instance::new(finds, clauses, None, env);
    Ok(fewer)
}
