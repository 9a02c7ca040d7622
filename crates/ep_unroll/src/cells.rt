//! The cells of an instance, how they are numbered, and the environment in which the names of decision variables stand for
//! them.

ghost use Rattle.std.specs.Prelude.{◌≡◌, ◌++◌, IfOk, OnOk, flat_map, map};
ghost use Rattle.ep_tree.specs.Closed.{clause_env};
ghost use Rattle.ep_tree.specs.Environments.{has_cells};
ghost use Rattle.ep_tree.specs.Names.{put, put_all};
ghost use Rattle.ep_tree.specs.Solutions.{cells_bound};
ghost use Rattle.ep_tree.specs.Types as types;
ghost use Rattle.ep_tree.specs.declared.values.Mode.{Mode as EachMode};
ghost use Rattle.ep_eval.specs.Known.{env_of};
ghost use Rattle.ep_instance_parts.specs.Instances.{find_of, plain_instance, instance_mode};
ghost use Rattle.ep_unroll.specs.Cells as defined;
ghost use Rattle.ep_unroll.specs.Cells.{cell_of, find_cells};
ghost use Rattle.ep_unroll.specs.Firsts.{numbering, numbering_of};

use super::blocks::cells_over;
use super::firsts::{CellTable, FirstCell};
use super::listing::index_lists;
use ep_base::{Key, Memory, Name};
use ep_eval::Env;
use ep_ground::Cell;
use ep_instance_parts::{Find, Instance};
use ep_numbers::copy_sets;
use ep_tree::Scalar;
use std::alloc::Global;

/// The cell of a decision variable at some indices.
fn cell_at(alloc: Global, find: &Find, indices: &Key) -> Result<Cell, Memory>
    ensures { IfOk result (λ cell. cell ≡ cell_of (find_of find.now) indices.now) }
{
    let name = Name::new(alloc, find.name.text())?;
    let indices = indices.copy(alloc)?;
    let truth = is_truth(find.ty.scalar());
    let values = find.values.copy(alloc)?;
    Ok(Cell {
        name,
        indices,
        truth,
        values,
    })
}

/// Adds the cells of a decision variable.
fn push_cells(alloc: Global, cells: &mut Vec<Cell>, find: &Find) -> Result<(), Memory>
    ensures { OnOk result (cells.new.items ≡ cells.old.items ++ find_cells (find_of find.now)) }
{
    let keys = index_lists(alloc, &find.indices)?;
    for indices in &keys {
        cells.push(cell_at(alloc, find, indices)?)?;
    }
    Ok(())
}

/// The cells of some decision variables, in order.
pub fn cells_of(alloc: Global, finds: &[Find]) -> Result<Vec<Cell>, Memory>
    ensures { IfOk result (λ cells. cells.items ≡ flat_map find_cells (map find_of finds.now)) }
{
    let mut cells = Vec::new(alloc);
    for find in finds {
        push_cells(alloc, &mut cells, find)?;
    }
    Ok(cells)
}

/// Where the cells of each decision variable begin.
pub fn table_of(alloc: Global, finds: &[Find]) -> Result<CellTable, Memory>
    ensures { IfOk result (λ t. (mode : EachMode) → numbering_of mode t ≡ numbering mode (map find_of finds.now)) }
{
    let mut firsts = Vec::new(alloc);
    let mut count: u64 = 0;
    for find in finds {
        let cells = cells_over(&find.indices)?;
        let name = Name::new(alloc, find.name.text())?;
        firsts.push(FirstCell { name, cell: count })?;
        let Some(sum) = count.checked_add(cells) else {
            return Err(Memory);
        };
        count = sum;
    }
    Ok(CellTable { firsts, count })
}

/// Whether numbers of a scalar stand for truth values.
#[tactic(auto, unfolding(crate::specs::Cells::is_truth))]
fn is_truth(scalar: Scalar) -> bool
    ensures { result ≡ defined.is_truth scalar }
{
    match scalar {
        Scalar::Bool => true,
        Scalar::Int => false,
    }
}

/// The name of a decision variable stands for its cells.
fn name_find(alloc: Global, env: &mut Env, find: &Find) -> Result<(), Memory>
    ensures mode { env.new.mode ≡ env.old.mode }
    ensures known { OnOk result (env_of env.new
        ≡ put find.now.name (has_cells (types.scalar_of find.now.ty) find.now.indices.items find.now.values) (env_of env.old)) }
{
    let name = Name::new(alloc, find.name.text())?;
    let indices = copy_sets(alloc, &find.indices)?;
    let values = find.values.copy(alloc)?;
    env.name_cells(name, indices, values, find.ty.scalar())
}

/// The names of decision variables stand for their cells.
fn name_finds(alloc: Global, env: &mut Env, finds: &[Find]) -> Result<(), Memory>
    ensures mode { env.new.mode ≡ env.old.mode }
    ensures known { OnOk result (env_of env.new ≡ put_all (cells_bound (map find_of finds.now)) (env_of env.old)) }
{
    let count = finds.len();
    for passed in 0..count {
        let find = &finds[count - 1 - passed];
        name_find(alloc, env, find)?;
    }
    Ok(())
}

/// The environment of an instance in which the names of decision variables stand for their cells.
pub fn env_with_cells(alloc: Global, instance: &Instance) -> Result<Env, Memory>
    ensures mode { IfOk result (λ env. env.mode ≡ instance_mode instance.now) }
    ensures known { IfOk result (λ env. env_of env ≡ clause_env (plain_instance instance.now)) }
{
    let mut env = instance.env().copy()?;
    name_finds(alloc, &mut env, instance.finds())?;
    Ok(env)
}
