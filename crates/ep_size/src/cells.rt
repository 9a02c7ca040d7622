//! The cells of an instance: their number, what they weigh, and the environment in which their names stand for them.

ghost use Rattle.std.specs.Prelude.{◌≡◌, ◌≤◌, ◌+◌, ◌*◌, length, map, IfOk, IfErr, OnOk};
ghost use Rattle.ep_base.specs.Runs.{numbers_in};
ghost use Rattle.ep_tree.specs.Limits as limits;
ghost use Rattle.ep_tree.specs.Names.{put, put_all};
ghost use Rattle.ep_tree.specs.Environments.{has_cells};
ghost use Rattle.ep_tree.specs.Solutions.{cell_count, cells_bound};
ghost use Rattle.ep_tree.specs.Types as types;
ghost use Rattle.ep_eval.specs.Known.{env_of};
ghost use Rattle.ep_instance_parts.specs.Instances.{find_of};
ghost use Rattle.ep_size.specs.Totals.{Celled, all_cells, capped, MOST_TOLD};
ghost use Rattle.ep_size.specs.Causes.{IsTooMany};

use super::errors::SizeError;
use super::totals::{MOST_TOLD, product, told};
use ep_base::{Limit, Memory, Name, Run, Runs};
use ep_eval::{Env, MOST_SIZE};
use ep_instance_parts::Find;
use ep_numbers::copy_sets;
use std::alloc::Global;

/// How many cells there are so far, and what they weigh, as far as a weight is told.
#[derive(Clone, Copy, Debug, PartialEq, Eq)]
pub struct CellTotals {
    pub size: u64,
    pub weight: u64,
}

/// How many numbers a run has, as far as it is told.
fn run_length(run: Run) -> u64
    ensures { result ≡ capped (length (numbers_in run)) }
{
    let count = i128::from(run.hi) + 1 - i128::from(run.lo);
    if count < 0 {
        return 0;
    }
    if count > 20_000_001 {
        return MOST_TOLD;
    }
    count as u64
}

/// How many numbers a set has, as far as it is told.
pub fn set_length(set: &Runs) -> u64
    ensures { result ≡ capped (length set.now) }
{
    let mut count = 0;
    for run in set.runs() {
        count = told(count + run_length(*run));
    }
    count
}

/// How many cells these index domains make, as far as it is told.
pub fn cells_over(indices: &[Runs]) -> u64
    ensures { result ≡ capped (cell_count indices.now) }
{
    let mut cells = 1;
    for set in indices {
        cells = product(cells, set_length(set));
    }
    cells
}

/// The name of a decision variable stands for its cells.
fn name_find(alloc: Global, env: &mut Env, find: &Find) -> Result<(), Memory>
    ensures mode { env.new.mode ≡ env.old.mode }
    ensures known { OnOk result (env_of env.new
        ≡ put find.now.name (has_cells (types.scalar_of find.now.ty) find.now.indices.items find.now.values) (env_of env.old)) }
{
    let name = Name::new(alloc, find.name.text())?;
    let indices = copy_sets(alloc, &find.indices)?;
    let values = find.values.copy(alloc)?;
    env.name_cells(name, indices, values, find.ty.scalar())
}

/// The cells of one decision variable more.
fn with_cells(before: CellTotals, find: &Find) -> Result<CellTotals, SizeError>
    requires small { before.size ≤ limits.MOST_SIZE }
    requires told { before.weight ≤ MOST_TOLD }
    ensures size { IfOk result (λ t. t.size ≡ before.size + cell_count find.now.indices.items) }
    ensures within { IfOk result (λ t. t.size ≤ limits.MOST_SIZE) }
    ensures weight { IfOk result (λ t. t.weight
        ≡ capped (before.weight + cell_count find.now.indices.items * length find.now.values)) }
    ensures cause { IfErr result (IsTooMany (before.size + cell_count find.now.indices.items)) }
{
    let cells = cells_over(&find.indices);
    if before.size + cells > MOST_SIZE {
        return Err(SizeError::Limit(Limit::Size));
    }
    let weight = product(cells, set_length(&find.values));
    Ok(CellTotals {
        size: before.size + cells,
        weight: told(before.weight + weight),
    })
}

/// The names of decision variables stand for their cells, and these are counted.
pub fn name_cells(alloc: Global, env: &mut Env, finds: &[Find]) -> Result<CellTotals, SizeError>
    ensures mode { env.new.mode ≡ env.old.mode }
    ensures known { OnOk result (env_of env.new ≡ put_all (cells_bound (map find_of finds.now)) (env_of env.old)) }
    ensures cells { IfOk result (λ t. Celled t (map find_of finds.now)) }
    ensures cause { IfErr result (IsTooMany (all_cells (map find_of finds.now))) }
{
    let mut totals = CellTotals { size: 0, weight: 0 };
    let count = finds.len();
    for passed in 0..count {
        let find = &finds[count - 1 - passed];
        totals = with_cells(totals, find)?;
        name_find(alloc, env, find)?;
    }
    Ok(totals)
}
