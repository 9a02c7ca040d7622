//! Unrolling.

ghost use Rattle.std.specs.Prelude.{◌≡◌, ◌+◌, ◌*◌, ◌≤◌, [], true, length, IfOk};
ghost use Rattle.std.specs.List.{All};
ghost use Rattle.ep_base.specs.Reads.{IsWithinNumbers};
ghost use Rattle.ep_ground.specs.Bounds.{IsBounded};
ghost use Rattle.ep_ground.specs.Grounds.{IsWellFormed};
ghost use Rattle.ep_ground.specs.GroundViews.{plain_ground};
ghost use Rattle.ep_instance_parts.specs.Instances.{plain_instance, instance_mode};
ghost use Rattle.ep_tree.specs.Closed.{IsClosed};
ghost use Rattle.ep_tree.specs.Solutions.{instance_limits, instance_size, instance_weight};
ghost use Rattle.ep_unroll.specs.Cells.{instance_cells};
ghost use Rattle.ep_unroll.specs.Grounds.{IsGroundOf};
ghost use Rattle.ep_unroll.specs.Unrolling.{SaysClauses, SaysObjective};

use super::cells::{cells_of, env_with_cells, table_of};
use super::clauses::{clause_terms, goal_term};
use ep_base::Memory;
use ep_ground::{Arena, Ground};
use ep_instance_parts::Instance;
use ep_reach::{is_bounded, is_well_formed};
use ep_size::measure;
use std::alloc::Global;

/// The ground of an instance before it is checked.
fn ground_of(alloc: Global, instance: &Instance) -> Result<Ground, Memory>
    ensures cells { IfOk result (λ g. (plain_ground g).cells ≡ instance_cells (plain_instance instance.now)) }
    ensures terms { IfOk result (λ g. IsGroundOf (instance_mode instance.now) (plain_instance instance.now) (plain_ground g)) }
{
    let env = env_with_cells(alloc, instance)?;
    let table = table_of(alloc, instance.finds())?;
    let cells = cells_of(alloc, instance.finds())?;
    let mut arena = Arena::new(alloc);
    let clauses = clause_terms(alloc, &env, &table, &mut arena, instance.clauses())?;
    let objective = goal_term(alloc, &env, &table, &mut arena, instance.objective())?;
    Ok(Ground {
        arena,
        cells,
        clauses,
        objective,
    })
}

/// Whether a ground has few nodes beside the size and the weight of its instance.
fn is_small(alloc: Global, instance: &Instance, ground: &Ground) -> Result<bool, Memory>
    requires { IsClosed (plain_instance instance.now) }
    ensures { IfOk result (λ small. small ≡ true → length (plain_ground ground.now).nodes
        ≤ 4 * (instance_size (instance_mode instance.now) (plain_instance instance.now)
        + instance_weight (instance_mode instance.now) (plain_instance instance.now))) }
{
    let count = u128::from(ground.arena.len());
    match measure(alloc, instance) {
        Ok(measures) => Ok(count <= 4 * (u128::from(measures.size) + u128::from(measures.weight))),
        Err(_) => Err(Memory),
    }
}

/// The ground of an instance: a term for each clause and for the objective, over one cell for each number that is to be
/// found. It has at most four nodes for each unit of the instance's size and weight.
///
/// In the strict mode a truth value's term has a value only where its parts have one, which costs it one node more.
///
/// That the ground is well formed, bounded and small is asked of it once it stands, and is believed never to fail.
pub fn unroll(alloc: Global, instance: &Instance) -> Result<Ground, Memory>
    requires closed { IsClosed (plain_instance instance.now) }
    requires small { instance_limits (instance_mode instance.now) (plain_instance instance.now) ≡ [] }
    requires values { All (λ f. All IsWithinNumbers f.values) (plain_instance instance.now).finds }
    ensures cells { IfOk result (λ g. (plain_ground g).cells ≡ instance_cells (plain_instance instance.now)) }
    ensures clauses { IfOk result (λ g. SaysClauses (instance_mode instance.now) (plain_instance instance.now) (plain_ground g)) }
    ensures objective { IfOk result (λ g. SaysObjective (instance_mode instance.now) (plain_instance instance.now) (plain_ground g)) }
    ensures well_formed { IfOk result (λ g. IsWellFormed (plain_ground g)) }
    ensures bounded { IfOk result (λ g. IsBounded (plain_ground g)) }
    ensures nodes { IfOk result (λ g. length (plain_ground g).nodes
        ≤ 4 * (instance_size (instance_mode instance.now) (plain_instance instance.now)
        + instance_weight (instance_mode instance.now) (plain_instance instance.now))) }
{
    let ground = ground_of(alloc, instance)?;
    let bounded = is_bounded(alloc, &ground)?;
    let small = is_small(alloc, instance, &ground)?;
    let well_formed = is_well_formed(&ground);
    if !bounded || !small || !well_formed {
        return Err(Memory);
    }
    Ok(ground)
}
