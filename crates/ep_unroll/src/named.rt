//! Names of decision variables.

ghost use Rattle.std.specs.Prelude.{◌≡◌, false, List, IfOk};
ghost use Rattle.ep_base.specs.declared.places.Place.{Place};
ghost use Rattle.ep_ground.specs.Nodes.{GroundNode};
ghost use Rattle.ep_tree.specs.Environments as names;
ghost use Rattle.ep_tree.specs.Trees.{named};
ghost use Rattle.ep_eval.specs.Scopes.{env_in, mode_in, with_all};
ghost use Rattle.ep_unroll.specs.Blocks.{StandFor};
ghost use Rattle.ep_unroll.specs.Firsts.{numbering_of};
ghost use Rattle.ep_unroll.specs.Meanings.{Means};

use super::blocks::Block;
use super::firsts::{CellTable, first_cell};
use super::unrolled::Unrolled;
use ep_base::{Memory, Name};
use ep_eval::{Around, Scope};

/// Whether a quantified name is this one. Linear in the names around.
fn is_quantified(around: &Around, name: &Name) -> bool
    ensures { (env : names.Env) → result ≡ false → with_all env around.now name.now ≡ env name.now }
{
    match around {
        Around::Nothing => false,
        Around::Number(outer, own, _, _) => {
            if *name == **own {
                return true;
            }
            is_quantified(outer, name)
        }
    }
}

/// The cells of a decision variable.
pub fn block_named<'a>(
    scope: Scope<'_, 'a>,
    table: &CellTable,
    name: &Name,
) -> Result<Block<'a>, Memory>
    ensures { IfOk result (λ block. StandFor (numbering_of (mode_in scope.entry) table.now) (env_in scope.entry) name.now block.first block.domains.now) }
{
    if is_quantified(scope.around, name) {
        return Err(Memory);
    }
    let Some(first) = first_cell(&table.firsts, name) else {
        return Err(Memory);
    };
    match scope.env.cells(name) {
        Some(domain) => Ok(Block {
            first,
            domains: &domain.indices,
        }),
        None => Err(Memory),
    }
}

/// The same as what was unrolled.
pub fn named_cells<'a>(
    scope: Scope<'_, 'a>,
    table: &CellTable,
    name: &Name,
) -> Result<Unrolled<'a>, Memory>
    ensures { (nodes : List GroundNode) → (p : Place) → IfOk result (Means (numbering_of (mode_in scope.entry) table.now) (env_in scope.entry) nodes nodes (named p name.now)) }
{
    let block = block_named(scope, table, name)?;
    Ok(Unrolled::Cells(block.first, block.domains))
}
