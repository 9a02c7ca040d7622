//! Instances as formulas.

ghost use Rattle.std.specs.Prelude.{◌≡◌, [], IfOk};
ghost use Rattle.std.specs.List.{All};
ghost use Rattle.ep_base.specs.Reads.{IsWithinNumbers};
ghost use Rattle.ep_flat.specs.FlatViews.{plain_map};
ghost use Rattle.ep_instance_parts.specs.Instances.{plain_instance, instance_mode};
ghost use Rattle.ep_solve.specs.Formulas.{IsFormulaFor};
ghost use Rattle.ep_tree.specs.Closed.{IsClosed};
ghost use Rattle.ep_tree.specs.Solutions.{instance_limits};
ghost use Rattle.ep_unroll.specs.Cells.{instance_cells};

use ep_base::Memory;
use ep_formula::{Encoded, formula_of};
use ep_instance_parts::Instance;
use ep_unroll::unroll;
use std::alloc::Global;

/// A formula whose assignments decode to exactly the solutions of an instance, and the variable of the
/// objective then to its number.
pub fn formula_for(alloc: Global, instance: &Instance) -> Result<Encoded, Memory>
    requires closed { IsClosed (plain_instance instance.now) }
    requires within { instance_limits (instance_mode instance.now) (plain_instance instance.now) ≡ [] }
    requires values { All (λ f. All IsWithinNumbers f.values) (plain_instance instance.now).finds }
    ensures stands { IfOk result (λ made. IsFormulaFor (instance_mode instance.now) (plain_instance instance.now)
        made.layout (plain_map made.map) made.formula) }
    ensures cells { IfOk result (λ made. made.cells.items ≡ instance_cells (plain_instance instance.now)) }
{
    let ground = unroll(alloc, instance)?;
    let made = formula_of(alloc, ground)?;
    Ok(made)
}
