//! From a ground to a formula.

ghost use Rattle.std.specs.Prelude.{◌≡◌, ◌≤◌, length, IfOk};
ghost use Rattle.ep_defined.specs.declared.remove.TheConstants.{MOST_NODES};
ghost use Rattle.ep_formula.specs.EncodedViews.{IsEncodedFrom};
ghost use Rattle.ep_ground.specs.Bounds.{IsBounded};
ghost use Rattle.ep_ground.specs.Grounds.{IsWellFormed};
ghost use Rattle.ep_ground.specs.GroundViews.{plain_ground};

use cnf_core::Formula;
use enc_all::encode;
use enc_var::Layout;
use ep_base::Memory;
use ep_defined::remove_undefined;
use ep_flat::CellMap;
use ep_flatten::flatten;
use ep_ground::{Cell, Ground};
use ep_share::share;
use ep_simplify::simplify;
use std::alloc::Global;

/// A formula, and how its assignments give the cells their numbers.
#[derive(Drop)]
pub struct Encoded {
    /// The clauses.
    pub formula: Formula,
    /// The literals of the flat variables.
    pub layout: Layout,
    /// The cells of the ground.
    pub cells: Vec<Cell>,
    /// Which flat variables stand for the cells and for the objective.
    pub map: CellMap,
}

/// A formula whose assignments decode to exactly the values of the cells that the ground keeps.
pub fn formula_of(alloc: Global, g: Ground) -> Result<Encoded, Memory>
    requires nodes { length (plain_ground g).nodes ≤ MOST_NODES }
    requires well_formed { IsWellFormed (plain_ground g) }
    requires bounded { IsBounded (plain_ground g) }
    ensures made { IfOk result (λ made. IsEncodedFrom (plain_ground g) made) }
    ensures cells { IfOk result (λ made. made.cells.items ≡ (plain_ground g).cells) }
{
    let defined = remove_undefined(alloc, g)?;
    let simple = simplify(alloc, defined)?;
    let shared = share(alloc, simple)?;
    let (flat, map) = flatten(alloc, &shared)?;
    let (formula, layout) = encode(alloc, &flat)?;
    Ok(Encoded {
        formula,
        layout,
        cells: shared.cells,
        map,
    })
}
