//! The literals of a cube.

ghost use Rattle.std.specs.Prelude.{◌≡◌, All, IfOk};
ghost use Rattle.cnf_core.specs.Literal.{IsVariable};
ghost use Rattle.sat_split.specs.Cubes as cubes;

use cnf_core::Lit;
use ep_base::Memory;
use std::alloc::Global;

/// The literals of the cube of a number, by its bits from the last one on.
pub fn cube_literals(alloc: Global, cube: u64, vars: &[u64]) -> Result<Vec<Lit>, Memory>
    requires { All IsVariable vars.now }
    ensures { IfOk result (λ literals. literals.items ≡ cubes.cube_literals cube vars.now) }
{
    let mut literals = Vec::new(alloc);
    let mut bits = cube;
    for var in vars {
        literals.push(Lit::new(*var, bits % 2 == 1))?;
        bits /= 2;
    }
    Ok(literals)
}
