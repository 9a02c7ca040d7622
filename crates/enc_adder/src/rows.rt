//! Clauses which say what a variable is where others are certain numbers.

ghost use Rattle.std.specs.Prelude.{OnOk};
ghost use Rattle.std.specs.List.{All};
ghost use Rattle.enc_atoms.specs.Atoms.{Adds};
ghost use Rattle.enc_adder.specs.Bits.{Follows, IsRowOf};
ghost use Rattle.enc_atoms.specs.Steps.{IsReady};

use cnf_core::Formula;
use enc_atoms::{Atom, Place, add_implied};
use enc_var::Layout;
use ep_base::Memory;
use std::alloc::Global;

/// Where three variables are their numbers, a fourth one is its number.
pub type Row = (Place, Place, Place, Place);

/// Adds that where three variables are their numbers, a fourth one is its number.
fn add_row(alloc: Global, layout: &Layout, f: &mut Formula, row: Row) -> Result<(), Memory>
    requires ready { IsReady layout.now f.old }
    requires names { IsRowOf layout.now row }
    ensures { OnOk result (Adds layout.now f.old layout.now f.new (λ values. Follows values row)) }
{
    let (one, two, given, then) = row;
    let guard = [Atom::is_not(one.0, one.1), Atom::is_not(two.0, two.1)];
    add_implied(alloc, layout, f, &guard, given, then)
}

/// Adds what rows say.
pub(crate) fn add_rows(
    alloc: Global,
    layout: &Layout,
    f: &mut Formula,
    rows: &[Row],
) -> Result<(), Memory>
    requires ready { IsReady layout.now f.old }
    requires names { All (IsRowOf layout.now) rows.now }
    ensures { OnOk result (Adds layout.now f.old layout.now f.new (λ values. All (Follows values) rows.now)) }
{
    for row in rows {
        add_row(alloc, layout, f, *row)?;
    }
    Ok(())
}
