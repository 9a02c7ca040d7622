//! Puts the literals of a line in order.

ghost use Rattle.cnf_core.specs.Literal.{HaveSameLiterals, IsClause, IsOrdered};

use cnf_core::{Lit, MOST_VARIABLE};

/// Puts literals in order, and leaves each once.
pub fn put_in_order(literals: &mut Vec<Lit>)
    ensures ordered { IsOrdered literals.new.items }
    ensures clause { IsClause literals.new.items }
    ensures same { HaveSameLiterals literals.new.items literals.old.items }
{
    literals.sort_unstable();
    literals.dedup();
    for lit in literals.as_slice() {
        prove!(lit.var() <= MOST_VARIABLE);
    }
}
