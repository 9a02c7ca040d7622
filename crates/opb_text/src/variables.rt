//! The variables of a problem.

ghost use Rattle.std.specs.Prelude.{◌≡◌, ◌++◌, map, IfOk, OnOk};
ghost use Rattle.opb_text.specs.Contents.{named_variables};
ghost use Rattle.opb_text.specs.Views.{plain_opb};
ghost use Rattle.opb_text.specs.Weights.{AreVariablesOf};

use crate::content::{Opb, OpbTerm, objective_terms};
use ep_base::Memory;
use std::alloc::Global;

/// Adds the variables of terms, as often as they stand there.
fn push_variables(named: &mut Vec<u64>, terms: &[OpbTerm]) -> Result<(), Memory>
    ensures { OnOk result (named.new.items ≡ named.old.items ++ map (λ t. t.var) terms.now) }
{
    for term in terms {
        named.push(term.var)?;
    }
    Ok(())
}

/// The variables of all terms, as often as they stand there.
fn named_variables(alloc: Global, opb: &Opb) -> Result<Vec<u64>, Memory>
    ensures { IfOk result (λ named. named.items ≡ named_variables (plain_opb opb.now)) }
{
    let mut named = Vec::new(alloc);
    push_variables(&mut named, objective_terms(opb))?;
    for row in &opb.rows {
        push_variables(&mut named, &row.terms)?;
    }
    Ok(named)
}

/// The variables that stand in a problem, in ascending order, each once. Costs a sort of all terms' variables.
pub fn opb_vars(alloc: Global, opb: &Opb) -> Result<Vec<u64>, Memory>
    ensures { IfOk result (λ vars. AreVariablesOf (plain_opb opb.now) vars.items) }
{
    let mut vars = named_variables(alloc, opb)?;
    vars.sort_unstable();
    vars.dedup();
    // A copy of the right size, since a variable stands many times.
    Ok(Vec::from_slice(alloc, vars.as_slice())?)
}
