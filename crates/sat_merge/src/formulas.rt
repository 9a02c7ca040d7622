//! The formula with which a cube's log begins.

ghost use Rattle.std.specs.Prelude.{◌≡◌, ◌≤◌, All, IfOk};
ghost use Rattle.cnf_core.specs.Events.{clauses_of};
ghost use Rattle.cnf_core.specs.Literal.{VariablesUpTo};
ghost use Rattle.cnf_core.specs.declared.lit.TheConstants.{MOST_VARIABLE};

use cnf_core::{Formula, Log};
use ep_base::Memory;
use std::alloc::Global;

/// The formula of a log's clauses, over so many variables.
pub fn formula_of(alloc: Global, vars: u64, log: &Log) -> Result<Formula, Memory>
    requires most { vars ≤ MOST_VARIABLE }
    requires named { All (VariablesUpTo vars) (clauses_of log.now.events) }
    ensures { IfOk result (λ own. own.clauses ≡ clauses_of log.now.events) }
{
    let mut own = Formula::with_vars(alloc, vars);
    let events = log.events();
    for place in 0..events.len() {
        own.add_ordered(events.clause(place))?;
    }
    Ok(own)
}
