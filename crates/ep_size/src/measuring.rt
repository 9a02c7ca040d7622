//! The measures of an instance.

ghost use Rattle.std.specs.Prelude.{◌≡◌, [], IfOk, OnOk, IfErr};
ghost use Rattle.ep_tree.specs.Closed.{IsClosed};
ghost use Rattle.ep_tree.specs.Solutions.{instance_limits, instance_size, instance_weight};
ghost use Rattle.ep_instance_parts.specs.Instances.{plain_instance, instance_mode};
ghost use Rattle.ep_size.specs.Causes.{IsCause, IsTooMany};
ghost use Rattle.ep_size.specs.Meters.{MeasuresInstance};
ghost use Rattle.ep_size.specs.Totals.{all_cells};

use super::cells::name_cells;
use super::errors::SizeError;
use super::expressions::{measure_all, measure_goal};
use super::totals::{MOST_WEIGHT, Totals};
use ep_base::Limit;
use ep_eval::Meter;
use ep_instance_parts::Instance;
use std::alloc::Global;

/// How great an instance is.
#[derive(Clone, Copy, Debug, PartialEq, Eq)]
pub struct Measures {
    /// Its cells, and the nodes of its clauses and its objective.
    pub size: u64,
    /// What its cells and its nodes weigh.
    pub weight: u64,
}

/// What the cells, the clauses and the objective of an instance come to.
fn measured(alloc: Global, instance: &Instance) -> Result<Totals, SizeError>
    ensures told { IfOk result (MeasuresInstance (instance_mode instance.now) (plain_instance instance.now)) }
    ensures cause { IfErr result (IsTooMany (all_cells (plain_instance instance.now).finds)) }
{
    let mut env = instance.env().copy()?;
    let cells = name_cells(alloc, &mut env, instance.finds())?;
    let meter = Meter {
        size: cells.size,
        passed: None,
    };
    let mut totals = Totals {
        meter,
        weight: cells.weight,
    };
    measure_all(alloc, &env, &mut totals, instance.clauses())?;
    measure_goal(alloc, &env, &mut totals, instance.objective())?;
    Ok(totals)
}

/// Measures an instance. Where one of the limits is passed, one that is passed is named, the limit
/// of weight only where no other is.
///
/// Each instance of an expression costs its text times its height, since each level asks anew whether a
/// decision variable stands below it; a form over a matrix lists what is known of its scalars.
pub fn measure(alloc: Global, instance: &Instance) -> Result<Measures, SizeError>
    requires { IsClosed (plain_instance instance.now) }
    ensures size { IfOk result (λ m. m.size ≡ instance_size (instance_mode instance.now) (plain_instance instance.now)) }
    ensures weight { IfOk result (λ m. m.weight ≡ instance_weight (instance_mode instance.now) (plain_instance instance.now)) }
    ensures within { OnOk result (instance_limits (instance_mode instance.now) (plain_instance instance.now) ≡ []) }
    ensures cause { IfErr result (IsCause (instance_limits (instance_mode instance.now) (plain_instance instance.now))) }
{
    let totals = measured(alloc, instance)?;
    if let Some(limit) = totals.meter.passed {
        return Err(SizeError::Limit(limit));
    }
    if totals.weight > MOST_WEIGHT {
        return Err(SizeError::Limit(Limit::Weight));
    }
    Ok(Measures {
        size: totals.meter.size,
        weight: totals.weight,
    })
}
