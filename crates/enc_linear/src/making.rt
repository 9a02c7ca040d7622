//! How terms are made.

ghost use Rattle.std.specs.Prelude.{◌≡◌, ◌≢◌, ◌<◌, ◌*ℤ◌, pos, ℤ, List, length, IfOk};
ghost use Rattle.cnf_core.specs.Formula.{Cnf};
ghost use Rattle.enc_atoms.specs.Atoms.{AreOfDomains};
ghost use Rattle.enc_linear.specs.Bounds.{IsRaised, raised_step};
ghost use Rattle.enc_linear.specs.Terms.{IsMirror, IsTermOf, mirrored_step, step_of, worth_of};
ghost use Rattle.ep_flat.specs.Cons.{number_at};

use crate::bounds::bounds_of;
use crate::sources::Source;
use crate::terms::{Step, Term};
use enc_var::Layout;
use ep_base::Memory;
use ep_numbers::{listed, runs_ascend};
use std::alloc::Global;

/// A number with what it is worth under a coefficient.
fn multiplied(coefficient: i64, value: i64) -> Result<Step, Memory>
    ensures { IfOk result (λ step. step ≡ step_of coefficient value) }
{
    let left = i128::from(coefficient);
    let right = i128::from(value);
    let worth = left.checked_mul(right).ok_or(Memory)?;
    Ok(Step { value, worth })
}

/// A step whose worth is the opposite.
fn opposite(step: Step) -> Result<Step, Memory>
    ensures { IfOk result (λ twin. twin ≡ mirrored_step step) }
{
    let worth = 0i128.checked_sub(step.worth).ok_or(Memory)?;
    Ok(Step {
        value: step.value,
        worth,
    })
}

/// A variable with a coefficient.
pub(crate) fn multiple(
    alloc: Global,
    layout: &Layout,
    var: u64,
    coefficient: i64,
) -> Result<Term, Memory>
    requires var { var < length layout.now }
    requires coefficient { coefficient ≢ pos 0 }
    ensures of_layout { IfOk result (λ term. (f : Cnf) → IsTermOf layout.now f term) }
    ensures worth { IfOk result (λ term. (values : List ℤ) → AreOfDomains layout.now values
        → worth_of values term ≡ coefficient *ℤ number_at values var) }
{
    let domain = layout.domain(var);
    runs_ascend(domain);
    let values = listed(alloc, domain)?;
    let mut steps = Vec::new(alloc);
    for value in &values {
        let step = multiplied(coefficient, *value)?;
        steps.push(step)?;
    }
    let source = Source::Variable(var);
    let rising = 0 < coefficient;
    let bounds = bounds_of(&steps);
    Ok(Term {
        source,
        rising,
        steps,
        bounds,
    })
}

/// The same with each worth turned into its opposite.
pub(crate) fn mirrored(alloc: Global, term: &Term) -> Result<Term, Memory>
    ensures { IfOk result (λ twin. IsMirror term.now twin) }
{
    let mut steps = Vec::new(alloc);
    for step in &term.steps {
        let twin = opposite(*step)?;
        steps.push(twin)?;
    }
    let source = term.source;
    let rising = !term.rising;
    let bounds = bounds_of(&steps);
    Ok(Term {
        source,
        rising,
        steps,
        bounds,
    })
}

/// By how much what a term is worth is raised, and from which number on.
#[derive(Clone, Copy, Debug)]
pub struct Raise {
    /// What is less stays.
    pub from: i128,
    /// What is added.
    pub by: i128,
}

/// A step that is worth so much more, if it is worth enough.
fn raised_step(raise: Raise, step: Step) -> Result<Step, Memory>
    ensures { IfOk result (λ high. high ≡ raised_step raise.from raise.by step) }
{
    if step.worth < raise.from {
        return Ok(step);
    }
    let worth = step.worth.checked_add(raise.by).ok_or(Memory)?;
    Ok(Step {
        value: step.value,
        worth,
    })
}

/// The same with what it is worth raised from a number on.
pub(crate) fn raised(alloc: Global, term: &Term, raise: Raise) -> Result<Term, Memory>
    ensures { IfOk result (λ high. IsRaised raise.from raise.by term.now high) }
{
    let mut steps = Vec::new(alloc);
    for step in &term.steps {
        let high = raised_step(raise, *step)?;
        steps.push(high)?;
    }
    let source = term.source;
    let rising = term.rising;
    let bounds = bounds_of(&steps);
    Ok(Term {
        source,
        rising,
        steps,
        bounds,
    })
}
