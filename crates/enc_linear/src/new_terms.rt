//! New terms that can be worth any of some numbers.

ghost use Rattle.std.specs.Prelude.{◌<◌, length, IfOk, OnOk};
ghost use Rattle.enc_atoms.specs.Atoms.{Adds};
ghost use Rattle.enc_atoms.specs.Steps.{AreOf, IsReady};
ghost use Rattle.enc_linear.specs.Ladders.{HasTerm, IsLadderTerm};
ghost use Rattle.enc_linear.specs.Sources.{Falls};
ghost use Rattle.ep_base.specs.Runs.{IsAscending};
ghost use Rattle.ep_flat.specs.Cons.{numbers_of_vars};

use crate::bounds::bounds_of;
use crate::making::multiple;
use crate::sources::{Ladder, Source};
use crate::terms::{Step, Term};
use cnf_core::Formula;
use enc_atoms::{add_implied, new_truths};
use enc_var::Layout;
use ep_base::{Memory, Runs};
use ep_numbers::{listed, runs_ascend};
use std::alloc::Global;

/// So many numbers and more have a ladder; fewer have a variable, which costs no more.
const FEWEST_OF_LADDER: usize = 3;

/// Adds that of some variables those that are 1 stand before the others.
fn add_falls(alloc: Global, layout: &Layout, f: &mut Formula, rungs: &[u64]) -> Result<(), Memory>
    requires ready { IsReady layout.now f.old }
    requires within { AreOf layout.now rungs.now }
    ensures { OnOk result (Adds layout.now f.old layout.now f.new
        (λ values. Falls (numbers_of_vars values rungs.now))) }
{
    for place in 1..rungs.len() {
        add_implied(
            alloc,
            layout,
            f,
            &[],
            (rungs[place], 1),
            (rungs[place - 1], 1),
        )?;
    }
    Ok(())
}

/// The term of a ladder: worth the first number where none of its variables is 1, and a number further for each that is.
fn ladder_term(alloc: Global, ladder: Ladder, numbers: &[i64]) -> Result<Term, Memory>
    ensures { IfOk result (IsLadderTerm ladder numbers.now) }
{
    let mut steps = Vec::new(alloc);
    for place in 0..numbers.len() {
        let value = place as i64;
        let worth = i128::from(numbers[place]);
        steps.push(Step { value, worth })?;
    }
    let source = Source::Ladder(ladder);
    let bounds = bounds_of(&steps);
    Ok(Term {
        source,
        rising: true,
        steps,
        bounds,
    })
}

/// The term of a new ladder that can be worth any of some numbers, which ascend. Costs a variable and a clause of two
/// literals a number.
fn ladder_of(
    alloc: Global,
    layout: &mut Layout,
    f: &mut Formula,
    numbers: &[i64],
) -> Result<Term, Memory>
    requires ready { IsReady layout.old f.old }
    requires ascending { IsAscending numbers.now }
    requires several { 1 < length numbers.now }
    ensures { IfOk result (λ term. HasTerm layout.old f.old layout.new f.new numbers.now term) }
{
    let rungs = new_truths(alloc, layout, f, numbers.len() - 1)?;
    add_falls(alloc, layout, f, &rungs)?;
    let ladder = Ladder {
        first: rungs[0],
        rungs: rungs.len() as u64,
    };
    let term = ladder_term(alloc, ladder, numbers)?;
    Ok(term)
}

/// The term of a new variable that can be worth any of some numbers.
fn variable_of(
    alloc: Global,
    layout: &mut Layout,
    f: &mut Formula,
    domain: &Runs,
) -> Result<Term, Memory>
    requires ready { IsReady layout.old f.old }
    ensures { IfOk result (λ term. HasTerm layout.old f.old layout.new f.new domain.now term) }
{
    let var = layout.new_var(alloc, f, domain)?;
    let term = multiple(alloc, layout, var, 1)?;
    Ok(term)
}

/// A new term that can be worth any of some numbers.
pub(crate) fn any_of(
    alloc: Global,
    layout: &mut Layout,
    f: &mut Formula,
    domain: &Runs,
) -> Result<Term, Memory>
    requires ready { IsReady layout.old f.old }
    ensures { IfOk result (λ term. HasTerm layout.old f.old layout.new f.new domain.now term) }
{
    runs_ascend(domain);
    let numbers = listed(alloc, domain)?;
    if numbers.len() < FEWEST_OF_LADDER {
        return variable_of(alloc, layout, f, domain);
    }
    ladder_of(alloc, layout, f, &numbers)
}
