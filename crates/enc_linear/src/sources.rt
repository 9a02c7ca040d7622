//! What a term of a sum is about: a variable, or variables that count up together.

ghost use Rattle.std.specs.Prelude.{IfOk};
ghost use Rattle.enc_linear.specs.Sources.{AreGuardsOrOther, SaysAbove, SaysAtMost};
ghost use Rattle.enc_linear.specs.declared.sources.Source.TheVariants as Source;

use crate::guards::with_atom;
use enc_atoms::Atom;
use ep_base::Memory;
use std::alloc::Global;

/// Variables of 0 and 1, one after another, of which those that are 1 stand before the others.
#[derive(Clone, Copy, Debug)]
pub struct Ladder {
    /// The first one.
    pub first: u64,
    /// How many there are.
    pub rungs: u64,
}

/// What has a number.
#[derive(Clone, Copy, Debug)]
pub enum Source {
    /// A variable.
    Variable(u64),
    /// A ladder, whose number is how many of its variables are 1.
    Ladder(Ladder),
}

/// "At most so many variables of the ladder are 1."
fn ladder_at_most(ladder: Ladder, most: i64) -> Result<Atom, Memory>
    ensures { IfOk result (SaysAtMost (Source.Ladder ladder) most) }
{
    if most < 0 {
        return Ok(Atom::at_most(ladder.first, -1));
    }
    let place = most as u64;
    if place >= ladder.rungs {
        return Ok(Atom::at_most(ladder.first, 1));
    }
    let var = ladder.first.checked_add(place).ok_or(Memory)?;
    Ok(Atom::at_most(var, 0))
}

/// "The number is at most this one."
pub(crate) fn at_most(source: Source, most: i64) -> Result<Atom, Memory>
    ensures { IfOk result (SaysAtMost source most) }
{
    match source {
        Source::Variable(var) => Ok(Atom::at_most(var, most)),
        Source::Ladder(ladder) => ladder_at_most(ladder, most),
    }
}

/// "The number is above this one."
pub(crate) fn above(source: Source, number: i64) -> Result<Atom, Memory>
    ensures { IfOk result (SaysAbove source number) }
{
    let within = at_most(source, number)?;
    Ok(Atom::above(within.var, within.value))
}

/// The guards with "fewer variables of the ladder are 1, or more are".
fn unless_other_height(
    alloc: Global,
    guards: &[Atom],
    ladder: Ladder,
    number: i64,
) -> Result<Vec<Atom>, Memory>
    ensures { IfOk result (λ atoms. AreGuardsOrOther (Source.Ladder ladder) number guards.now atoms.items) }
{
    let under = number.checked_sub(1).ok_or(Memory)?;
    let fewer = ladder_at_most(ladder, under)?;
    let atoms = with_atom(alloc, guards, fewer)?;
    let more = above(Source::Ladder(ladder), number)?;
    let longer = with_atom(alloc, &atoms, more)?;
    Ok(longer)
}

/// The guards with "the number is another one".
pub(crate) fn unless_other(
    alloc: Global,
    guards: &[Atom],
    source: Source,
    number: i64,
) -> Result<Vec<Atom>, Memory>
    ensures { IfOk result (λ atoms. AreGuardsOrOther source number guards.now atoms.items) }
{
    match source {
        Source::Variable(var) => {
            let atoms = with_atom(alloc, guards, Atom::is_not(var, number))?;
            Ok(atoms)
        }
        Source::Ladder(ladder) => unless_other_height(alloc, guards, ladder, number),
    }
}
