//! Clauses which say that a variable is a number, or whether it is.

ghost use Rattle.std.specs.Prelude.{◌++◌, false, IsTrue, OnOk};
ghost use Rattle.std.specs.Ordering.{int_eq};
ghost use Rattle.ep_flat.specs.Cons.{is_value, number_at};
ghost use Rattle.enc_atoms.specs.Atoms.{Adds, clause_holds};
ghost use Rattle.enc_arith.specs.Saying.{IsReady, IsTarget, NamesIn, says};

use crate::targets::Target;
use cnf_core::Formula;
use enc_atoms::{Atom, add_clause};
use enc_var::Layout;
use ep_base::Memory;
use std::alloc::Global;

/// Adds the clause of some atoms and others.
pub(crate) fn add_more(
    alloc: Global,
    layout: &Layout,
    f: &mut Formula,
    when: &[Atom],
    more: &[Atom],
) -> Result<(), Memory>
    requires ready { IsReady layout.now f.old }
    requires names { NamesIn layout.now when.now }
    requires others { NamesIn layout.now more.now }
    ensures { OnOk result (Adds layout.now f.old layout.now f.new
        (λ values. IsTrue (clause_holds values (when.now ++ more.now)))) }
{
    let mut atoms = Vec::from_slice(alloc, when)?;
    atoms.extend_from_slice(more)?;
    add_clause(alloc, layout, f, atoms.as_slice())?;
    Ok(())
}

/// Adds clauses which say that the result is this number.
pub(crate) fn add_number(
    alloc: Global,
    layout: &Layout,
    f: &mut Formula,
    when: &[Atom],
    target: Target,
    number: i64,
) -> Result<(), Memory>
    requires ready { IsReady layout.now f.old }
    requires names { NamesIn layout.now when.now }
    requires there { IsTarget layout.now target.truth target.result }
    ensures { OnOk result (Adds layout.now f.old layout.now f.new
        (λ values. IsTrue (says values when.now target.truth (int_eq (number_at values target.result) number)))) }
{
    let Target { truth, result: var } = target;
    match truth {
        Some(truth) => {
            add_more(
                alloc,
                layout,
                f,
                when,
                &[Atom::is_not(var, number), Atom::is(truth, 1)],
            )?;
            add_more(
                alloc,
                layout,
                f,
                when,
                &[Atom::is(var, number), Atom::is(truth, 0)],
            )?;
        }
        None => add_more(alloc, layout, f, when, &[Atom::is(var, number)])?,
    }
    Ok(())
}

/// Adds clauses which say that the result is no number that it should be.
pub(crate) fn add_failure(
    alloc: Global,
    layout: &Layout,
    f: &mut Formula,
    when: &[Atom],
    target: Target,
) -> Result<(), Memory>
    requires ready { IsReady layout.now f.old }
    requires names { NamesIn layout.now when.now }
    requires there { IsTarget layout.now target.truth target.result }
    ensures { OnOk result (Adds layout.now f.old layout.now f.new
        (λ values. IsTrue (says values when.now target.truth false))) }
{
    match target.truth {
        Some(truth) => add_more(alloc, layout, f, when, &[Atom::is(truth, 0)])?,
        None => add_clause(alloc, layout, f, when)?,
    }
    Ok(())
}

/// Adds clauses which say that the result is the number that was found.
pub(crate) fn add_found(
    alloc: Global,
    layout: &Layout,
    f: &mut Formula,
    when: &[Atom],
    target: Target,
    found: Option<i64>,
) -> Result<(), Memory>
    requires ready { IsReady layout.now f.old }
    requires names { NamesIn layout.now when.now }
    requires there { IsTarget layout.now target.truth target.result }
    ensures { OnOk result (Adds layout.now f.old layout.now f.new
        (λ values. IsTrue (says values when.now target.truth (is_value found (number_at values target.result))))) }
{
    match found {
        Some(number) => add_number(alloc, layout, f, when, target, number)?,
        None => add_failure(alloc, layout, f, when, target)?,
    }
    Ok(())
}
