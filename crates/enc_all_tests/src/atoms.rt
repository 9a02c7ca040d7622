//! Clauses of atoms on a variable with the numbers 1, 3 and 5, whose literals are 1 ("at least 3"), 2 ("at least 5")
//! and 3 ("is 3").

use cnf_core::{Formula, Lit};
use enc_atoms::{Atom, add_clause};
use enc_var::Layout;
use ep_base::{Run, Runs};
use std::alloc::{AllocError, Global};
use std::test::Fail;

/// Adds a literal, with a space behind it.
fn push_literal(alloc: Global, whole: &mut String, lit: Lit) -> Result<(), AllocError> {
    let sign = if lit.positive() { "" } else { "-" };
    let word = format!(in alloc; "{sign}{} ", lit.var())?;
    whole.push_str(word.as_str())
}

/// The literals of all clauses from the fifth on, each with a space behind it, and a `0` behind each clause.
fn later_clauses(alloc: Global, f: &Formula) -> Result<String, AllocError> {
    let mut whole = String::new(alloc);
    let clauses = f.clauses();
    for place in 4..clauses.len() {
        for lit in clauses.clause(place) {
            push_literal(alloc, &mut whole, *lit)?;
        }
        whole.push('0')?;
    }
    Ok(whole)
}

/// Clauses that always hold are left out.
#[test]
fn atoms_become_literals(rt: HostRuntime) -> Result<(), Fail> {
    let alloc = rt.alloc();
    let runs = vec![in alloc;
        Run { lo: 1, hi: 1 },
        Run { lo: 3, hi: 3 },
        Run { lo: 5, hi: 5 },
    ]?;
    let domain = Runs::new(alloc, runs)?;
    let mut f = Formula::new(alloc);
    let mut layout = Layout::new(alloc);
    let x = layout.new_var(alloc, &mut f, &domain)?;
    assert_eq!(rt; (f.vars(), f.clauses().len()), (3, 4));
    add_clause(
        alloc,
        &layout,
        &mut f,
        &[Atom::at_most(x, 2), Atom::above(x, 1)],
    )?;
    add_clause(
        alloc,
        &layout,
        &mut f,
        &[Atom::is(x, 3), Atom::at_most(x, 6)],
    )?;
    add_clause(
        alloc,
        &layout,
        &mut f,
        &[Atom::is(x, 3), Atom::is_not(x, 3), Atom::is(x, 1)],
    )?;
    add_clause(
        alloc,
        &layout,
        &mut f,
        &[Atom::is(x, 5), Atom::at_most(x, 2)],
    )?;
    add_clause(
        alloc,
        &layout,
        &mut f,
        &[Atom::above(x, 1), Atom::is_not(x, 3)],
    )?;
    add_clause(
        alloc,
        &layout,
        &mut f,
        &[Atom::is(x, 3), Atom::is(x, 2), Atom::is(x, 3)],
    )?;
    add_clause(alloc, &layout, &mut f, &[Atom::above(x, 5)])?;
    let later = later_clauses(alloc, &f)?;
    assert_eq!(rt; later.as_str(), "-1 2 01 -3 03 00");
    Ok(())
}
