//! Least and greatest parts.

ghost use Rattle.std.specs.Prelude.{◌≡◌, ◌<◌, ◌||◌, ℕ, ℤ, List, [], Some, length, IsTrue, IfOk, OnOk};
ghost use Rattle.std.specs.List.{All};
ghost use Rattle.ep_base.specs.Numbers.{compare_holds};
ghost use Rattle.ep_base.specs.Reads.{IsWithinNumbers};
ghost use Rattle.ep_flat.specs.Cons.{is_value, number_at, numbers_of_vars};
ghost use Rattle.enc_atoms.specs.Atoms.{Adds, atom_holds, clause_holds};
ghost use Rattle.enc_arith.specs.Extremes.{all_compare, any_compares, extreme_of, is_extreme, level_holds};
ghost use Rattle.enc_arith.specs.Saying.{IsReady, NamesIn, or_is_not, says};
ghost use Rattle.enc_var.specs.Layouts.{literals_at};

use crate::sides::Side;
use crate::telling::add_more;
use cnf_core::Formula;
use enc_atoms::{Atom, add_clause};
use enc_var::Layout;
use ep_base::{CompareOp, Memory};
use ep_numbers::listed;
use std::alloc::{AllocError, Global};

/// The statement that a variable compares so with a number.
#[tactic(auto, unfolding(enc_atoms::specs::Atoms::atom_holds, enc_atoms::specs::Atoms::test_holds, ep_base::specs::Numbers::compare_holds))]
fn compared(x: u64, op: CompareOp, number: i64) -> Atom
    requires { IsWithinNumbers number }
    ensures var { result.var ≡ x }
    ensures means { (values : List ℤ) → atom_holds values result ≡ compare_holds op (number_at values x) number }
{
    match op {
        CompareOp::Equal => Atom::is(x, number),
        CompareOp::NotEqual => Atom::is_not(x, number),
        CompareOp::Less => Atom::at_most(x, number - 1),
        CompareOp::AtMost => Atom::at_most(x, number),
        CompareOp::Greater => Atom::above(x, number),
        CompareOp::AtLeast => Atom::above(x, number - 1),
    }
}

/// Some atoms, and that variables compare so with a number.
fn gathered(
    alloc: Global,
    when: &[Atom],
    op: CompareOp,
    number: i64,
    xs: &[u64],
) -> Result<Vec<Atom>, AllocError>
    requires { IsWithinNumbers number }
    ensures means { IfOk result (λ atoms. (values : List ℤ)
        → clause_holds values atoms.items ≡ (clause_holds values when.now || any_compares op (numbers_of_vars values xs.now) number)) }
    ensures names { IfOk result (λ atoms. (count : ℕ) → All (λ atom. atom.var < count) when.now
        → All (λ x. x < count) xs.now → All (λ atom. atom.var < count) atoms.items) }
{
    let mut atoms = Vec::from_slice(alloc, when)?;
    for x in xs {
        atoms.push(compared(*x, op, number))?;
    }
    Ok(atoms)
}

/// Adds the clause of some atoms, and that a variable compares so with a number.
fn add_compared(
    alloc: Global,
    layout: &Layout,
    f: &mut Formula,
    when: &[Atom],
    op: CompareOp,
    number: i64,
    x: u64,
) -> Result<(), Memory>
    requires ready { IsReady layout.now f.old }
    requires names { NamesIn layout.now when.now }
    requires near { IsWithinNumbers number }
    requires there { x < length layout.now }
    ensures { OnOk result (Adds layout.now f.old layout.now f.new
        (λ values. IsTrue (clause_holds values when.now || compare_holds op (number_at values x) number))) }
{
    let more = [compared(x, op, number)];
    add_more(alloc, layout, f, when, &more)?;
    Ok(())
}

/// Adds clauses which say that one of some atoms holds, or all of some variables compare so with a number.
fn add_each(
    alloc: Global,
    layout: &Layout,
    f: &mut Formula,
    when: &[Atom],
    op: CompareOp,
    number: i64,
    xs: &[u64],
) -> Result<(), Memory>
    requires ready { IsReady layout.now f.old }
    requires names { NamesIn layout.now when.now }
    requires near { IsWithinNumbers number }
    requires there { All (λ x. x < length layout.now) xs.now }
    ensures { OnOk result (Adds layout.now f.old layout.now f.new
        (λ values. IsTrue (clause_holds values when.now || all_compare op (numbers_of_vars values xs.now) number))) }
{
    for x in xs {
        add_compared(alloc, layout, f, when, op, number, *x)?;
    }
    Ok(())
}

/// Adds a clause which says that one of some atoms holds, or one of some variables compares so with a number.
fn add_some(
    alloc: Global,
    layout: &Layout,
    f: &mut Formula,
    when: &[Atom],
    op: CompareOp,
    number: i64,
    xs: &[u64],
) -> Result<(), Memory>
    requires ready { IsReady layout.now f.old }
    requires names { NamesIn layout.now when.now }
    requires near { IsWithinNumbers number }
    requires there { All (λ x. x < length layout.now) xs.now }
    ensures { OnOk result (Adds layout.now f.old layout.now f.new
        (λ values. IsTrue (clause_holds values when.now || any_compares op (numbers_of_vars values xs.now) number))) }
{
    let atoms = gathered(alloc, when, op, number, xs)?;
    add_clause(alloc, layout, f, atoms.as_slice())?;
    Ok(())
}

/// Adds clauses which say of a number whether the result and the parts are on this side of it.
fn add_level(
    alloc: Global,
    layout: &Layout,
    f: &mut Formula,
    side: Side,
    xs: &[u64],
    r: u64,
    number: i64,
) -> Result<(), Memory>
    requires ready { IsReady layout.now f.old }
    requires near { IsWithinNumbers number }
    requires there { All (λ x. x < length layout.now) xs.now }
    requires result { r < length layout.now }
    ensures { OnOk result (Adds layout.now f.old layout.now f.new
        (λ values. IsTrue (level_holds side (numbers_of_vars values xs.now) (number_at values r) number))) }
{
    let within = side.within();
    let past = within.contrary();
    let beyond = compared(r, past, number);
    add_each(alloc, layout, f, &[beyond], within, number, xs)?;
    let reached = side.reached();
    let before = reached.contrary();
    let short = compared(r, before, number);
    add_some(alloc, layout, f, &[short], reached, number, xs)?;
    Ok(())
}

/// Adds clauses which say that the result is the least or greatest part.
pub(crate) fn add_extreme(
    alloc: Global,
    layout: &Layout,
    f: &mut Formula,
    side: Side,
    xs: &[u64],
    r: u64,
) -> Result<(), Memory>
    requires ready { IsReady layout.now f.old }
    requires there { All (λ x. x < length layout.now) xs.now }
    requires target { r < length layout.now }
    requires numbers { All IsWithinNumbers (literals_at layout.now r).domain }
    ensures { OnOk result (Adds layout.now f.old layout.now f.new
        (λ values. IsTrue (is_value (extreme_of side (numbers_of_vars values xs.now)) (number_at values r)))) }
{
    let numbers = listed(alloc, layout.domain(r))?;
    for number in numbers.as_slice() {
        add_level(alloc, layout, f, side, xs, r, *number)?;
    }
    Ok(())
}

/// Adds clauses which say that where the result is the number, the variable says whether it is the extreme part.
fn add_whether(
    alloc: Global,
    layout: &Layout,
    f: &mut Formula,
    side: Side,
    truth: u64,
    xs: &[u64],
    r: u64,
    number: i64,
) -> Result<(), Memory>
    requires ready { IsReady layout.now f.old }
    requires near { IsWithinNumbers number }
    requires there { All (λ x. x < length layout.now) xs.now }
    requires result { r < length layout.now }
    requires truth { truth < length layout.now }
    ensures { OnOk result (Adds layout.now f.old layout.now f.new
        (λ values. IsTrue (says values (or_is_not [] r number) (Some truth) (is_extreme side (numbers_of_vars values xs.now) number)))) }
{
    let within = side.within();
    let reached = side.reached();
    let fails = [Atom::is_not(r, number), Atom::is(truth, 0)];
    add_each(alloc, layout, f, &fails, within, number, xs)?;
    add_some(alloc, layout, f, &fails, reached, number, xs)?;
    let holds = [Atom::is_not(r, number), Atom::is(truth, 1)];
    let past = within.contrary();
    let before = reached.contrary();
    let beyond = gathered(alloc, &holds, past, number, xs)?;
    add_each(alloc, layout, f, beyond.as_slice(), before, number, xs)?;
    Ok(())
}

/// Adds clauses which say that the variable says whether the result is the least or greatest part.
pub(crate) fn add_whether_extreme(
    alloc: Global,
    layout: &Layout,
    f: &mut Formula,
    side: Side,
    truth: u64,
    xs: &[u64],
    r: u64,
) -> Result<(), Memory>
    requires ready { IsReady layout.now f.old }
    requires there { All (λ x. x < length layout.now) xs.now }
    requires target { r < length layout.now }
    requires truth { truth < length layout.now }
    requires numbers { All IsWithinNumbers (literals_at layout.now r).domain }
    ensures { OnOk result (Adds layout.now f.old layout.now f.new
        (λ values. IsTrue (says values [] (Some truth)
        (is_value (extreme_of side (numbers_of_vars values xs.now)) (number_at values r))))) }
{
    let numbers = listed(alloc, layout.domain(r))?;
    for number in numbers.as_slice() {
        add_whether(alloc, layout, f, side, truth, xs, r, *number)?;
    }
    Ok(())
}
