//! The clauses of a variable's literals.

ghost use Rattle.std.specs.Prelude.{◌≡◌, ◌≢◌, ◌⊎◌, ◌≤◌, ◌+◌, ◌-◌, ◌*◌, ◌<◌, [], ◌∷◌, IsTrue, OnOk};
ghost use Rattle.cnf_core.specs.Clauses.{IsTrueUnder, SatisfiesClause};
ghost use Rattle.cnf_core.specs.Literal.{IsVariable, VariablesUpTo};
ghost use Rattle.cnf_core.specs.Steps.{IsConsistent};
ghost use Rattle.cnf_core.specs.declared.lit.TheConstants.{MOST_VARIABLE};
ghost use Rattle.enc_var.specs.Ties.{AreMet, AreTied, Grows, IsTied, SaysMore};
ghost use Rattle.enc_var.specs.Decoding.{yes};
ghost use Rattle.std.specs.List.{Contains};

use cnf_core::{Clause, Formula, Lit};
use ep_base::Memory;
use std::alloc::Global;

/// Adds so many variables.
pub(crate) fn add_variables(f: &mut Formula, count: u64) -> Result<(), Memory>
    requires { IsTrue f.old.from_new }
    ensures { OnOk result (f.new ≡ record f.old { vars = f.old.vars + count }) }
{
    for _ in 0..count {
        f.fresh()?;
    }
    Ok(())
}

/// Adds a clause of these literals.
#[tactic(auto, using(cnf_core::proofs::Keeping::same_variables, crate::proofs::Saying::says_clause))]
pub(crate) fn add_clause(alloc: Global, f: &mut Formula, literals: Vec<Lit>) -> Result<(), Memory>
    requires names { VariablesUpTo f.old.vars literals.items }
    requires consistent { IsConsistent literals.items }
    ensures { OnOk result (SaysMore f.old f.new (λ s. SatisfiesClause s literals.items)) }
{
    let clause = Clause::new(alloc, literals)?;
    f.add(clause)
}

/// Adds a clause of two literals.
#[tactic(auto, using(crate::proofs::Saying::two_consistent, crate::proofs::Saying::two_says, crate::proofs::Saying::says_like))]
fn add_two(alloc: Global, f: &mut Formula, a: Lit, b: Lit) -> Result<(), Memory>
    requires first { a.var ≤ f.old.vars }
    requires second { b.var ≤ f.old.vars }
    requires apart { a.var ≢ b.var }
    ensures { OnOk result (SaysMore f.old f.new (λ s. IsTrueUnder s a ⊎ IsTrueUnder s b)) }
{
    let literals = vec![in alloc; a, b]?;
    add_clause(alloc, f, literals)
}

/// Adds a clause of three literals.
#[tactic(auto, using(crate::proofs::Saying::three_consistent, crate::proofs::Saying::three_says, crate::proofs::Saying::says_like))]
fn add_three(alloc: Global, f: &mut Formula, a: Lit, b: Lit, c: Lit) -> Result<(), Memory>
    requires first { a.var ≤ f.old.vars }
    requires second { b.var ≤ f.old.vars }
    requires third { c.var ≤ f.old.vars }
    requires one { a.var ≢ b.var }
    requires two { a.var ≢ c.var }
    requires three { b.var ≢ c.var }
    ensures { OnOk result (SaysMore f.old f.new
        (λ s. IsTrueUnder s a ⊎ (IsTrueUnder s b ⊎ IsTrueUnder s c))) }
{
    let literals = vec![in alloc; a, b, c]?;
    add_clause(alloc, f, literals)
}

/// Adds the clauses that tie "it is" to two neighbouring "at least".
fn add_tie(alloc: Global, f: &mut Formula, low: u64, high: u64, is: u64) -> Result<(), Memory>
    requires low { (1 ≤ low) × (low < high) }
    requires high { high < is }
    requires is { is ≤ f.old.vars }
    requires most { f.old.vars ≤ MOST_VARIABLE }
    ensures { OnOk result (SaysMore f.old f.new (IsTied low high is)) }
{
    add_two(alloc, f, Lit::new(high, false), Lit::new(low, true))?;
    add_two(alloc, f, Lit::new(is, false), Lit::new(low, true))?;
    add_two(alloc, f, Lit::new(is, false), Lit::new(high, false))?;
    add_three(
        alloc,
        f,
        Lit::new(is, true),
        Lit::new(low, false),
        Lit::new(high, true),
    )?;
    Ok(())
}

/// Adds the clauses of a variable with so many values, whose literals begin at this variable.
pub(crate) fn add_ties(alloc: Global, f: &mut Formula, first: u64, count: u64) -> Result<(), Memory>
    requires first { 1 ≤ first }
    requires count { 2 < count }
    requires there { first + (count - 1) + (count - 2) ≤ f.old.vars + 1 }
    requires most { f.old.vars ≤ MOST_VARIABLE }
    ensures { OnOk result (SaysMore f.old f.new (AreTied first count)) }
{
    for k in 0..count - 2 {
        add_tie(
            alloc,
            f,
            first + k,
            first + (k + 1),
            first + (count - 1) + k,
        )?;
    }
    Ok(())
}

/// Adds a clause of one literal.
fn add_unit(alloc: Global, f: &mut Formula, literal: Lit) -> Result<(), Memory>
    requires { literal.var ≤ f.old.vars }
    ensures says { OnOk result (SaysMore f.old f.new (λ s. IsTrueUnder s literal)) }
    ensures stands { OnOk result (Contains f.new.clauses (literal ∷ [])) }
{
    let literals = vec![in alloc; literal]?;
    let clause = Clause::new(alloc, literals)?;
    f.add(clause)
}

/// Adds the other literals of a variable with so many values, whose first one is the formula's last
/// variable, and their clauses.
#[tactic(auto, using(crate::proofs::Growing::grows_two))]
pub(crate) fn add_literals(
    alloc: Global,
    f: &mut Formula,
    first: u64,
    count: u64,
) -> Result<(), Memory>
    requires from_new { IsTrue f.old.from_new }
    requires first { first ≡ f.old.vars }
    requires variable { IsVariable first }
    requires count { count ≤ 1152921504606846976 }
    ensures grows { OnOk result (Grows f.old f.new (2 * count - 4) (AreMet first count)) }
    ensures fixed { OnOk result (count ≡ 1 → Contains f.new.clauses (yes first ∷ [])) }
{
    if count == 0 {
        let none = Vec::new(alloc);
        return add_clause(alloc, f, none);
    }
    if count == 1 {
        return add_unit(alloc, f, Lit::new(first, true));
    }
    if count == 2 {
        return Ok(());
    }
    add_variables(f, 2 * count - 4)?;
    let _most = f.vars();
    add_ties(alloc, f, first, count)
}
