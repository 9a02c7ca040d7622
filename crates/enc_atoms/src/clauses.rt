//! Clauses of atoms.

ghost use Rattle.std.specs.Prelude.{◌≡◌, ◌<◌, length, IsTrue, OnOk, true, false};
ghost use Rattle.std.specs.List.{All};
ghost use Rattle.cnf_core.specs.Clauses.{SatisfiesClause};
ghost use Rattle.cnf_core.specs.Literal.{HaveSameLiterals, IsOrdered, VariablesUpTo};
ghost use Rattle.cnf_core.specs.Steps.{IsConsistent};
ghost use Rattle.enc_atoms.specs.Atoms.{Adds, clause_holds};
ghost use Rattle.enc_atoms.specs.Literals.{HasContraries, contrary_of, known_of};
ghost use Rattle.enc_var.specs.Layouts.{IsLayoutOf};
ghost use Rattle.enc_var.specs.Ties.{SaysMore};

use crate::atoms::{Atom, Test};
use cnf_core::{Formula, Lit};
use enc_var::{Known, Layout};
use ep_base::Memory;
use std::alloc::Global;

/// Adds a clause which says that one of the atoms holds. Where one always holds, or one is the contrary of another,
/// nothing is added. After want of memory nothing is promised of the formula.
///
/// Costs a binary search for each atom, a sort of the literals and an allocation.
pub fn add_clause(
    alloc: Global,
    layout: &Layout,
    f: &mut Formula,
    atoms: &[Atom],
) -> Result<(), Memory>
    requires from_new { IsTrue f.old.from_new }
    requires is_layout { IsLayoutOf layout.now f.old }
    requires names { All (λ atom. atom.var < length layout.now) atoms.now }
    ensures { OnOk result (Adds layout.now f.old layout.now f.new (λ values. IsTrue (clause_holds values atoms.now))) }
{
    let mut literals = Vec::new(alloc);
    for atom in atoms {
        match known(layout, *atom) {
            Known::True => return Ok(()),
            Known::False => {}
            Known::Is(literal) => literals.push(literal)?,
        }
    }
    add_literals(f, literals)
}

/// What is known of an atom.
#[tactic(auto, unfolding(crate::specs::Literals::known_of, crate::specs::Literals::known_of_test))]
fn known(layout: &Layout, atom: Atom) -> Known
    requires { atom.var < length layout.now }
    ensures { result ≡ known_of layout.now atom }
{
    match atom.test {
        Test::AtMost => layout.le(atom.var, atom.value),
        Test::Above => contrary(layout.le(atom.var, atom.value)),
        Test::Is => layout.eq(atom.var, atom.value),
        Test::IsNot => contrary(layout.eq(atom.var, atom.value)),
    }
}

/// What is known of the contrary.
#[tactic(auto, unfolding(crate::specs::Literals::contrary_of))]
fn contrary(known: Known) -> Known
    ensures { result ≡ contrary_of known }
{
    match known {
        Known::True => Known::False,
        Known::False => Known::True,
        Known::Is(literal) => Known::Is(literal.negated()),
    }
}

/// The literals in order, each once.
fn in_order(literals: Vec<Lit>) -> Vec<Lit>
    ensures ordered { IsOrdered result.items }
    ensures same { HaveSameLiterals result.items literals.items }
{
    let mut ordered = literals;
    ordered.sort_unstable();
    ordered.dedup();
    ordered
}

/// Adds a clause of these literals, unless it always holds.
fn add_literals(f: &mut Formula, literals: Vec<Lit>) -> Result<(), Memory>
    requires { VariablesUpTo f.old.vars literals.items }
    ensures { OnOk result (SaysMore f.old f.new (λ s. SatisfiesClause s literals.items)) }
{
    let ordered = in_order(literals);
    if has_contraries(&ordered) {
        return Ok(());
    }
    f.add_ordered(&ordered)
}

/// Whether ordered literals hold one together with its negation, which then stand side by side.
fn has_contraries(literals: &[Lit]) -> bool
    requires { IsOrdered literals.now }
    ensures found { result ≡ true → HasContraries literals.now }
    ensures none { result ≡ false → IsConsistent literals.now }
{
    for k in 1..literals.len() {
        if literals[k - 1].var() == literals[k].var() {
            return true;
        }
    }
    false
}
