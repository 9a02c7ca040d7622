//! Linear constraints.

ghost use Rattle.std.specs.Prelude.{◌≡◌, ◌≢◌, ◌<◌, ◌+ℤ◌, ◌*ℤ◌, pos, ℤ, List, length, map, IfOk, IsTrue, MatchOption, OnOk};
ghost use Rattle.std.specs.List.{All, AllZip};
ghost use Rattle.cnf_core.specs.Formula.{Cnf};
ghost use Rattle.enc_atoms.specs.Atoms.{Adds, AreOfDomains};
ghost use Rattle.enc_linear.specs.Terms.{IsMirror, IsTermOf, total};
ghost use Rattle.enc_var.specs.Layouts.{IsLayoutOf};
ghost use Rattle.ep_base.specs.Numbers.{compare_holds};
ghost use Rattle.ep_base.specs.Reads.{weighted_sum};
ghost use Rattle.ep_flat.specs.Cons.{is_as_said, number_at};

use crate::comparing::add_compared;
use crate::guards::add_truth;
use crate::making::{mirrored, multiple};
use crate::terms::Term;
use cnf_core::Formula;
use enc_atoms::Atom;
use enc_var::Layout;
use ep_base::{CompareOp, Memory};
use std::alloc::Global;

/// Adds the term of a variable with a coefficient to others.
fn push_multiple(
    alloc: Global,
    layout: &Layout,
    terms: &mut Vec<Term>,
    coefficient: i64,
    var: u64,
) -> Result<(), Memory>
    requires var { var < length layout.now }
    requires coefficient { coefficient ≢ pos 0 }
    requires terms { (f : Cnf) → All (IsTermOf layout.now f) terms.old.items }
    ensures of_layout { OnOk result ((f : Cnf) → All (IsTermOf layout.now f) terms.new.items) }
    ensures sum { OnOk result ((values : List ℤ) → AreOfDomains layout.now values
        → total values terms.new.items ≡ total values terms.old.items +ℤ (coefficient *ℤ number_at values var)) }
{
    let term = multiple(alloc, layout, var, coefficient)?;
    terms.push(term)?;
    Ok(())
}

/// Adds a part of a sum to terms; one with the coefficient 0 makes none.
fn add_part(
    alloc: Global,
    layout: &Layout,
    terms: &mut Vec<Term>,
    coefficient: i64,
    var: u64,
) -> Result<(), Memory>
    requires var { var < length layout.now }
    requires terms { (f : Cnf) → All (IsTermOf layout.now f) terms.old.items }
    ensures of_layout { OnOk result ((f : Cnf) → All (IsTermOf layout.now f) terms.new.items) }
    ensures sum { OnOk result ((values : List ℤ) → AreOfDomains layout.now values
        → total values terms.new.items ≡ total values terms.old.items +ℤ (coefficient *ℤ number_at values var)) }
{
    if coefficient < 0 {
        return push_multiple(alloc, layout, terms, coefficient, var);
    }
    if 0 < coefficient {
        return push_multiple(alloc, layout, terms, coefficient, var);
    }
    Ok(())
}

/// The terms of a sum.
pub(crate) fn terms_of(
    alloc: Global,
    layout: &Layout,
    parts: &[(i64, u64)],
) -> Result<Vec<Term>, Memory>
    requires { All (λ part. part.1 < length layout.now) parts.now }
    ensures of_layout { IfOk result (λ terms. (f : Cnf) → All (IsTermOf layout.now f) terms.items) }
    ensures sum { IfOk result (λ terms. (values : List ℤ) → AreOfDomains layout.now values
        → total values terms.items ≡ weighted_sum (map (λ part. (part.0, number_at values part.1)) parts.now)) }
{
    let mut terms = Vec::new(alloc);
    for part in parts {
        add_part(alloc, layout, &mut terms, part.0, part.1)?;
    }
    Ok(terms)
}

/// The mirrors of terms.
fn mirrors_of(alloc: Global, terms: &[Term]) -> Result<Vec<Term>, Memory>
    ensures { IfOk result (λ mirrors. AllZip IsMirror terms.now mirrors.items) }
{
    let mut mirrors = Vec::new(alloc);
    for term in terms {
        let twin = mirrored(alloc, term)?;
        mirrors.push(twin)?;
    }
    Ok(mirrors)
}

/// Adds that a sum of at most three terms compares so with a number, or that the variable of its truth says whether it
/// does.
pub(crate) fn add_said(
    alloc: Global,
    layout: &Layout,
    f: &mut Formula,
    truth: Option<u64>,
    terms: &[Term],
    op: CompareOp,
    number: i64,
) -> Result<(), Memory>
    requires from_new { IsTrue f.old.from_new }
    requires is_layout { IsLayoutOf layout.now f.old }
    requires truth { MatchOption truth (length layout.now ≡ length layout.now) (λ t. t < length layout.now) }
    requires terms { All (IsTermOf layout.now f.old) terms.now }
    ensures { OnOk result (Adds layout.now f.old layout.now f.new
        (λ values. IsTrue (is_as_said values truth (compare_holds op (total values terms.now) number)))) }
{
    let mirrors = mirrors_of(alloc, terms)?;
    let Some(t) = truth else {
        return add_compared(alloc, layout, f, &[], terms, &mirrors, op, number);
    };
    add_truth(alloc, layout, f, t)?;
    let unless_false = [Atom::is_not(t, 1)];
    add_compared(alloc, layout, f, &unless_false, terms, &mirrors, op, number)?;
    let unless_true = [Atom::is(t, 1)];
    let against = op.contrary();
    add_compared(
        alloc,
        layout,
        f,
        &unless_true,
        terms,
        &mirrors,
        against,
        number,
    )
}
