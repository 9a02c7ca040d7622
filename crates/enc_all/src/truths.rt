//! Constraints between truth values. A variable is true where it is 1, whatever else it may be.

ghost use Rattle.std.specs.Prelude.{◌≡◌, ◌<◌, ◌⊎◌, ◌++◌, ◌∷◌, [], length, map, true, false, IsTrue, OnOk, IfOk, option_to_list};
ghost use Rattle.std.specs.List.{All};
ghost use Rattle.enc_atoms.specs.Atoms.{Adds};
ghost use Rattle.enc_all.specs.Parts.{IsTruth, any_part, other_part, part_atom, part_holds};
ghost use Rattle.enc_var.specs.Layouts.{IsLayoutOf};
ghost use Rattle.ep_base.specs.Numbers.{is_one};
ghost use Rattle.ep_flat.specs.Cons.{all_of, clause, is_as_said, kind_holds, number_at, same_truth};

use cnf_core::Formula;
use enc_atoms::{Atom, add_clause};
use enc_var::Layout;
use ep_base::Memory;
use std::alloc::Global;

/// A variable that is true, or with `false` one that isn't.
type Part = (bool, u64);

/// Says that one of the parts is so, or ties it to the variable that tells whether it is.
pub(crate) fn encode_clause(
    alloc: Global,
    truth: Option<u64>,
    parts: &[Part],
    layout: &Layout,
    f: &mut Formula,
) -> Result<(), Memory>
    requires from_new { IsTrue f.old.from_new }
    requires is_layout { IsLayoutOf layout.now f.old }
    requires names { All (λ x. x < length layout.now) (option_to_list truth ++ map (λ p. p.1) parts.now) }
    ensures { OnOk result (Adds layout.now f.old layout.now f.new
        (λ values. IsTrue (is_as_said values truth (kind_holds values (clause parts.now))))) }
{
    match truth {
        None => add_parts(alloc, parts, layout, f),
        Some(t) => {
            add_truth(alloc, t, layout, f)?;
            add_equal(alloc, (true, t), parts, layout, f)
        }
    }
}

/// Says that each variable is true, or ties it to the variable that tells whether they are.
pub(crate) fn encode_all(
    alloc: Global,
    truth: Option<u64>,
    xs: &[u64],
    layout: &Layout,
    f: &mut Formula,
) -> Result<(), Memory>
    requires from_new { IsTrue f.old.from_new }
    requires is_layout { IsLayoutOf layout.now f.old }
    requires names { All (λ x. x < length layout.now) (option_to_list truth ++ xs.now) }
    ensures { OnOk result (Adds layout.now f.old layout.now f.new
        (λ values. IsTrue (is_as_said values truth (kind_holds values (all_of xs.now))))) }
{
    match truth {
        None => add_each(alloc, xs, layout, f),
        Some(t) => {
            add_truth(alloc, t, layout, f)?;
            let others = untrue(alloc, xs)?;
            add_equal(alloc, (false, t), others.as_slice(), layout, f)
        }
    }
}

/// Says that both variables are true or neither is, or ties it to the variable that tells whether it is so.
pub(crate) fn encode_same(
    alloc: Global,
    truth: Option<u64>,
    x: u64,
    y: u64,
    layout: &Layout,
    f: &mut Formula,
) -> Result<(), Memory>
    requires from_new { IsTrue f.old.from_new }
    requires is_layout { IsLayoutOf layout.now f.old }
    requires names { All (λ z. z < length layout.now) (option_to_list truth ++ x ∷ y ∷ []) }
    ensures { OnOk result (Adds layout.now f.old layout.now f.new
        (λ values. IsTrue (is_as_said values truth (kind_holds values (same_truth x y))))) }
{
    match truth {
        None => {
            add_pair(alloc, (false, x), (true, y), layout, f)?;
            add_pair(alloc, (true, x), (false, y), layout, f)
        }
        Some(t) => {
            add_truth(alloc, t, layout, f)?;
            add_same(alloc, t, x, y, layout, f)
        }
    }
}

/// Says that one variable is true exactly where the two others both are or neither is.
fn add_same(
    alloc: Global,
    t: u64,
    x: u64,
    y: u64,
    layout: &Layout,
    f: &mut Formula,
) -> Result<(), Memory>
    requires from_new { IsTrue f.old.from_new }
    requires is_layout { IsLayoutOf layout.now f.old }
    requires told { t < length layout.now }
    requires first { x < length layout.now }
    requires second { y < length layout.now }
    ensures { OnOk result (Adds layout.now f.old layout.now f.new
        (λ values. is_one (number_at values t) ≡ kind_holds values (same_truth x y))) }
{
    add_triple(alloc, (false, t), (false, x), (true, y), layout, f)?;
    add_triple(alloc, (false, t), (true, x), (false, y), layout, f)?;
    add_triple(alloc, (true, t), (true, x), (true, y), layout, f)?;
    add_triple(alloc, (true, t), (false, x), (false, y), layout, f)
}

/// Says that each variable is true.
fn add_each(alloc: Global, xs: &[u64], layout: &Layout, f: &mut Formula) -> Result<(), Memory>
    requires from_new { IsTrue f.old.from_new }
    requires is_layout { IsLayoutOf layout.now f.old }
    requires names { All (λ x. x < length layout.now) xs.now }
    ensures { OnOk result (Adds layout.now f.old layout.now f.new
        (λ values. All (λ x. IsTrue (part_holds values (true, x))) xs.now)) }
{
    for x in xs {
        add_one(alloc, (true, *x), layout, f)?;
    }
    Ok(())
}

/// Says that the first part is so exactly where one of the others is.
fn add_equal(
    alloc: Global,
    said: Part,
    parts: &[Part],
    layout: &Layout,
    f: &mut Formula,
) -> Result<(), Memory>
    requires from_new { IsTrue f.old.from_new }
    requires is_layout { IsLayoutOf layout.now f.old }
    requires said { said.1 < length layout.now }
    requires names { All (λ p. p.1 < length layout.now) parts.now }
    ensures { OnOk result (Adds layout.now f.old layout.now f.new
        (λ values. part_holds values said ≡ any_part values parts.now)) }
{
    add_needed(alloc, said, parts, layout, f)?;
    let mut one_is = Vec::from_slice(alloc, parts)?;
    one_is.push((!said.0, said.1))?;
    add_parts(alloc, one_is.as_slice(), layout, f)
}

/// Says that the first part is so where any of the others is.
fn add_needed(
    alloc: Global,
    said: Part,
    parts: &[Part],
    layout: &Layout,
    f: &mut Formula,
) -> Result<(), Memory>
    requires from_new { IsTrue f.old.from_new }
    requires is_layout { IsLayoutOf layout.now f.old }
    requires said { said.1 < length layout.now }
    requires names { All (λ p. p.1 < length layout.now) parts.now }
    ensures { OnOk result (Adds layout.now f.old layout.now f.new (λ values.
        All (λ p. IsTrue (part_holds values said) ⊎ IsTrue (part_holds values (other_part p))) parts.now)) }
{
    for part in parts {
        add_pair(alloc, said, (!part.0, part.1), layout, f)?;
    }
    Ok(())
}

/// Says that a variable is 0 or 1.
fn add_truth(alloc: Global, t: u64, layout: &Layout, f: &mut Formula) -> Result<(), Memory>
    requires from_new { IsTrue f.old.from_new }
    requires is_layout { IsLayoutOf layout.now f.old }
    requires names { t < length layout.now }
    ensures { OnOk result (Adds layout.now f.old layout.now f.new (λ values. IsTruth values t)) }
{
    let atoms = vec![in alloc; Atom::is(t, 0), Atom::is(t, 1)]?;
    add_clause(alloc, layout, f, atoms.as_slice())
}

/// Says that a part is so.
fn add_one(alloc: Global, a: Part, layout: &Layout, f: &mut Formula) -> Result<(), Memory>
    requires from_new { IsTrue f.old.from_new }
    requires is_layout { IsLayoutOf layout.now f.old }
    requires names { a.1 < length layout.now }
    ensures { OnOk result (Adds layout.now f.old layout.now f.new (λ values. IsTrue (part_holds values a))) }
{
    let parts = vec![in alloc; a]?;
    add_parts(alloc, parts.as_slice(), layout, f)
}

/// Says that one of two parts is so.
fn add_pair(alloc: Global, a: Part, b: Part, layout: &Layout, f: &mut Formula) -> Result<(), Memory>
    requires from_new { IsTrue f.old.from_new }
    requires is_layout { IsLayoutOf layout.now f.old }
    requires first { a.1 < length layout.now }
    requires second { b.1 < length layout.now }
    ensures { OnOk result (Adds layout.now f.old layout.now f.new
        (λ values. IsTrue (part_holds values a) ⊎ IsTrue (part_holds values b))) }
{
    let parts = vec![in alloc; a, b]?;
    add_parts(alloc, parts.as_slice(), layout, f)
}

/// Says that one of three parts is so.
fn add_triple(
    alloc: Global,
    a: Part,
    b: Part,
    c: Part,
    layout: &Layout,
    f: &mut Formula,
) -> Result<(), Memory>
    requires from_new { IsTrue f.old.from_new }
    requires is_layout { IsLayoutOf layout.now f.old }
    requires first { a.1 < length layout.now }
    requires second { b.1 < length layout.now }
    requires third { c.1 < length layout.now }
    ensures { OnOk result (Adds layout.now f.old layout.now f.new (λ values.
        IsTrue (part_holds values a) ⊎ (IsTrue (part_holds values b) ⊎ IsTrue (part_holds values c)))) }
{
    let parts = vec![in alloc; a, b, c]?;
    add_parts(alloc, parts.as_slice(), layout, f)
}

/// Says that one of the parts is so.
fn add_parts(alloc: Global, parts: &[Part], layout: &Layout, f: &mut Formula) -> Result<(), Memory>
    requires from_new { IsTrue f.old.from_new }
    requires is_layout { IsLayoutOf layout.now f.old }
    requires names { All (λ p. p.1 < length layout.now) parts.now }
    ensures { OnOk result (Adds layout.now f.old layout.now f.new (λ values. IsTrue (any_part values parts.now))) }
{
    let mut atoms = Vec::new(alloc);
    for part in parts {
        atoms.push(atom_of(*part))?;
    }
    add_clause(alloc, layout, f, atoms.as_slice())
}

/// The atom that says that a part is so.
fn atom_of(part: Part) -> Atom
    ensures { result ≡ part_atom part }
{
    if part.0 {
        Atom::is(part.1, 1)
    } else {
        Atom::is_not(part.1, 1)
    }
}

/// "It isn't true" of each variable.
fn untrue(alloc: Global, xs: &[u64]) -> Result<Vec<Part>, Memory>
    ensures { IfOk result (λ parts. parts.items ≡ map (λ x. (false, x)) xs.now) }
{
    let mut parts = Vec::new(alloc);
    for x in xs {
        parts.push((false, *x))?;
    }
    Ok(parts)
}
