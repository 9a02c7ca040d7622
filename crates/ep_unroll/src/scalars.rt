//! The scalars of what was unrolled as terms, row by row.

ghost use Rattle.std.specs.Prelude.{IfOk, List, length, map};
ghost use Rattle.ep_base.specs.Reads.{all_there};
ghost use Rattle.ep_ground.specs.Nodes.{GroundNode};
ghost use Rattle.ep_tree.specs.Environments as names;
ghost use Rattle.ep_tree.specs.Evaluation.{number_in, scalars_in};
ghost use Rattle.ep_tree.specs.Trees.{ExprTree};
ghost use Rattle.ep_unroll.specs.Meanings.{AreTerms, Means, worth};
ghost use Rattle.ep_unroll.specs.PartLists.{HaveScalars, HaveTerms};
ghost use Rattle.ep_unroll.specs.Readings.{Numbering};
ghost use Rattle.ep_unroll.specs.Scalars.{AreScalarsOf};

use super::flattening::flat_scalars;
use super::numbers::scalar_term;
use super::unrolled::Unrolled;
use ep_base::Memory;
use ep_ground::{Arena, Term};
use std::alloc::Global;

/// The terms of some scalars, one for each.
fn each_term(
    alloc: Global,
    arena: &mut Arena,
    scalars: &[Unrolled<'_>],
) -> Result<Vec<Term>, Memory>
    requires { HaveTerms (length arena.old) scalars.now }
    ensures { IfOk result (λ ts. HaveScalars arena.old arena.new (λ numbers. all_there (map (λ x. number_in (worth arena.old numbers x)) scalars.now)) ts.items) }
{
    let mut terms = Vec::new(alloc);
    for scalar in scalars {
        let term = scalar_term(arena, scalar)?;
        terms.push(term)?;
    }
    Ok(terms)
}

/// The terms of the scalars of what was unrolled.
pub fn scalar_terms(
    alloc: Global,
    arena: &mut Arena,
    known: &Unrolled<'_>,
) -> Result<Vec<Term>, Memory>
    requires { AreTerms (length arena.old) known.now }
    ensures { IfOk result (λ ts. HaveScalars arena.old arena.new (λ numbers. scalars_in (worth arena.old numbers known.now)) ts.items) }
{
    let scalars = flat_scalars(alloc, known)?;
    each_term(alloc, arena, &scalars)
}

/// The terms of the scalars of what isn't used any more.
pub fn taken_scalars(
    alloc: Global,
    arena: &mut Arena,
    known: Unrolled<'_>,
) -> Result<Vec<Term>, Memory>
    requires { AreTerms (length arena.old) known }
    ensures { (n : Numbering) → (cells : names.Env) → (nodes : List GroundNode) → (e : ExprTree)
        → Means n cells nodes arena.old e known.entry → IfOk result (λ ts. AreScalarsOf n cells nodes arena.new e ts.items) }
{
    let terms = scalar_terms(alloc, arena, &known)?;
    Ok(terms)
}
