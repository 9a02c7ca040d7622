//! Indices of reads in which decision variables may stand.

ghost use Rattle.std.specs.Prelude.{◌≡◌, true, List, Some, IfOk};
ghost use Rattle.std.specs.List.{All};
ghost use Rattle.ep_ground.specs.Nodes.{GroundNode};
ghost use Rattle.ep_tree.specs.Reach.{decisions_in};
ghost use Rattle.ep_tree.specs.Views.{expr_tree};
ghost use Rattle.ep_eval.specs.Scopes.{env_in, mode_in};
ghost use Rattle.ep_size.specs.Free as free;
ghost use Rattle.ep_unroll.specs.Picks as defined;
ghost use Rattle.ep_unroll.specs.Picks.{IsFreeIndex, SlotMeans};
ghost use Rattle.ep_unroll.specs.Readings.{Numbering};

use super::fixed::{fixed_value, is_fixed};
use ep_base::Memory;
use ep_eval::{Scope, number_of};
use ep_ground::Term;
use ep_tree::Expr;
use std::alloc::Global;

/// An index of a read.
#[derive(Clone, Copy)]
pub enum Slot {
    /// `..`
    Every,
    /// A number.
    At(i64),
    /// The number of a term.
    Open(Term),
}

/// The terms that stand in indices.
pub fn open_terms(alloc: Global, slots: &[Slot]) -> Result<Vec<Term>, Memory>
    ensures { IfOk result (λ ts. ts.items ≡ defined.open_terms slots.now) }
{
    let mut terms = Vec::new(alloc);
    for slot in slots {
        match slot {
            Slot::Open(term) => terms.push(*term)?,
            Slot::At(_) => {}
            Slot::Every => {}
        }
    }
    Ok(terms)
}

/// Whether no decision variable stands in an index. Linear in its text.
fn is_decided(scope: Scope<'_, '_>, index: &Option<Expr>) -> bool
    ensures { result ≡ true → IsFreeIndex (decisions_in (env_in scope.entry)) index.now }
{
    match index {
        Some(stated) => is_fixed(scope, stated),
        None => true,
    }
}

/// Whether no decision variable stands in indices. Linear in their text.
pub fn are_decided(scope: Scope<'_, '_>, indices: &[Option<Expr>]) -> bool
    ensures { result ≡ true → All (IsFreeIndex (decisions_in (env_in scope.entry))) indices.now }
{
    for index in indices {
        if !is_decided(scope, index) {
            return false;
        }
    }
    true
}

/// What an index without decision variables is; nothing where it has no number.
pub fn fixed_slot(scope: Scope<'_, '_>, stated: &Expr) -> Result<Option<Slot>, Memory>
    requires { free.is_free (decisions_in (env_in scope)) (expr_tree stated.now) ≡ true }
    ensures { (n : Numbering) → (nodes : List GroundNode) → n.mode ≡ mode_in scope.entry → IfOk result (SlotMeans n (env_in scope.entry) nodes nodes (Some stated.now)) }
{
    let seen = fixed_value(scope, stated)?;
    match number_of(&seen) {
        Some(number) => Ok(Some(Slot::At(number))),
        None => Ok(None),
    }
}
