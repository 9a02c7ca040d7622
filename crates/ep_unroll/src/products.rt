//! Products of terms.

ghost use Rattle.std.specs.Prelude.{◌<◌, ◌∷◌, IfOk, length, map, option_map};
ghost use Rattle.std.specs.List.{All};
ghost use Rattle.ep_base.specs.Numbers.{product_of};
ghost use Rattle.ep_base.specs.Reads.{all_there};
ghost use Rattle.ep_ground.specs.Terms.{term_value};
ghost use Rattle.ep_unroll.specs.Numbers.{HasNumber};

use super::growing::put;
use ep_base::Memory;
use ep_ground::{Arena, Node, Term};

/// A term multiplied by others, one after another: so each product is one that the measure of the instance knows.
fn multiplied(arena: &mut Arena, first: Term, others: &[Term]) -> Result<Term, Memory>
    requires first { first < length arena.old }
    requires others { All (λ t. t < length arena.old) others.now }
    ensures { IfOk result (HasNumber arena.old arena.new (λ numbers. option_map product_of (all_there (map (term_value arena.old numbers) (first ∷ others.now))))) }
{
    let mut product = first;
    for other in others {
        product = put(arena, Node::Mul(product, *other))?;
    }
    Ok(product)
}

/// The product of terms, multiplied from the first to the last.
fn product_term(arena: &mut Arena, terms: &[Term]) -> Result<Term, Memory>
    requires { All (λ t. t < length arena.old) terms.now }
    ensures { IfOk result (HasNumber arena.old arena.new (λ numbers. option_map product_of (all_there (map (term_value arena.old numbers) terms.now)))) }
{
    match terms.split_first() {
        Some((first, others)) => multiplied(arena, *first, others),
        None => put(arena, Node::Const(1)),
    }
}

/// The same of terms that aren't used any more.
pub fn product_of_all(arena: &mut Arena, terms: Vec<Term>) -> Result<Term, Memory>
    requires { All (λ t. t < length arena.old) terms.items }
    ensures { IfOk result (HasNumber arena.old arena.new (λ numbers. option_map product_of (all_there (map (term_value arena.old numbers) terms.items)))) }
{
    product_term(arena, &terms)
}
