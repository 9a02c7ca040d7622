//! What stands for the terms of the old ground.

ghost use Rattle.std.specs.Prelude.{◌≡◌, ◌<◌, ◌++◌, ◌∷◌, [], length, map, IfOk, OnOk, option_to_list};
ghost use Rattle.std.specs.List.{All};
ghost use Rattle.ep_defined.specs.Images.{guards_in, image_at, total_at};

use ep_base::Memory;
use ep_ground::Term;
use std::alloc::Global;

/// What stands for a term: one that always has a value, and where the term may lack one, a guard,
/// which is 1 exactly where the term has a value.
#[derive(Clone, Copy, Debug)]
pub struct Image {
    /// Has a value, and where the old term has one, the same.
    pub total: Term,
    /// Whether the old term has a value; always, where there is no guard.
    pub guard: Option<Term>,
}

/// What stands for a term.
pub fn image_of(images: &[Image], term: Term) -> Image
    requires { term < length images.now }
    ensures { result ≡ image_at images.now term }
{
    images[term.number() as usize]
}

/// The term that stands for a term and always has a value.
pub fn total(images: &[Image], term: Term) -> Term
    requires { term < length images.now }
    ensures { result ≡ total_at images.now term }
{
    image_of(images, term).total
}

/// The terms that stand for some terms and always have values.
pub fn totals(alloc: Global, images: &[Image], terms: &[Term]) -> Result<Vec<Term>, Memory>
    requires { All (λ t. t < length images.now) terms.now }
    ensures { IfOk result (λ totals. totals.items ≡ map (total_at images.now) terms.now) }
{
    let mut totals = Vec::new(alloc);
    for term in terms {
        totals.push(total(images, *term))?;
    }
    Ok(totals)
}

/// The parts of a sum, over the terms that always have values.
pub fn weighted_totals(
    alloc: Global,
    images: &[Image],
    parts: &[(i64, Term)],
) -> Result<Vec<(i64, Term)>, Memory>
    requires { All (λ t. t < length images.now) (map (λ p. p.1) parts.now) }
    ensures { IfOk result (λ totals.
        totals.items ≡ map (λ p. (p.0, total_at images.now p.1)) parts.now) }
{
    let mut totals = Vec::new(alloc);
    for part in parts {
        let (weight, term) = *part;
        totals.push((weight, total(images, term)))?;
    }
    Ok(totals)
}

/// Adds the guard of a term, where it has one.
pub fn add_guard(guards: &mut Vec<Term>, images: &[Image], term: Term) -> Result<(), Memory>
    requires { term < length images.now }
    ensures { OnOk result (guards.new.items
        ≡ guards.old.items ++ option_to_list (image_at images.now term).guard) }
{
    if let Some(guard) = image_of(images, term).guard {
        guards.push(guard)?;
    }
    Ok(())
}

/// Adds the guards of some terms.
pub fn add_guards(guards: &mut Vec<Term>, images: &[Image], terms: &[Term]) -> Result<(), Memory>
    requires { All (λ t. t < length images.now) terms.now }
    ensures { OnOk result (guards.new.items
        ≡ guards.old.items ++ guards_in images.now terms.now) }
{
    for term in terms {
        add_guard(guards, images, *term)?;
    }
    Ok(())
}

/// Adds the guards of a sum's parts.
pub fn add_weighted_guards(
    guards: &mut Vec<Term>,
    images: &[Image],
    parts: &[(i64, Term)],
) -> Result<(), Memory>
    requires { All (λ t. t < length images.now) (map (λ p. p.1) parts.now) }
    ensures { OnOk result (guards.new.items
        ≡ guards.old.items ++ guards_in images.now (map (λ p. p.1) parts.now)) }
{
    for part in parts {
        let (_, term) = *part;
        add_guard(guards, images, term)?;
    }
    Ok(())
}

/// Adds the guard of a term that is a node's only part.
pub fn add_one_guard(guards: &mut Vec<Term>, images: &[Image], term: Term) -> Result<(), Memory>
    requires { All (λ t. t < length images.now) (term ∷ []) }
    ensures { OnOk result (guards.new.items
        ≡ guards.old.items ++ guards_in images.now (term ∷ [])) }
{
    add_guards(guards, images, &[term])
}

/// Adds the guards of two terms.
pub fn add_two_guards(
    guards: &mut Vec<Term>,
    images: &[Image],
    first: Term,
    second: Term,
) -> Result<(), Memory>
    requires { All (λ t. t < length images.now) (first ∷ second ∷ []) }
    ensures { OnOk result (guards.new.items
        ≡ guards.old.items ++ guards_in images.now (first ∷ second ∷ [])) }
{
    add_guards(guards, images, &[first, second])
}

/// Adds the guards of two lists of terms.
#[tactic(auto, using(crate::proofs::Listing::guards_of_both))]
pub fn add_list_guards(
    guards: &mut Vec<Term>,
    images: &[Image],
    first: &[Term],
    second: &[Term],
) -> Result<(), Memory>
    requires { All (λ t. t < length images.now) (first.now ++ second.now) }
    ensures { OnOk result (guards.new.items
        ≡ guards.old.items ++ guards_in images.now (first.now ++ second.now)) }
{
    add_guards(guards, images, first)?;
    add_guards(guards, images, second)
}

/// Adds the guards of a term and of others behind it.
pub fn add_whole_guards(
    guards: &mut Vec<Term>,
    images: &[Image],
    first: Term,
    others: &[Term],
) -> Result<(), Memory>
    requires { All (λ t. t < length images.now) (first ∷ others.now) }
    ensures { OnOk result (guards.new.items
        ≡ guards.old.items ++ guards_in images.now (first ∷ others.now)) }
{
    add_guard(guards, images, first)?;
    add_guards(guards, images, others)
}
