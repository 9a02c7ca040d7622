//! Lists of variables for lists of terms.

ghost use Rattle.std.specs.Prelude.{neg_ℤ, ◌≡◌, ◌++◌, ◌∷◌, [], map, negsuc, IfOk, true};
ghost use Rattle.std.specs.List.{All};
ghost use Rattle.ep_base.specs.Reads.{IsWithinNumbers};
ghost use Rattle.ep_flatten.specs.Saying.{variable_at};

use ep_base::Memory;
use ep_ground::Term;
use std::alloc::Global;

/// The variable of a term, and 0 of one that has none.
pub fn place_at(places: &[u64], term: Term) -> u64
    ensures { result ≡ variable_at places.now term }
{
    let place = term.number() as usize;
    if place < places.len() {
        places[place]
    } else {
        0
    }
}

/// The variables of terms.
pub fn places_of(alloc: Global, places: &[u64], terms: &[Term]) -> Result<Vec<u64>, Memory>
    ensures { IfOk result (λ made. made.items ≡ map (variable_at places.now) terms.now) }
{
    let mut made = Vec::new(alloc);
    for term in terms {
        made.push(place_at(places, *term))?;
    }
    Ok(made)
}

/// The literals that say that terms are true.
pub fn literals_of(
    alloc: Global,
    places: &[u64],
    terms: &[Term],
) -> Result<Vec<(bool, u64)>, Memory>
    ensures { IfOk result (λ made.
        made.items ≡ map (λ x. (true, x)) (map (variable_at places.now) terms.now)) }
{
    let mut made = Vec::new(alloc);
    for term in terms {
        made.push((true, place_at(places, *term)))?;
    }
    Ok(made)
}

/// The parts of a sum, with the variables of their terms.
pub fn placed_parts(
    alloc: Global,
    places: &[u64],
    parts: &[(i64, Term)],
) -> Result<Vec<(i64, u64)>, Memory>
    ensures { IfOk result (λ made.
        made.items ≡ map (λ p. (p.0, variable_at places.now p.1)) parts.now) }
{
    let mut made = Vec::new(alloc);
    for part in parts {
        made.push((part.0, place_at(places, part.1)))?;
    }
    Ok(made)
}

/// The parts of a sum with their coefficients negated, with the variables of their terms.
pub fn negated_parts(
    alloc: Global,
    places: &[u64],
    parts: &[(i64, Term)],
) -> Result<Vec<(i64, u64)>, Memory>
    requires { All (λ part. IsWithinNumbers part.0) parts.now }
    ensures { IfOk result (λ made.
        made.items ≡ map (λ p. (neg_ℤ p.0, variable_at places.now p.1)) parts.now) }
{
    let mut made = Vec::new(alloc);
    for part in parts {
        made.push((-part.0, place_at(places, part.1)))?;
    }
    Ok(made)
}
