//! The scalars among which a read chooses whose indices have decision variables.

ghost use Rattle.std.specs.Prelude.{◌≡◌, ◌++◌, ◌∷◌, [], IfOk, OnOk};

use ep_base::{Key, Memory};
use ep_ground::Term;
use std::alloc::Global;

/// Terms, and the indices under which a read finds each of them.
#[derive(Drop)]
pub struct Entries {
    pub keys: Vec<Key>,
    pub terms: Vec<Term>,
}

/// A read that finds nothing.
pub fn no_entries(alloc: Global) -> Entries
    ensures keys { result.keys.items ≡ [] }
    ensures terms { result.terms.items ≡ [] }
{
    Entries {
        keys: Vec::new(alloc),
        terms: Vec::new(alloc),
    }
}

/// A term that is found without an index.
pub fn one_entry(alloc: Global, term: Term) -> Result<Entries, Memory>
    ensures { IfOk result (λ es. (es.keys.items ≡ [] ∷ []) × (es.terms.items ≡ term ∷ [])) }
{
    let mut keys = Vec::new(alloc);
    keys.push(Key::new(Vec::new(alloc)))?;
    let mut terms = Vec::new(alloc);
    terms.push(term)?;
    Ok(Entries { keys, terms })
}

/// Adds terms.
pub fn push_terms(terms: &mut Vec<Term>, others: &[Term]) -> Result<(), Memory>
    ensures { OnOk result (terms.new.items ≡ terms.old.items ++ others.now) }
{
    for other in others {
        terms.push(*other)?;
    }
    Ok(())
}
