//! The parts of a comprehension but for the walk through its generators.

ghost use Rattle.std.specs.Prelude.{◌≡◌};
ghost use Rattle.ep_eval.specs.Generating.{how_many};
ghost use Rattle.ep_eval.specs.Literals.{listed_in};

use ep_forms::Listing;
use ep_tree::{Domain, Generator, Value};

/// What the names of a generator range over, and the generators behind it.
#[derive(Clone, Copy)]
pub struct Ranging<'e> {
    pub listing: Listing<'e>,
    pub domain: &'e Domain,
    pub later: &'e [Generator],
}

/// How many values there are.
#[tactic(auto, unfolding(crate::specs::Generating::how_many))]
pub fn count_of(values: &Option<Vec<Value>>) -> usize
    ensures { result ≡ how_many (listed_in values.now) }
{
    match values {
        Some(all) => all.len(),
        None => 0,
    }
}
