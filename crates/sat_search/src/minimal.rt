//! Which literals of a learnt clause can be left out: those whose negations follow, by the reasons of the trail, from what else is
//! marked (Sörensson and Biere 2009). Whether one is left out is free, so nothing is promised of the answer.

ghost use Rattle.std.specs.Prelude.{◌≡◌, ℕ, ◌<◌, length, Some, IfSome, IsSome};
ghost use Rattle.std.specs.Option.{option_map};
ghost use Rattle.sat_state.specs.Trail.{literals, trail_value, entry_of};

use crate::levels::level_in;
use crate::marks::Marks;
use ep_base::Memory;
use sat_state::{ShortLit, State};
use std::alloc::Global;

/// How many reasons deep it is looked.
const DEPTH: u64 = 64;

/// The variables of which it is known, for the present conflict, that they follow or that they don't.
#[derive(Debug, Drop)]
pub struct Seen {
    implied: Marks,
    needed: Marks,
}

impl Seen {
    /// Nothing is known.
    pub fn new(alloc: Global) -> Seen {
        Seen {
            implied: Marks::new(alloc),
            needed: Marks::new(alloc),
        }
    }

    /// Begins with a conflict over the variables up to this number.
    pub fn begin(&mut self, vars: u64) -> Result<(), Memory> {
        self.implied.grow(vars)?;
        self.needed.grow(vars)?;
        self.implied.clear();
        self.needed.clear();
        Ok(())
    }
}

// The number of the clause that gave a variable its value.
pub fn reason_of(state: &State, var: u64) -> Option<u64>
    ensures { IfSome result (λ number. number < length state.now.clauses) }
{
    let _trail = state.trail();
    state.reason_in(var)
}

// Whether a variable follows from what is marked, where that is known: it is marked, of level 0, or was looked at before.
fn known(state: &State, marks: &Marks, seen: &Seen, var: u64) -> Option<bool> {
    if marks.is_marked(var) || level_in(state, var) == 0 || seen.implied.is_marked(var) {
        Some(true)
    } else if seen.needed.is_marked(var) {
        Some(false)
    } else {
        None
    }
}

// Whether a variable has a reason whose other literals follow from what is marked, as far as so many reasons tell.
fn has_implied_reason(state: &State, marks: &Marks, seen: &mut Seen, var: u64, depth: u64) -> bool {
    if depth == 0 {
        return false;
    }
    let Some(number) = reason_of(state, var) else {
        return false;
    };
    for lit in state.literals(number) {
        let other = lit.var();
        if other == var {
            continue;
        }
        let implied = match known(state, marks, seen, other) {
            Some(answer) => answer,
            None => has_implied_reason(state, marks, seen, other, depth - 1),
        };
        if !implied {
            seen.needed.mark(var);
            return false;
        }
    }
    seen.implied.mark(var);
    true
}

/// The number of the clause that gave a literal of the trail, if that clause's other literals are false at level 0 or follow from
/// what is marked, or if all literals are to be left out that a clause gave.
pub fn removal(
    state: &State,
    marks: &Marks,
    seen: &mut Seen,
    lit: ShortLit,
    all: bool,
) -> Option<u64>
    requires { IsSome (trail_value (literals state.now.trail) lit.var) }
    ensures { IfSome result (λ number. option_map (λ e. e.reason) (entry_of state.now.trail lit.var) ≡ Some (Some number)) }
{
    if all || has_implied_reason(state, marks, seen, lit.var(), DEPTH) {
        state.reason(lit.var())
    } else {
        None
    }
}
