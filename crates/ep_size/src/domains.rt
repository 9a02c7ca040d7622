//! The numbers of domains in which no decision variable stands.

ghost use Rattle.std.specs.Prelude.{◌≡◌, IfOk};
ghost use Rattle.ep_tree.specs.Evaluation.{domain_values};
ghost use Rattle.ep_tree.specs.Measures as measures;
ghost use Rattle.ep_tree.specs.Views.{domain_tree};
ghost use Rattle.ep_eval.specs.Scopes.{env_in, mode_in};
ghost use Rattle.ep_size.specs.Meters.{Told};

use super::standing::{Hidden, is_free_domain};
use super::totals::Totals;
use ep_base::{Memory, Runs};
use ep_eval::{Scope, numbers_of};
use ep_tree::Domain;
use ep_tree_laws::limits_are_of_values;

/// The numbers of a domain in which no decision variable stands. Of another one they aren't told.
pub fn fixed_numbers(
    scope: Scope<'_, '_>,
    totals: &mut Totals,
    d: &Domain,
) -> Result<Option<Runs>, Memory>
    ensures { IfOk result (λ set. Told (mode_in scope.entry) totals.old totals.new
        (measures.met_domain (mode_in scope.entry) (env_in scope.entry) (domain_tree d.now))
        (set ≡ domain_values (mode_in scope.entry) (env_in scope.entry) (domain_tree d.now))) }
{
    let fixed = is_free_domain(scope, &Hidden::Nothing, d);
    if fixed {
        limits_are_of_values();
        let numbers = numbers_of(scope, &mut totals.meter, d)?;
        return Ok(numbers);
    }
    Err(Memory)
}
