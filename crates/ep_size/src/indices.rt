//! The numbers of the domain over which a list's indices go.

ghost use Rattle.std.specs.Prelude.{◌≡◌, ℕ, IfOk};
ghost use Rattle.ep_tree.specs.Evaluation.{index_values};
ghost use Rattle.ep_tree.specs.Measures as measures;
ghost use Rattle.ep_tree.specs.Reach.{measured_indices};
ghost use Rattle.ep_forms.specs.Forms.{index_at};
ghost use Rattle.ep_eval.specs.Scopes.{env_in, mode_in};
ghost use Rattle.ep_size.specs.Meters.{Told};

use super::domains::fixed_numbers;
use super::totals::Totals;
use ep_base::{Memory, Runs};
use ep_eval::Scope;
use ep_tree::Domain;

/// The numbers over which a list's indices go, where a domain for them is stated and has numbers.
pub fn index_numbers(
    scope: Scope<'_, '_>,
    totals: &mut Totals,
    domain: &Option<Box<Domain>>,
) -> Result<Option<Runs>, Memory>
    ensures { IfOk result (λ set. Told (mode_in scope.entry) totals.old totals.new
        (measures.met_index (mode_in scope.entry) (env_in scope.entry) (index_at domain.now))
        ((count : ℕ) → measured_indices set count
        ≡ measured_indices (index_values (mode_in scope.entry) (env_in scope.entry) (index_at domain.now) count) count)) }
{
    match domain {
        Some(stated) => {
            let numbers = fixed_numbers(scope, totals, stated)?;
            Ok(numbers)
        }
        None => Ok(None),
    }
}
