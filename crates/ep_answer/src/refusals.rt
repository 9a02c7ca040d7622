//! Why a solver that no call broke refuses one.

ghost use Rattle.std.specs.Prelude.{◌≢◌};
ghost use Rattle.sat_search.specs.declared.outcome.SolveError.TheVariants as errors;

use ep_base::Memory;
use sat_search::SolveError;

/// What was refused to a solver that no earlier call broke.
pub(crate) fn refusal(error: SolveError) -> Memory
    requires { error ≢ errors.Broken }
{
    match error {
        SolveError::Broken => unreachable!(),
        SolveError::Memory => Memory,
    }
}
