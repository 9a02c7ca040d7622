//! Values and numbers behind so many nodes that were met before, for walks that count by themselves.

ghost use Rattle.std.specs.Prelude.{◌≡◌, ◌≤◌, IfErr, IfOk, OnOk};
ghost use Rattle.ep_tree.specs.Evaluation.{domain_values, evaluate};
ghost use Rattle.ep_tree.specs.Limits as limits;
ghost use Rattle.ep_tree.specs.Limits.{limits_of_values};
ghost use Rattle.ep_tree.specs.Measures as measures;
ghost use Rattle.ep_tree.specs.Views.{domain_tree, expr_tree};
ghost use Rattle.ep_eval.specs.Counting.{Counted};
ghost use Rattle.ep_eval.specs.Helds.{seen_held};
ghost use Rattle.ep_eval.specs.Outcomes.{IsCause};
ghost use Rattle.ep_eval.specs.Scopes.{env_in, mode_in};

use super::errors::EvalError;
use super::evaluating as inner;
use super::held::Held;
use super::meter::{MOST_SIZE, Meter};
use super::scopes::Scope;
use ep_base::{Limit, Runs};
use ep_tree::{Domain, Expr};

/// The value of an expression.
pub fn value_after<'a>(
    scope: Scope<'_, 'a>,
    met: &mut u64,
    e: &Expr,
) -> Result<Option<Held<'a>>, EvalError>
    ensures counted { OnOk result (Counted (mode_in scope.entry) met.old met.new
        (measures.met (mode_in scope.entry) (env_in scope.entry) (expr_tree e.now))) }
    ensures value { IfOk result (λ seen.
        evaluate (mode_in scope.entry) (env_in scope.entry) (expr_tree e.now) ≡ seen_held seen) }
    ensures cause { IfErr result (IsCause (limits_of_values (mode_in scope.entry) met.old
        (measures.met (mode_in scope.entry) (env_in scope.entry) (expr_tree e.now)))) }
{
    if *met > MOST_SIZE {
        return Err(EvalError::Limit(Limit::Size));
    }
    let mut meter = Meter {
        size: *met,
        passed: None,
    };
    let seen = inner::value_of(scope, &mut meter, e)?;
    match meter.passed {
        Some(limit) => Err(EvalError::Limit(limit)),
        None => {
            *met = meter.size;
            Ok(seen)
        }
    }
}

/// The numbers of a domain of scalars.
pub fn numbers_after(
    scope: Scope<'_, '_>,
    met: &mut u64,
    d: &Domain,
) -> Result<Option<Runs>, EvalError>
    requires small { met.old ≤ limits.MOST_SIZE }
    ensures counted { OnOk result (Counted (mode_in scope.entry) met.old met.new
        (measures.met_domain (mode_in scope.entry) (env_in scope.entry) (domain_tree d.now))) }
    ensures value { IfOk result (λ set. set
        ≡ domain_values (mode_in scope.entry) (env_in scope.entry) (domain_tree d.now)) }
    ensures cause { IfErr result (IsCause (limits_of_values (mode_in scope.entry) met.old
        (measures.met_domain (mode_in scope.entry) (env_in scope.entry) (domain_tree d.now)))) }
{
    let mut meter = Meter {
        size: *met,
        passed: None,
    };
    let set = inner::numbers_of(scope, &mut meter, d)?;
    match meter.passed {
        Some(limit) => Err(EvalError::Limit(limit)),
        None => {
            *met = meter.size;
            Ok(set)
        }
    }
}
