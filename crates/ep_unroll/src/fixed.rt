//! Parts in which no decision variable stands: they are evaluated, and have their value whatever the cells are.

ghost use Rattle.std.specs.Prelude.{◌≡◌, true, IfOk};
ghost use Rattle.ep_tree.specs.Evaluation.{domain_values, evaluate};
ghost use Rattle.ep_tree.specs.Reach.{decisions_in};
ghost use Rattle.ep_tree.specs.Views.{domain_tree, expr_tree};
ghost use Rattle.ep_eval.specs.Helds.{seen_held};
ghost use Rattle.ep_eval.specs.Scopes.{env_in, mode_in};
ghost use Rattle.ep_size.specs.Free as free;
ghost use Rattle.ep_unroll.specs.Readings.{Numbering, Reading};

use ep_base::{Memory, Runs};
use ep_eval::{Held, Scope, numbers_after, value_after};
use ep_size::{Hidden, is_free_domain, standing_in};
use ep_tree::{Domain, Expr};

/// Whether no decision variable stands in an expression, neither in a domain nor in a condition. Linear in its text.
pub fn is_fixed(scope: Scope<'_, '_>, e: &Expr) -> bool
    ensures { result ≡ true → free.is_free (decisions_in (env_in scope.entry)) (expr_tree e.now) ≡ true }
{
    let standing = standing_in(scope, &Hidden::Nothing, e);
    standing.free
}

/// Whether no decision variable stands in a domain. Linear in its text.
fn is_fixed_domain(scope: Scope<'_, '_>, d: &Domain) -> bool
    ensures { result ≡ true → free.is_free_domain (decisions_in (env_in scope.entry)) (domain_tree d.now) ≡ true }
{
    is_free_domain(scope, &Hidden::Nothing, d)
}

/// The value of an expression in which no decision variable stands.
pub fn fixed_value<'a>(scope: Scope<'_, 'a>, e: &Expr) -> Result<Option<Held<'a>>, Memory>
    requires { free.is_free (decisions_in (env_in scope)) (expr_tree e.now) ≡ true }
    ensures { IfOk result (λ seen. (n : Numbering) → (r : Reading n (env_in scope.entry))
        → evaluate (mode_in scope.entry) r.values (expr_tree e.now) ≡ seen_held seen) }
{
    let mut met = 0;
    match value_after(scope, &mut met, e) {
        Ok(seen) => Ok(seen),
        Err(_) => Err(Memory),
    }
}

/// The numbers of a domain, in which no decision variable may stand; none where it is undefined.
pub fn fixed_numbers(scope: Scope<'_, '_>, d: &Domain) -> Result<Option<Runs>, Memory>
    ensures own { IfOk result (λ set. domain_values (mode_in scope.entry) (env_in scope.entry) (domain_tree d.now) ≡ set) }
    ensures kept { IfOk result (λ set. (n : Numbering) → (r : Reading n (env_in scope.entry))
        → domain_values (mode_in scope.entry) r.values (domain_tree d.now) ≡ set) }
{
    if !is_fixed_domain(scope, d) {
        return Err(Memory);
    }
    let mut met = 0;
    match numbers_after(scope, &mut met, d) {
        Ok(set) => Ok(set),
        Err(_) => Err(Memory),
    }
}
