//! The numbers of domains.

ghost use Rattle.std.specs.Prelude.{◌≡◌, ◌++◌, ◌∷◌, [], ℤ, List, Option, Some, None, IfOk, if◌then◌else◌, option_map};
ghost use Rattle.ep_base.specs.Options.{map_both};
ghost use Rattle.ep_base.specs.Runs.{IsAscending};
ghost use Rattle.ep_tree.specs.Domains.{truth_values};
ghost use Rattle.ep_tree.specs.Environments as names;
ghost use Rattle.ep_tree.specs.Environments.{domain_bound};
ghost use Rattle.ep_eval.specs.Bounds.{domain_of, only_domain};
ghost use Rattle.ep_eval.specs.Known.{HasAscendingDomains};
ghost use Rattle.ep_eval.specs.Ranges.{has_in, runs_have};
ghost use Rattle.ep_eval.specs.Scopes.{env_in, with_all};

use super::environments::NamedDomain;
use super::scopes::{Around, Scope};
use ep_base::{Memory, Name, Run, Runs};
use std::alloc::{AllocError, Global};

/// The run between two ends, where both are there.
#[tactic(auto, unfolding(ep_base::specs::Options::map_both))]
pub fn run_between(low: Option<i64>, high: Option<i64>) -> Option<Run>
    ensures { result ≡ map_both (λ lo hi. record { lo = lo; hi = hi }) low high }
{
    let Some(lo) = low else {
        return None;
    };
    let Some(hi) = high else {
        return None;
    };
    Some(Run { lo, hi })
}

/// Runs and one more, where they are there.
#[tactic(auto, unfolding(ep_base::specs::Options::map_both))]
pub fn with_run(runs: Option<Vec<Run>>, run: Option<Run>) -> Result<Option<Vec<Run>>, AllocError>
    ensures { IfOk result (λ more. option_map (λ v. v.items) more
        ≡ map_both (λ all one. all ++ one ∷ []) (option_map (λ v. v.items) runs) run) }
{
    let Some(mut runs) = runs else {
        return Ok(None);
    };
    let Some(run) = run else {
        return Ok(None);
    };
    runs.push(run)?;
    Ok(Some(runs))
}

/// The numbers of some runs.
pub fn set_of(alloc: Global, runs: Option<Vec<Run>>) -> Result<Option<Runs>, Memory>
    ensures { IfOk result (λ set. (numbers : Option (List ℤ))
        → ((ns : List ℤ) → numbers ≡ Some ns → IsAscending ns)
        → ((n : ℤ) → option_map (λ v. runs_have n v.items) runs ≡ has_in n numbers) → set ≡ numbers) }
{
    match runs {
        Some(runs) => {
            let set = Runs::new(alloc, runs)?;
            Ok(Some(set))
        }
        None => Ok(None),
    }
}

/// Whether a quantified name hides what a name stands for as a domain.
pub fn hides(around: &Around, name: &Name) -> bool
    ensures { (env : names.Env) → only_domain (with_all env around.now name.now)
        ≡ (if result then None else only_domain (env name.now)) }
{
    match around {
        Around::Nothing => false,
        Around::Number(outer, own, _, _) => {
            if *name == **own {
                return true;
            }
            hides(outer, name)
        }
    }
}

/// The numbers of each domain's name ascend also where names are quantified. It does nothing: it
/// walks around, so that its contract is proved.
pub fn ascends(around: &Around)
    ensures { (env : names.Env) → HasAscendingDomains env → HasAscendingDomains (with_all env around.now) }
{
    match around {
        Around::Nothing => {}
        Around::Number(outer, _, _, _) => ascends(outer),
    }
}

/// The numbers of a named domain, if it is one of scalars.
fn scalar_numbers(alloc: Global, domain: &NamedDomain) -> Result<Option<Runs>, Memory>
    ensures { IfOk result (λ set. set ≡ domain_bound (Some (domain_of domain.now))) }
{
    if domain.indices.len() == 0 {
        let values = domain.values.copy(alloc)?;
        return Ok(Some(values));
    }
    Ok(None)
}

/// The numbers of the domain that a name stands for.
pub fn named_numbers(scope: Scope<'_, '_>, name: &Name) -> Result<Option<Runs>, Memory>
    ensures { IfOk result (λ set. set ≡ domain_bound (env_in scope.entry name.now)) }
{
    if hides(scope.around, name) {
        return Ok(None);
    }
    match scope.env.domain(name) {
        Some(domain) => {
            let set = scalar_numbers(scope.alloc, domain)?;
            Ok(set)
        }
        None => Ok(None),
    }
}

/// The numbers of truth values.
pub fn truth_set(alloc: Global) -> Result<Runs, Memory>
    ensures { IfOk result (λ set. set ≡ truth_values) }
{
    let mut parts = Vec::new(alloc);
    parts.push(Run { lo: 0, hi: 1 })?;
    let set = Runs::new(alloc, parts)?;
    Ok(set)
}
