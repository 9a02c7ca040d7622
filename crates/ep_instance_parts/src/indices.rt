//! Index domains, with the nodes that are met counted.

ghost use Rattle.std.specs.Prelude.{◌≡◌, ◌≤◌, ◌++◌, [], ◌∷◌, IfOk, IfErr, option_map};
ghost use Rattle.ep_base.specs.Options.{map_both};
ghost use Rattle.ep_tree.specs.Binding.{listed_domains};
ghost use Rattle.ep_tree.specs.Limits.{limits_of_values};
ghost use Rattle.ep_tree.specs.Measures.{met_domains};
ghost use Rattle.ep_tree.specs.Views.{domains_of};
ghost use Rattle.ep_eval.specs.Known.{env_of};
ghost use Rattle.ep_eval.specs.Outcomes.{IsCause};
ghost use Rattle.ep_instance_parts.specs.Counted.{IsCounted};

use ep_base::Runs;
use ep_eval::{Env, EvalError, domain_values_after};
use ep_tree::Domain;
use std::alloc::{AllocError, Global};

/// Sets and one more, where they are there.
#[tactic(auto, unfolding(ep_base::specs::Options::map_both))]
fn with_set(sets: Option<Vec<Runs>>, set: Option<Runs>) -> Result<Option<Vec<Runs>>, AllocError>
    ensures { IfOk result (λ more. option_map (λ v. v.items) more
        ≡ map_both (λ all one. all ++ one ∷ []) (option_map (λ v. v.items) sets) set) }
{
    let Some(mut sets) = sets else {
        return Ok(None);
    };
    let Some(set) = set else {
        return Ok(None);
    };
    sets.push(set)?;
    Ok(Some(sets))
}

/// The numbers of index domains, where each is defined, and how many nodes are met by their end.
/// All are read, also behind an undefined one, since limits come first.
pub fn read_indices(
    alloc: Global,
    env: &Env,
    before: u64,
    domains: &[Domain],
) -> Result<(Option<Vec<Runs>>, u64), EvalError>
    requires { before ≤ 5000000 }
    ensures indices { IfOk result (λ r. option_map (λ v. v.items) r.0
        ≡ listed_domains env.now.mode (env_of env.now) (domains_of domains.now)) }
    ensures counted { IfOk result (λ r.
        IsCounted env.now.mode before (met_domains env.now.mode (env_of env.now) (domains_of domains.now)) r.1) }
    ensures cause { IfErr result (IsCause (limits_of_values env.now.mode before
        (met_domains env.now.mode (env_of env.now) (domains_of domains.now)))) }
{
    let mut sets = Some(Vec::new(alloc));
    let mut count = before;
    for domain in domains {
        let (set, after) = domain_values_after(alloc, env, count, domain)?;
        sets = with_set(sets, set)?;
        count = after;
    }
    Ok((sets, count))
}
