//! Domains whose numbers are listed, with the nodes that are met counted.

ghost use Rattle.std.specs.Prelude.{◌≡◌, ◌≤◌, ◌++◌, Some, IfOk, option_map};
ghost use Rattle.ep_base.specs.Options.{map_both};
ghost use Rattle.ep_tree.specs.Views.{domain_tree};
ghost use Rattle.ep_eval.specs.Known.{env_of};
ghost use Rattle.ep_instance_parts.specs.Reading.{NamesListed, ReadsListed, ReadsScalars};

use super::bounds::MOST_SIZE;
use super::indices::read_indices;
use ep_base::{Limit, Memory, Name, Runs};
use ep_eval::{Env, EvalError, NamedDomain, domain_values_after};
use ep_numbers::copy_sets;
use ep_tree::{Domain, DomainKind};
use std::alloc::{AllocError, Global};

/// The numbers of a domain's index domains, and those of its elements, each where they are defined.
#[derive(Drop)]
pub struct Listed {
    pub indices: Option<Vec<Runs>>,
    pub values: Option<Runs>,
}

/// Sets before others, where both are there.
#[tactic(auto, unfolding(ep_base::specs::Options::map_both))]
pub fn sets_before(
    own: Option<Vec<Runs>>,
    inner: Option<Vec<Runs>>,
) -> Result<Option<Vec<Runs>>, AllocError>
    ensures { IfOk result (λ all. option_map (λ v. v.items) all
        ≡ map_both (λ xs ys. xs ++ ys) (option_map (λ v. v.items) own) (option_map (λ v. v.items) inner)) }
{
    let Some(mut sets) = own else {
        return Ok(None);
    };
    let Some(mut others) = inner else {
        return Ok(None);
    };
    sets.append(&mut others)?;
    Ok(Some(sets))
}

/// What a name's domain lists.
fn listed_domain(alloc: Global, domain: &NamedDomain) -> Result<Listed, Memory>
    ensures indices { IfOk result (λ kept. option_map (λ v. v.items) kept.indices ≡ Some domain.now.indices.items) }
    ensures values { IfOk result (λ kept. kept.values ≡ Some domain.now.values) }
{
    let indices = copy_sets(alloc, &domain.indices)?;
    let values = domain.values.copy(alloc)?;
    Ok(Listed {
        indices: Some(indices),
        values: Some(values),
    })
}

/// What the domain that a name stands for lists.
fn listed_name(alloc: Global, env: &Env, name: &Name) -> Result<Listed, Memory>
    ensures { IfOk result (NamesListed (env_of env.now name.now)) }
{
    match env.domain(name) {
        Some(domain) => {
            let kept = listed_domain(alloc, domain)?;
            Ok(kept)
        }
        None => Ok(Listed {
            indices: None,
            values: None,
        }),
    }
}

/// The numbers of a domain of scalars, which isn't a name.
fn listed_scalars(
    alloc: Global,
    env: &Env,
    before: u64,
    d: &Domain,
) -> Result<(Listed, u64), EvalError>
    ensures { ReadsScalars env.now.mode (env_of env.now) before (domain_tree d.now) result }
{
    let (values, after) = domain_values_after(alloc, env, before, d)?;
    let indices = Some(Vec::new(alloc));
    Ok((Listed { indices, values }, after))
}

/// The numbers of a domain, and how many nodes are met by its end. All bounds are read, also behind
/// an undefined one, since limits come first.
pub fn read_listed(
    alloc: Global,
    env: &Env,
    before: u64,
    d: &Domain,
) -> Result<(Listed, u64), EvalError>
    ensures { ReadsListed env.now.mode (env_of env.now) before (domain_tree d.now) result }
{
    if before > MOST_SIZE {
        return Err(EvalError::Limit(Limit::Size));
    }
    match &d.kind {
        DomainKind::Named(name) => {
            let kept = listed_name(alloc, env, name)?;
            Ok((kept, before))
        }
        DomainKind::Group(inner) => {
            let (kept, after) = read_listed(alloc, env, before, inner)?;
            Ok((kept, after))
        }
        DomainKind::Matrix(own, inner) => {
            let (sets, count) = read_indices(alloc, env, before, own)?;
            let (kept, after) = read_listed(alloc, env, count, inner)?;
            let indices = sets_before(sets, kept.indices)?;
            Ok((
                Listed {
                    indices,
                    values: kept.values,
                },
                after,
            ))
        }
        DomainKind::Bool => listed_scalars(alloc, env, before, d),
        DomainKind::Int => listed_scalars(alloc, env, before, d),
        DomainKind::Ranges(_) => listed_scalars(alloc, env, before, d),
        DomainKind::Set(_, _, _) => listed_scalars(alloc, env, before, d),
    }
}
