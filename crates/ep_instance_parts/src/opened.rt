//! Domains that may be open, with the nodes that are met counted.

ghost use Rattle.std.specs.Prelude.{◌≡◌, ◌≤◌, ℤ, [], Some, IfOk, option_map};
ghost use Rattle.ep_base.specs.Numbers.{has_number};
ghost use Rattle.ep_tree.specs.Views.{domain_tree};
ghost use Rattle.ep_eval.specs.Known.{env_of};
ghost use Rattle.ep_instance_parts.specs.Elements.{element_passes};
ghost use Rattle.ep_instance_parts.specs.Reading.{Joins, NamesOpened, ReadsOpened};
ghost use Rattle.ep_instance_parts.specs.Tests.{run_test};

use super::bounds::{MOST_SIZE, read_ranges};
use super::elements::Elements;
use super::indices::read_indices;
use super::listed::sets_before;
use ep_base::{Limit, Memory, Name, Run, Runs};
use ep_eval::{Env, EvalError, NamedDomain};
use ep_numbers::copy_sets;
use ep_tree::{Domain, DomainKind, SetOp};
use std::alloc::Global;

/// The numbers of a domain's index domains, and those that its elements may be, each where they are
/// defined.
#[derive(Drop)]
pub struct Opened {
    pub indices: Option<Vec<Runs>>,
    pub elements: Option<Elements>,
}

/// The numbers of one run.
fn within(alloc: Global, run: Run) -> Result<Elements, Memory>
    ensures { IfOk result (λ elements. (n : ℤ) → element_passes elements n ≡ run_test run n) }
{
    let mut parts = Vec::new(alloc);
    parts.push(run)?;
    let set = Runs::new(alloc, parts)?;
    Ok(Elements::Within(set))
}

/// A domain of scalars whose elements are in one run.
fn opened_run(alloc: Global, run: Run) -> Result<Opened, Memory>
    ensures indices { IfOk result (λ kept. option_map (λ v. v.items) kept.indices ≡ Some []) }
    ensures elements { IfOk result (λ kept. (n : ℤ) →
        option_map (λ e. element_passes e n) kept.elements ≡ Some (run_test run n)) }
{
    let elements = within(alloc, run)?;
    Ok(Opened {
        indices: Some(Vec::new(alloc)),
        elements: Some(elements),
    })
}

/// What a name's domain has.
fn opened_domain(alloc: Global, domain: &NamedDomain) -> Result<Opened, Memory>
    ensures indices { IfOk result (λ kept. option_map (λ v. v.items) kept.indices ≡ Some domain.now.indices.items) }
    ensures elements { IfOk result (λ kept. (n : ℤ) →
        option_map (λ e. element_passes e n) kept.elements ≡ Some (has_number domain.now.values n)) }
{
    let indices = copy_sets(alloc, &domain.indices)?;
    let values = domain.values.copy(alloc)?;
    Ok(Opened {
        indices: Some(indices),
        elements: Some(Elements::Within(values)),
    })
}

/// What the domain that a name stands for has.
fn opened_name(alloc: Global, env: &Env, name: &Name) -> Result<Opened, Memory>
    ensures { IfOk result (NamesOpened (env_of env.now name.now)) }
{
    match env.domain(name) {
        Some(domain) => {
            let kept = opened_domain(alloc, domain)?;
            Ok(kept)
        }
        None => Ok(Opened {
            indices: None,
            elements: None,
        }),
    }
}

/// Elements that an operation of sets makes of others, where both are there.
fn joined(
    alloc: Global,
    op: SetOp,
    one: Option<Elements>,
    other: Option<Elements>,
) -> Result<Option<Elements>, Memory>
    ensures { IfOk result (Joins op one other) }
{
    let Some(first) = one else {
        return Ok(None);
    };
    let Some(second) = other else {
        return Ok(None);
    };
    let left = Box::new(alloc, first)?;
    let right = Box::new(alloc, second)?;
    Ok(Some(Elements::Joined(op, left, right)))
}

/// The numbers that the elements of a domain may be, and how many nodes are met by its end. All
/// bounds are read, also behind an undefined one, since limits come first.
pub fn read_opened(
    alloc: Global,
    env: &Env,
    before: u64,
    d: &Domain,
) -> Result<(Opened, u64), EvalError>
    ensures { ReadsOpened env.now.mode (env_of env.now) before (domain_tree d.now) result }
{
    if before > MOST_SIZE {
        return Err(EvalError::Limit(Limit::Size));
    }
    match &d.kind {
        DomainKind::Bool => {
            let kept = opened_run(alloc, Run { lo: 0, hi: 1 })?;
            Ok((kept, before))
        }
        DomainKind::Int => {
            let every = Run {
                lo: i64::MIN,
                hi: i64::MAX,
            };
            let kept = opened_run(alloc, every)?;
            Ok((kept, before))
        }
        DomainKind::Ranges(ranges) => {
            let (elements, after) = read_ranges(alloc, env, before, ranges)?;
            let indices = Some(Vec::new(alloc));
            Ok((Opened { indices, elements }, after))
        }
        DomainKind::Named(name) => {
            let kept = opened_name(alloc, env, name)?;
            Ok((kept, before))
        }
        DomainKind::Group(inner) => {
            let (kept, after) = read_opened(alloc, env, before, inner)?;
            Ok((kept, after))
        }
        DomainKind::Set(op, one, other) => {
            let (first, count) = read_opened(alloc, env, before, one)?;
            let (second, after) = read_opened(alloc, env, count, other)?;
            let elements = joined(alloc, *op, first.elements, second.elements)?;
            let indices = Some(Vec::new(alloc));
            Ok((Opened { indices, elements }, after))
        }
        DomainKind::Matrix(own, inner) => {
            let (sets, count) = read_indices(alloc, env, before, own)?;
            let (kept, after) = read_opened(alloc, env, count, inner)?;
            let indices = sets_before(sets, kept.indices)?;
            let elements = kept.elements;
            Ok((Opened { indices, elements }, after))
        }
    }
}
