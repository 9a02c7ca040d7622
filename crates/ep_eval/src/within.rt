//! Where an expression is typed: a scope, and the names that are typed as those of the quantifiers around.

ghost use Rattle.std.specs.Prelude.{◌≡◌, false, Some, IfOk, Option, if◌then◌else◌, bytes_eq};
ghost use Rattle.ep_tree.specs.Environments as names;
ghost use Rattle.ep_tree.specs.Environments.{context_of};
ghost use Rattle.ep_tree.specs.Names.{put};
ghost use Rattle.ep_tree.specs.Types as types;
ghost use Rattle.ep_tree.specs.Types.{Context, Meaning, a_value, named_domain_type, named_type, type_from};
ghost use Rattle.ep_eval.specs.Judging.{scalar_or};
ghost use Rattle.ep_eval.specs.Scopes.{env_in, with_all};
ghost use Rattle.ep_eval.specs.Typing.{context_in, meaning_or, typed_meaning, with_typed};

use super::domains::hides;
use super::environments::shape_type;
use super::scopes::{Around, Scope};
use ep_base::{Memory, Name};
use ep_tree::{Scalar, ValueType};
use ep_types_rules::of_scalar;
use std::alloc::Global;

/// A name of a quantifier or generator, with what its domain's numbers stand for.
#[derive(Drop)]
pub struct TypedName {
    pub name: Name,
    pub scalar: Scalar,
}

/// Where an expression is typed. A later name hides an earlier one, and all hide those of the scope.
#[derive(Clone, Copy)]
pub struct Within<'s, 'a> {
    pub scope: Scope<'s, 'a>,
    pub typed: &'s [TypedName],
}

/// The scalar of the innermost quantified name that is this one, where there is one.
fn scalar_around(around: &Around, name: &Name) -> Option<Scalar>
    ensures { (env : names.Env) → type_from (named_type (context_of (with_all env around.now) name.now))
        ≡ scalar_or result (type_from (named_type (context_of env name.now))) }
{
    match around {
        Around::Nothing => None,
        Around::Number(outer, own, scalar, _) => {
            if *name == **own {
                return Some(*scalar);
            }
            scalar_around(outer, name)
        }
    }
}

/// The type of a name, where it stands for a value or a decision variable.
fn name_type(scope: Scope<'_, '_>, name: &Name) -> Option<ValueType>
    ensures { result ≡ type_from (named_type (context_of (env_in scope.entry) name.now)) }
{
    match scalar_around(scope.around, name) {
        Some(scalar) => Some(of_scalar(scalar)),
        None => scope.env.type_of(name),
    }
}

/// The type of the values of a named domain.
fn named_domain(scope: Scope<'_, '_>, name: &Name) -> Option<ValueType>
    ensures { result ≡ type_from (named_domain_type (context_of (env_in scope.entry) name.now)) }
{
    if hides(scope.around, name) {
        return None;
    }
    match scope.env.domain(name) {
        Some(domain) => Some(shape_type(domain)),
        None => None,
    }
}

/// The scalar of a name, where it is this one, and else that which was found before.
#[tactic(auto, unfolding(crate::specs::Typing::meaning_or))]
fn newer(own: &TypedName, name: &Name, found: Option<Scalar>) -> Option<Scalar>
    ensures { (m : Option Meaning) → meaning_or result m
        ≡ (if bytes_eq name.now own.now.name then Some (typed_meaning own.now) else meaning_or found m) }
{
    if *name == own.name {
        return Some(own.scalar);
    }
    found
}

/// The scalar of the last name that is this one, where there is one. Linear in the names.
fn scalar_within(typed: &[TypedName], name: &Name) -> Option<Scalar>
    ensures { (c : Context) → with_typed typed.now c name.now ≡ meaning_or result (c name.now) }
{
    let mut found = None;
    for own in typed {
        found = newer(own, name, found);
    }
    found
}

/// The type of a name, where it stands for a value or a decision variable.
pub fn name_within(within: Within<'_, '_>, name: &Name) -> Option<ValueType>
    ensures { result ≡ type_from (named_type (context_in within.entry name.now)) }
{
    match scalar_within(within.typed, name) {
        Some(scalar) => Some(of_scalar(scalar)),
        None => name_type(within.scope, name),
    }
}

/// The type of the values of a named domain.
pub fn domain_within(within: Within<'_, '_>, name: &Name) -> Option<ValueType>
    ensures { result ≡ type_from (named_domain_type (context_in within.entry name.now)) }
{
    match scalar_within(within.typed, name) {
        Some(_) => None,
        None => named_domain(within.scope, name),
    }
}

/// The same name once more.
fn copy_name(alloc: Global, own: &TypedName) -> Result<TypedName, Memory>
    ensures { IfOk result (λ copy. copy ≡ own.now) }
{
    let name = Name::new(alloc, own.name.text())?;
    Ok(TypedName {
        name,
        scalar: own.scalar,
    })
}

/// The same names once more.
pub fn copy_names(alloc: Global, typed: &[TypedName]) -> Result<Vec<TypedName>, Memory>
    ensures { IfOk result (λ copies. copies.items ≡ typed.now) }
{
    let mut copies = Vec::with_capacity(alloc, typed.len())?;
    for own in typed {
        copies.push(copy_name(alloc, own)?)?;
    }
    Ok(copies)
}

/// Names, and one more behind them.
pub fn with_name(
    alloc: Global,
    mut typed: Vec<TypedName>,
    name: &Name,
    scalar: Scalar,
) -> Result<Vec<TypedName>, Memory>
    ensures { IfOk result (λ more. (c : Context) → with_typed more.items c
        ≡ put name.now (a_value (Some (types.of_scalar scalar)) false) (with_typed typed.items c)) }
{
    let name = Name::new(alloc, name.text())?;
    typed.push(TypedName { name, scalar })?;
    Ok(typed)
}
