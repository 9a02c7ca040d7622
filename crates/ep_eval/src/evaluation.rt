//! Direct evaluation.

ghost use Rattle.std.specs.Prelude.{◌≡◌, ℕ, Some, Ok, IfOk, IfErr, option_map, unwrap_or};
ghost use Rattle.ep_tree.specs.Evaluation as defined;
ghost use Rattle.ep_tree.specs.Environments as names;
ghost use Rattle.ep_tree.specs.Limits.{counted_domain, counted_value, limits_of_values};
ghost use Rattle.ep_tree.specs.Measures.{met, met_domain};
ghost use Rattle.ep_tree.specs.Views.{domain_tree, expr_tree};
ghost use Rattle.ep_tree.specs.Types as types;
ghost use Rattle.ep_tree.specs.declared.values.Scalar.{Scalar as EachScalar};
ghost use Rattle.ep_tree.specs.declared.values.ValueType.{ValueType as EachType};
ghost use Rattle.ep_eval.specs.Known.{env_of};
ghost use Rattle.ep_eval.specs.Helds.{seen_held};
ghost use Rattle.ep_eval.specs.Outcomes.{IsCause, seen_value};
ghost use Rattle.ep_eval.specs.Scopes.{env_in};

use super::copies::given_value;
use super::counted::{numbers_after, value_after};
use super::environments::Env;
use super::errors::EvalError;
use super::held::Held;
use super::judging::{domain_type, type_of};
use super::meter::MOST_SIZE;
use super::scopes::{Around, Scope};
use super::within::Within;
use ep_base::{Limit, Memory, Runs};
use ep_tree::{Domain, Expr, Scalar, Value, ValueType};
use std::alloc::Global;

/// What evaluating an expression shows.
#[derive(Drop)]
pub enum Seen {
    /// Its value.
    Value(Value),
    /// It has none.
    Undefined,
}

/// The value of an expression. A limit is named where its size passes that of one statement, or where a value of one of
/// its parts is too far from 0.
pub fn evaluate(alloc: Global, env: &Env, e: &Expr) -> Result<Seen, EvalError>
    ensures value { IfOk result (λ seen. (after : ℕ)
        × (counted_value env.now.mode 0 (env_of env.now) (expr_tree e.now) ≡ Ok (seen_value seen, after))) }
    ensures cause { IfErr result (IsCause (limits_of_values env.now.mode 0
        (met env.now.mode (env_of env.now) (expr_tree e.now)))) }
{
    let (seen, _) = evaluate_after(alloc, env, 0, e)?;
    Ok(seen)
}

/// The value of an expression behind others that met so many nodes, and how many are met by its end.
pub fn evaluate_after(
    alloc: Global,
    env: &Env,
    before: u64,
    e: &Expr,
) -> Result<(Seen, u64), EvalError>
    ensures value { IfOk result (λ seen.
        counted_value env.now.mode before (env_of env.now) (expr_tree e.now) ≡ Ok (seen_value seen.0, seen.1)) }
    ensures cause { IfErr result (IsCause (limits_of_values env.now.mode before
        (met env.now.mode (env_of env.now) (expr_tree e.now)))) }
{
    let scope = Scope {
        alloc,
        env,
        around: &Around::Nothing,
    };
    let mut met = before;
    let seen = value_after(scope, &mut met, e)?;
    let given = given(alloc, seen)?;
    Ok((given, met))
}

/// What was seen, for the caller.
fn given(alloc: Global, seen: Option<Held>) -> Result<Seen, Memory>
    ensures { IfOk result (λ given. seen_value given ≡ seen_held seen.entry) }
{
    match seen {
        Some(held) => {
            let value = given_value(alloc, held)?;
            Ok(Seen::Value(value))
        }
        None => Ok(Seen::Undefined),
    }
}

/// The numbers of a scalar domain, or None where it is undefined.
pub fn domain_values(alloc: Global, env: &Env, d: &Domain) -> Result<Option<Runs>, EvalError>
    ensures values { IfOk result (λ values. (after : ℕ)
        × (counted_domain env.now.mode 0 (env_of env.now) (domain_tree d.now) ≡ Ok (values, after))) }
    ensures cause { IfErr result (IsCause (limits_of_values env.now.mode 0
        (met_domain env.now.mode (env_of env.now) (domain_tree d.now)))) }
{
    let (values, _) = domain_values_after(alloc, env, 0, d)?;
    Ok(values)
}

/// The numbers of a scalar domain behind what met so many nodes, and how many are met by its end.
pub fn domain_values_after(
    alloc: Global,
    env: &Env,
    before: u64,
    d: &Domain,
) -> Result<(Option<Runs>, u64), EvalError>
    ensures values { IfOk result (λ values.
        counted_domain env.now.mode before (env_of env.now) (domain_tree d.now) ≡ Ok (values.0, values.1)) }
    ensures cause { IfErr result (IsCause (limits_of_values env.now.mode before
        (met_domain env.now.mode (env_of env.now) (domain_tree d.now)))) }
{
    let scope = Scope {
        alloc,
        env,
        around: &Around::Nothing,
    };
    if before > MOST_SIZE {
        return Err(EvalError::Limit(Limit::Size));
    }
    let mut met = before;
    let values = numbers_after(scope, &mut met, d)?;
    Ok((values, met))
}

/// A type, Int where there is none.
fn type_or_int(ty: Option<ValueType>) -> ValueType
    ensures { result ≡ unwrap_or ty EachType.Int }
{
    match ty {
        Some(own) => own,
        None => ValueType::Int,
    }
}

/// The type of an expression in a scope, Int where it has none.
pub fn type_within(scope: Scope<'_, '_>, e: &Expr) -> Result<ValueType, Memory>
    ensures { IfOk result (λ t. t ≡ defined.type_in (env_in scope.entry) (expr_tree e.now)) }
{
    let none = Vec::new(scope.alloc);
    let within = Within {
        scope,
        typed: &none,
    };
    let ty = type_of(within, e)?;
    Ok(type_or_int(ty))
}

/// The type of an expression, Int where it has none.
pub fn type_in(alloc: Global, env: &Env, e: &Expr) -> Result<ValueType, Memory>
    ensures { IfOk result (λ t. t ≡ defined.type_in (env_of env.now) (expr_tree e.now)) }
{
    let scope = Scope {
        alloc,
        env,
        around: &Around::Nothing,
    };
    let ty = type_within(scope, e)?;
    Ok(ty)
}

/// The scalar of a type, Int where there is none.
fn scalar_or_int(ty: Option<ValueType>) -> Scalar
    ensures { result ≡ unwrap_or (option_map types.scalar_of ty) EachScalar.Int }
{
    match ty {
        Some(own) => own.scalar(),
        None => Scalar::Int,
    }
}

/// What the numbers of a domain stand for, numbers where the domain has no type.
pub fn scalar_in(alloc: Global, env: &Env, d: &Domain) -> Result<Scalar, Memory>
    ensures { IfOk result (λ s. s ≡ names.scalar_in (env_of env.now) (domain_tree d.now)) }
{
    let scope = Scope {
        alloc,
        env,
        around: &Around::Nothing,
    };
    let none = Vec::new(alloc);
    let within = Within {
        scope,
        typed: &none,
    };
    let ty = domain_type(within, d)?;
    Ok(scalar_or_int(ty))
}
