//! What a read that finds nothing gives, by the read's type.

ghost use Rattle.std.specs.Prelude.{◌≡◌, pos, Some, None, IfOk, if◌then◌else◌, unwrap_or};
ghost use Rattle.ep_base.specs.declared.places.Place.{Place};
ghost use Rattle.ep_tree.specs.Evaluation.{read_result, type_in};
ghost use Rattle.ep_tree.specs.Trees as trees;
ghost use Rattle.ep_tree.specs.Types as types;
ghost use Rattle.ep_tree.specs.Values.{single};
ghost use Rattle.ep_tree.specs.Views.{expr_tree, indices_of};
ghost use Rattle.ep_tree.specs.declared.values.ValueType.{ValueType as EachType};
ghost use Rattle.ep_eval.specs.Helds.{seen_held};
ghost use Rattle.ep_eval.specs.Scopes.{env_in, mode_in};

use super::held::{Held, held_truth};
use super::judging::{indices_fit, type_of};
use super::rules::read_by;
use super::scopes::Scope;
use super::within::Within;
use ep_base::Memory;
use ep_tree::{Expr, Mode, ValueType};
use ep_types_rules::is_boolean;

/// Whether there is a type, and it is Boolean.
#[tactic(auto, unfolding(ep_tree::specs::Types::is_boolean))]
fn is_boolean_type(ty: Option<ValueType>) -> bool
    ensures { result ≡ types.is_boolean (unwrap_or ty EachType.Int) }
{
    match ty {
        Some(own) => is_boolean(own),
        None => false,
    }
}

/// Whether a read has a Boolean type.
fn is_boolean_read(
    scope: Scope<'_, '_>,
    matrix: &Expr,
    indices: &[Option<Expr>],
) -> Result<bool, Memory>
    ensures { IfOk result (λ boolean. (p : Place) → boolean ≡ types.is_boolean (type_in (env_in scope.entry)
        (trees.read p (expr_tree matrix.now) (indices_of indices.now)))) }
{
    let none = Vec::new(scope.alloc);
    let within = Within {
        scope,
        typed: &none,
    };
    let ty = type_of(within, matrix)?;
    let integer = indices_fit(within, indices)?;
    let own = read_by(ty, integer, indices);
    Ok(is_boolean_type(own))
}

/// False, where it is asked for.
fn false_if<'a>(asked: bool) -> Option<Held<'a>>
    ensures { seen_held result ≡ (if asked then Some (single (pos 0)) else None) }
{
    if asked {
        return held_truth(false);
    }
    None
}

/// What a read gives, by what was found.
pub fn given_read<'a>(
    scope: Scope<'_, 'a>,
    matrix: &Expr,
    indices: &[Option<Expr>],
    found: Option<Held<'a>>,
) -> Result<Option<Held<'a>>, Memory>
    ensures { IfOk result (λ given. (p : Place) → seen_held given ≡ read_result (mode_in scope.entry)
        (type_in (env_in scope.entry) (trees.read p (expr_tree matrix.now) (indices_of indices.now)))
        (seen_held found.entry)) }
{
    match found {
        Some(held) => Ok(Some(held)),
        None => match scope.env.mode() {
            Mode::Strict => Ok(None),
            Mode::Relational => {
                let boolean = is_boolean_read(scope, matrix, indices)?;
                Ok(false_if(boolean))
            }
        },
    }
}
