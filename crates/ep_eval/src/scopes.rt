//! Where an expression is evaluated: the environment, and the numbers of the quantified names around it.

ghost use Rattle.std.specs.Prelude.{◌≡◌};
ghost use Rattle.ep_tree.specs.Environments as names;
ghost use Rattle.ep_tree.specs.Environments.{value_bound};
ghost use Rattle.ep_eval.specs.Helds.{seen_held};
ghost use Rattle.ep_eval.specs.Known.{env_of};
ghost use Rattle.ep_eval.specs.Scopes.{env_in, number_or_value, with_all};

use super::environments::Env;
use super::held::Held;
use ep_base::Name;
use ep_tree::Scalar;
use std::alloc::Global;

/// The quantified names around an expression, with the numbers that they stand for.
#[derive(Clone, Copy)]
pub enum Around<'s> {
    /// There is none.
    Nothing,
    /// The innermost one, and those around it.
    Number(&'s Around<'s>, &'s Name, Scalar, i64),
}

/// Where an expression is evaluated.
#[derive(Clone, Copy)]
pub struct Scope<'s, 'a> {
    pub alloc: Global,
    pub env: &'a Env,
    pub around: &'s Around<'s>,
}

/// The number of the innermost quantified name that is this one, where there is one. Linear in the names around.
fn number_around(around: &Around, name: &Name) -> Option<i64>
    ensures { (env : names.Env) → value_bound (with_all env around.now name.now)
        ≡ number_or_value result (value_bound (env name.now)) }
{
    match around {
        Around::Nothing => None,
        Around::Number(outer, own, _, number) => {
            if *name == **own {
                return Some(*number);
            }
            number_around(outer, name)
        }
    }
}

/// The value that a name of the environment stands for.
fn value_named<'a>(env: &'a Env, name: &Name) -> Option<Held<'a>>
    ensures { seen_held result ≡ value_bound (env_of env.now name.now) }
{
    match env.entry(name) {
        Some(entry) => Some(Held::Lent(&entry.value)),
        None => None,
    }
}

/// What a name is worth.
pub fn look_up<'a>(scope: Scope<'_, 'a>, name: &Name) -> Option<Held<'a>>
    ensures { seen_held result ≡ value_bound (env_in scope.entry name.now) }
{
    match number_around(scope.around, name) {
        Some(number) => Some(Held::Number(number)),
        None => value_named(scope.env, name),
    }
}
