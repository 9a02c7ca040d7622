//! What a node is worth once its parts have their values.

ghost use Rattle.std.specs.Prelude.{IfOk};
ghost use Rattle.ep_eval.specs.Meters.{IsMadeOf};

use super::errors::EvalError;
use super::held::Held;
use ep_base::Memory;

/// What a node is worth.
#[derive(Drop)]
pub enum Worth<'a> {
    /// Its value, if it has one.
    Seen(Option<Held<'a>>),
    /// A number too far from 0 is at it.
    Far,
}

/// What an operator gave, as a worth.
#[tactic(auto, unfolding(crate::specs::Meters::IsMadeOf))]
pub fn worth_of<'a>(given: Result<Option<Held<'a>>, EvalError>) -> Result<Worth<'a>, Memory>
    ensures { IfOk result (IsMadeOf given.entry) }
{
    match given {
        Ok(seen) => Ok(Worth::Seen(seen)),
        Err(EvalError::Limit(_)) => Ok(Worth::Far),
        Err(EvalError::Memory) => Err(Memory),
    }
}
