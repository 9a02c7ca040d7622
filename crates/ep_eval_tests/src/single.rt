//! What is no row of a table: a number that is no digit, and an environment that is copied.

use ep_base::{Name, Place};
use ep_eval::{Env, EvalError, Seen, evaluate};
use ep_tree::{Expr, Kind, Mode, Value};
use std::alloc::Global;
use std::test::Fail;

/// What a number is worth, and none where that is refused for a limit.
fn worth(alloc: Global, number: i64) -> Option<i64> {
    let place = Place { line: 1, column: 1 };
    let kind = Kind::Number(number);
    let env = Env::new(alloc, Mode::Strict);
    match evaluate(alloc, &env, &Expr { place, kind }) {
        Ok(Seen::Value(Value::Number(number))) => Some(number),
        Err(EvalError::Limit(_)) => None,
        _ => Some(0),
    }
}

#[test]
fn a_number_too_far_from_0_is_refused(rt: HostRuntime) {
    let far = worth(rt.alloc(), 1_099_511_627_777);
    assert_eq!(rt; far, None);
    let near = worth(rt.alloc(), -1_099_511_627_776);
    assert_eq!(rt; near, Some(-1_099_511_627_776));
}

/// Whether a copied environment has the mode of the first, and no name.
fn is_copied(alloc: Global) -> Result<bool, Fail> {
    let env = Env::new(alloc, Mode::Strict);
    let copy = env.copy()?;
    let name = Name::new(alloc, "m")?;
    Ok(matches!(copy.mode(), Mode::Strict) && copy.entry(&name).is_none())
}

#[test]
fn a_copied_environment_keeps_its_mode(rt: HostRuntime) -> Result<(), Fail> {
    assert!(rt; is_copied(rt.alloc())?);
    Ok(())
}
