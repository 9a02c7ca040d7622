//! The types of small expressions and the scalars of domains, where nothing is known of names, as rows of a table.
//!
//! A row is an expression or a domain with its operators behind its parts, then its type or scalar: `b` for a truth value, `n` for
//! a number, and `B` and `N` for a list of these.

use crate::rows::{domain, expression};
use ep_eval::{Env, EvalError, scalar_in, type_in};
use ep_tree::{Mode, Scalar, ValueType};
use std::alloc::Global;
use std::test::Fail;

/// The letter of a type.
fn type_letter(ty: &ValueType) -> u8 {
    match ty {
        ValueType::Bool => b'b',
        ValueType::Int => b'n',
        ValueType::Matrix {
            dims: 1,
            of: Scalar::Bool,
        } => b'B',
        ValueType::Matrix {
            dims: 1,
            of: Scalar::Int,
        } => b'N',
        _ => b'?',
    }
}

/// The letter of the type of an expression.
fn type_of(alloc: Global, text: &[u8]) -> Result<u8, EvalError> {
    let e = expression(alloc, text)?;
    let env = Env::new(alloc, Mode::Strict);
    let ty = type_in(alloc, &env, &e)?;
    Ok(type_letter(&ty))
}

/// The letter of the scalar of a domain.
fn scalar_of(alloc: Global, text: &[u8]) -> Result<u8, EvalError> {
    let d = domain(alloc, text)?;
    let env = Env::new(alloc, Mode::Strict);
    match scalar_in(alloc, &env, &d)? {
        Scalar::Bool => Ok(b'b'),
        Scalar::Int => Ok(b'n'),
    }
}

/// Whether a row is right: that of an expression, or behind a blank that of a domain.
fn is_right(alloc: Global, row: &str) -> Result<bool, EvalError> {
    match row.as_bytes() {
        [b' ', text @ .., b' ', letter] => Ok(scalar_of(alloc, text)? == *letter),
        [text @ .., b' ', letter] => Ok(type_of(alloc, text)? == *letter),
        _ => Ok(false),
    }
}

/// Quantified names have the type of their domain, comprehensions are lists of their expression, what has no type counts as a number,
/// and the values of two domains are Boolean where both are.
const TYPES: &str = "Biq b
Bjq b
3pjq n
Bjq! b
Bid B
3pid N
y n
 x n
 B b
 BBu b
 B3pu n";

#[test]
fn expressions_and_domains_have_their_types(rt: HostRuntime) -> Result<(), Fail> {
    for row in TYPES.lines() {
        assert!(rt; is_right(rt.alloc(), row)?, "{row}");
    }
    Ok(())
}
