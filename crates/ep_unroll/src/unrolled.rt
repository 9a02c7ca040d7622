//! What an expression is unrolled to: a term for a number, or parts for a matrix.

use ep_base::Runs;
use ep_eval::Held;
use ep_ground::Term;

/// What an expression is unrolled to. What is lent belongs to the environment and is never copied to be read.
#[derive(Drop)]
pub enum Unrolled<'a> {
    /// A number or a truth value.
    Number(Term),
    /// The cells of a decision variable over index domains, from the cell of this number on.
    Cells(u64, &'a [Runs]),
    /// A value without decision variables, or none.
    Fixed(Option<Held<'a>>),
    /// The parts of a matrix, with their indices.
    Matrix(Vec<i64>, Vec<Unrolled<'a>>),
}
