//! Types, values and assignments.

ghost use Rattle.std.specs.Prelude.{◌≡◌};
ghost use Rattle.ep_tree.specs.Types.{scalar_of};

use ep_base::Name;

/// What a number stands for.
#[derive(Clone, Copy, Debug, PartialEq, Eq)]
pub enum Scalar {
    Bool,
    Int,
}

/// The type of an expression.
#[derive(Clone, Copy, Debug, PartialEq, Eq)]
pub enum ValueType {
    Bool,
    Int,
    /// A matrix of this many dimensions.
    Matrix { dims: u64, of: Scalar },
    /// The literal without parts, which is of every matrix type.
    Empty,
}

impl ValueType {
    /// What the numbers in a value of the type stand for.
    #[tactic(auto, unfolding(crate::specs::Types::scalar_of))]
    pub fn scalar(self) -> Scalar
        ensures { result ≡ scalar_of self }
    {
        match self {
            ValueType::Bool | ValueType::Empty => Scalar::Bool,
            ValueType::Int => Scalar::Int,
            ValueType::Matrix { of, .. } => of,
        }
    }
}

/// A value: a number, where 1 stands for true and 0 for false, or a matrix with its indices and its
/// parts.
#[derive(Drop)]
pub enum Value {
    Number(i64),
    Matrix(Vec<i64>, Vec<Value>),
}

/// A name with its type and its value.
#[derive(Drop)]
pub struct Entry {
    pub name: Name,
    pub ty: ValueType,
    pub value: Value,
}

/// Values of names.
#[derive(Drop)]
pub struct Assignment {
    pub entries: Vec<Entry>,
}

/// How a part without a value counts.
#[derive(Clone, Copy, Debug, PartialEq, Eq)]
pub enum Mode {
    /// The nearest Boolean expression around it is false.
    Relational,
    /// Everything around it has no value either.
    Strict,
}
