//! The trees of the language, its values, and the definitions of what a text means.
#![tactic(auto)]

mod laws;
mod statements;
mod syntax;
mod values;

pub use laws::{
    domains_are_sets, first_faults_are_unique, hiding_is_lexical, quotient_is_the_floor,
    readings_exclude_heights, values_are_of_their_types,
};
pub use statements::{Declared, Model, Objective, Params, Statement, StatementKind};
pub use syntax::{
    BinaryOp, Domain, DomainKind, Expr, FoldOp, Generator, Kind, QuantOp, Range, SetOp,
};
pub use values::{Assignment, Entry, Mode, Scalar, Value, ValueType};
