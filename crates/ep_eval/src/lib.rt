//! The value of an expression under an environment, by direct evaluation of its tree.
#![tactic(auto)]

mod binaries;
mod copies;
mod counted;
mod counts;
mod domains;
mod environments;
mod errors;
mod evaluating;
mod evaluation;
mod families;
mod folds;
mod forms;
mod gathering;
mod generating;
mod held;
mod judging;
mod literals;
mod meter;
mod numbers;
mod operands;
mod orders;
mod powers;
mod reads;
mod rules;
mod scalars;
mod scopes;
mod sets;
mod totals;
mod typing;
mod walking;
mod within;
mod worth;

pub use counted::{numbers_after, value_after};
pub use environments::{Env, NamedDomain};
pub use errors::EvalError;
pub use evaluating::{numbers_of, value_of};
pub use evaluation::{
    Seen, domain_values, domain_values_after, evaluate, evaluate_after, scalar_in, type_in,
    type_within,
};
pub use generating::Ranging;
pub use held::{Held, number_of};
pub use meter::{MOST_SIZE, Meter, count_name, is_over};
pub use scalars::scalar_of;
pub use scopes::{Around, Scope};
pub use walking::{Walk, next_number, walk_of};
