//! The rules of types, by which texts are checked and values are typed.
#![tactic(auto)]

mod errors;
mod rules;
mod types;

pub use errors::StaticError;
pub use rules::{
    are_integer, are_lists, binary, both, both_integer, check_open, comprehension, count_slices,
    counting, flattened, folded, gives, is_power, leaves_matrix, list, matrix, may_decide_indices,
    may_have_ranges, quantified, read, set,
};
pub use types::{
    all_boolean, all_have_dimensions, all_integer, all_matrix, all_matrix_of_bool, bool_if,
    both_scalars, has_dimensions, is_boolean, is_integer, is_matrix, is_matrix_of_bool, left_type,
    of_scalar, stated_dimensions,
};
