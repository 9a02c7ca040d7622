//! Instances, and what binding and judging make of domains, values and conditions.
#![tactic(auto)]

mod bounds;
mod conditions;
mod elements;
mod errors;
mod fitted;
mod fitting;
mod indices;
mod instances;
mod listed;
mod opened;
mod shapes;

pub use bounds::seen_number;
pub use conditions::{check_conditions, is_true, number_after};
pub use elements::Elements;
pub use errors::{BindError, Source};
pub use fitted::{bind_fitted, missing, put_value, scalar_of, type_of_shape};
pub use fitting::fit;
pub use instances::{Find, Instance};
pub use listed::{Listed, read_listed};
pub use opened::{Opened, read_opened};
pub use shapes::{Shape, given_shape, shape_from};
