//! How great an instance is: its size, its weight, and the numbers that it reaches.
#![tactic(auto)]

mod cells;
mod domains;
mod errors;
mod expressions;
mod extending;
mod extents;
mod folds;
mod forms;
mod generating;
mod groups;
mod hulls;
mod indices;
mod instances;
mod intervals;
mod lists;
mod matrices;
mod measuring;
mod named;
mod nodes;
mod parted;
mod picked;
mod powers;
mod reading;
mod reads;
mod remaining;
mod row_counts;
mod scalars;
mod settling;
mod slices;
mod standing;
mod sums;
mod totals;
mod widths;

pub use errors::SizeError;
pub use measuring::{Measures, measure};
pub use standing::{Hidden, Standing, is_free_domain, standing_in};
