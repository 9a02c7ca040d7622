//! Instances as grounds: quantifiers and comprehensions are written out, and what no decision variable decides is evaluated.
#![tactic(auto)]

mod blocks;
mod cells;
mod choices;
mod chosen_values;
mod clauses;
mod comprehensions;
mod entries;
mod expressions;
mod firsts;
mod fixed;
mod fixed_lists;
mod flattening;
mod forms;
mod growing;
mod lefts;
mod list_forms;
mod listing;
mod literals;
mod matrices;
mod members;
mod named;
mod needs;
mod numbers;
mod picks;
mod powers;
mod products;
mod quantifiers;
mod reads;
mod scalars;
mod sets;
mod slots;
mod summing;
mod sums;
mod totals;
mod truths;
mod unrolled;
mod unrolling;
mod wholes;

pub use unrolling::unroll;
