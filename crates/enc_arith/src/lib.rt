//! Functions of variables as clauses: products, quotients, remainders, powers, absolute values,
//! least and greatest parts, and elements.
#![tactic(auto)]

mod constraints;
mod elements;
mod encode;
mod extremes;
mod functions;
mod numbers;
mod operations;
mod runs;
mod sides;
mod targets;
mod telling;

pub use encode::encode_con;
