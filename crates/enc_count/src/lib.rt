//! Different variables and counts of values, as clauses.
#![tactic(auto)]

mod counts;
mod different;
mod encode;

pub use encode::encode_con;
