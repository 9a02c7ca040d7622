//! Rows of tables and lexicographic orders, as clauses.
#![tactic(auto)]

mod encode;
mod orders;
mod tables;

pub use encode::encode_con;
