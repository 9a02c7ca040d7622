//! Sums compared with numbers, and membership in sets, as clauses.
#![tactic(auto)]

mod apart;
mod bounds;
mod comparing;
mod comparison;
mod encode;
mod folding;
mod guards;
mod joining;
mod linear;
mod making;
mod member;
mod new_terms;
mod sources;
mod sums;
mod terms;

pub use encode::encode_con;
