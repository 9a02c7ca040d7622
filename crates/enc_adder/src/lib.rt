//! Wide sums by binary adders, as clauses.
#![tactic(auto)]

mod adding;
mod bits;
mod comparing;
mod encode;
mod gates;
mod linear;
mod parts;
mod rows;
mod sides;

pub use encode::encode_con;
