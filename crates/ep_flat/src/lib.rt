//! Flat constraints over variables with finite domains, and what it means that they are met.
#![tactic(auto)]

mod flats;

pub use flats::{CellMap, Con, ConKind, Flat};
