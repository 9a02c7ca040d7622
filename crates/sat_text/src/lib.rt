//! Reads and writes the texts of formulas and of proofs.
#![tactic(auto)]

mod clauses;
mod cnf;
mod faults;
mod formula;
mod header;
mod items;
mod laws;
mod notes;
mod numbers;
mod proof;
mod words;
mod writing;

pub use cnf::{CnfError, CnfFile, read_cnf};
pub use laws::{
    cnf_texts_have_one_meaning, lines_are_read_again, log_texts_have_one_meaning, notes_are_spelled,
};
pub use proof::{LogError, read_log};
pub use writing::{write_cnf, write_log};

/// The greatest number of bytes of a text that is read.
pub const MOST_BYTES: usize = 1_073_741_824;
