//! Linear pseudo-Boolean problems: their texts, what they ask for, and the flat problems that stand for them.
#![tactic(auto)]

mod content;
mod errors;
mod flat;
mod laws;
mod measure;
mod numbers;
mod reader;
mod reading;
mod sums;
mod variables;
mod words;

pub use content::{Opb, OpbRow, OpbTerm};
pub use errors::{OpbError, OpbSizeError};
pub use flat::flat_of;
pub use laws::opb_texts_have_one_meaning;
pub use measure::{MOST_REACH, MOST_WEIGHT, measure_opb};
pub use reading::{MOST_BYTES, read_opb};
pub use variables::opb_vars;
