//! What is said of judgements, of verdicts on proofs, and of the texts of a number.
#![tactic(auto)]

mod judgements;
mod summaries;
mod verdicts;

pub use judgements::{judgement_text, wrong_shape_text};
pub use summaries::summary_text;
pub use verdicts::verdict_text;
