//! Reads the files of a run: how a run may end, why it stops before it has an answer, and what texts are read as.
#![tactic(auto)]

mod errors;
mod reading;
mod status;
mod stops;

pub use reading::{
    model_in, params_in, read_bytes, read_formula, read_model, read_named_params, read_params,
    read_proof,
};
pub use status::{Status, status_of};
pub use stops::Stop;
