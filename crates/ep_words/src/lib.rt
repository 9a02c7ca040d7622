//! Reads the words of a command line as a job.
#![tactic(auto)]

mod errors;
mod job;
mod jobs;
mod modes;
mod options;
mod read;
mod settings;
mod task;
mod values;

pub use errors::WordsError;
pub use job::Job;
pub use read::{one_job_for_words, read_words};
