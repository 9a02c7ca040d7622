//! The top call: from the words and the bytes of files to the answer's text.
#![tactic(auto)]

mod answering;
mod checking;
mod errors;
mod generating;
mod judging;
mod opb;
mod replies;
mod runs;
mod summaries;
mod top;
mod verdicts;
mod wanted;
mod writing;

pub use ep_files::Status;
pub use ep_words::{Job, WordsError, read_words};
pub use top::run;
