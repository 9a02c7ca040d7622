//! What every crate stands on: places, names, tokens, operators, the outside, and want of memory.
#![tactic(auto)]

mod calls;
mod errors;
mod keys;
mod mem_files;
mod mem_sink;
mod names;
mod operators;
mod outside;
mod places;
mod reserved;
mod run_lists;
mod std_devices;
mod tokens;
mod words;

pub use errors::Memory;
pub use keys::Key;
pub use mem_files::MemFiles;
pub use mem_sink::MemSink;
pub use names::Name;
pub use operators::{CompareOp, LexOp, Limit, Sense};
pub use outside::{FileError, Files, PutError, Sink, put_all};
pub use places::Place;
pub use reserved::{begins_name, continues_name, is_word};
pub use run_lists::{Run, Runs};
pub use std_devices::{StdFiles, StdSink};
pub use tokens::{Token, TokenKind};
pub use words::Word;
