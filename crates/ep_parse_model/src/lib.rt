//! Reads whole texts as models.
#![tactic(auto)]

mod calls;
mod groups;
mod laws;
mod lettings;
mod openings;
mod parts;
mod places;
mod text_errors;
mod texts;

pub use calls::{parse_model, parse_params};
pub use laws::{texts_have_one_answer, tokens_spell_one_text};
pub use text_errors::TextError;
