//! Reads expressions and domains from the tokens of a text.
#![tactic(auto)]

mod calls;
mod errors;
mod laws;

pub use calls::{parse_domain, parse_expr};
pub use errors::ParseError;
pub use laws::{
    a_domain_has_one_outcome, a_front_is_no_higher, an_expression_has_one_outcome,
    an_outcome_goes_by_two_tokens, tokens_spell_one_tree,
};
