//! What reading expressions and domains is made of: the tokens that are left, what words mean, and trees made of parts
//! that were read.
#![tactic(auto)]

mod cursor;
mod domain_nodes;
mod found;
mod list_nodes;
mod lists;
mod lone_numbers;
mod nodes;
mod parts;
mod words;

pub use cursor::{Cursor, Stop};
pub use domain_nodes::{booleans, group_domain, integers, named_domain, set_domain};
pub use found::{Found, FoundDomain, above};
pub use list_nodes::{comprehension, literal, matrix, of_ranges, read};
pub use lists::names;
pub use lone_numbers::lone_number;
pub use nodes::{
    absolute, call_of_one, call_of_three, compared, extreme, folded, group, in_domain, in_set,
    joined, lex_compared, minus, named, negation, number, quantified, table, truth,
};
pub use parts::{Domains, End, Generators, Index, Indices, Parts, Ranges, Terms};
pub use words::{
    Chain, Comparison, DomainLevel, DomainOpening, Level, OnePart, Opening, ThreeParts,
    find_comparison, find_domain_opening, find_opening, find_set_operation, find_sign,
};
