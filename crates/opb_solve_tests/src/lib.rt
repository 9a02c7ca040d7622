//! Tests of the answers of pseudo-Boolean problems: texts beside what is said of them, or why they are refused.
#![tactic(auto)]

#[cfg(test)]
mod rows;
#[cfg(test)]
mod said;
