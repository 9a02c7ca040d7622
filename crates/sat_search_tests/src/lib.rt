//! Tests of clauses, texts, propagation and search, by small formulas.
#![tactic(auto)]

#[cfg(test)]
mod clauses;
#[cfg(test)]
mod numbers;
#[cfg(test)]
mod searches;
#[cfg(test)]
mod states;
#[cfg(test)]
mod texts;
