//! Tests of printing: refusals, values, answers, lists of solutions and models, each beside its bytes.
#![tactic(auto)]

#[cfg(test)]
mod answers;
#[cfg(test)]
mod listings;
#[cfg(test)]
mod models;
#[cfg(test)]
mod refusals;
#[cfg(test)]
mod texts;
#[cfg(test)]
mod values;
