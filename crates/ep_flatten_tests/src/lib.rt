//! Tests of simplification and of flattening, by what small grounds come to.
#![tactic(auto)]

#[cfg(test)]
mod bounds;
#[cfg(test)]
mod grounds;
#[cfg(test)]
mod rows;
#[cfg(test)]
mod simplified;
#[cfg(test)]
mod terms;
