//! Tests over whole texts: under each list of numbers for the cells, the ground of an instance says what direct evaluation
//! of its tree says.
#![tactic(auto)]

#[cfg(test)]
mod instances;
#[cfg(test)]
mod kept;
#[cfg(test)]
mod lists;
#[cfg(test)]
mod numbers;
#[cfg(test)]
mod rows;
#[cfg(test)]
mod worths;
