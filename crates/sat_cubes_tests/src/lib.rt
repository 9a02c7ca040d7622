//! Tests of cubes that are solved side by side, by small formulas.
#![tactic(auto)]

#[cfg(test)]
mod cubes;
#[cfg(test)]
mod formulas;
#[cfg(test)]
mod together;
