//! Tests of pseudo-Boolean problems: texts beside what they say or why they are refused, their weights, and their flat problems.
#![tactic(auto)]

#[cfg(test)]
mod flats;
#[cfg(test)]
mod texts;
#[cfg(test)]
mod told;
#[cfg(test)]
mod weights;
