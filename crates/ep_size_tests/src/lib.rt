//! Tests over whole texts: which instance each has in both modes of undefinedness, how solution texts are judged, what
//! expressions are worth, and how great instances are.
#![tactic(auto)]

#[cfg(test)]
mod bound;
#[cfg(test)]
mod measured;
#[cfg(test)]
mod reaches;
#[cfg(test)]
mod tables;
#[cfg(test)]
mod texts;
#[cfg(test)]
mod values;
