//! Tests of whole runs: words and files in, bytes and a status out.
#![tactic(auto)]

#[cfg(test)]
mod calls;
#[cfg(test)]
mod certificates;
#[cfg(test)]
mod cubed;
#[cfg(test)]
mod devices;
#[cfg(test)]
mod explained;
#[cfg(test)]
mod generated;
#[cfg(test)]
mod problems;
#[cfg(test)]
mod runs;
