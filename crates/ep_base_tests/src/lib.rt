//! Tests of the devices, and of what every crate stands on.
#![tactic(auto)]

#[cfg(test)]
mod calls;
#[cfg(test)]
mod devices;
