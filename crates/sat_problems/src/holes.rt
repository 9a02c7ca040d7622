//! Pigeons and their holes.

use crate::{Numbers, add_at_most_one};
use std::alloc::{AllocError, Global};

// The variable that says that a pigeon has a hole.
fn sits(pigeon: i64, hole: i64, holes: i64) -> i64 {
    pigeon
        .wrapping_mul(holes)
        .wrapping_add(hole)
        .wrapping_add(1)
}

/// Each pigeon has a hole, and no hole has two pigeons.
pub fn pigeons(alloc: Global, pigeons: i64, holes: i64) -> Result<Numbers, AllocError> {
    let mut clauses = Vec::new(alloc);
    for pigeon in 0..pigeons {
        let mut numbers = Vec::new(alloc);
        for hole in 0..holes {
            numbers.push(sits(pigeon, hole, holes))?;
        }
        clauses.push(numbers)?;
    }
    for hole in 0..holes {
        let mut numbers = Vec::new(alloc);
        for pigeon in 0..pigeons {
            numbers.push(sits(pigeon, hole, holes))?;
        }
        add_at_most_one(alloc, &mut clauses, numbers.as_slice())?;
    }
    Ok(clauses)
}
