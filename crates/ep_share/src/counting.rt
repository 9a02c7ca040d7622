//! How often parts stand together in sums. All of this only guides which parts are cut first, so no contract speaks of it.

use crate::cutting::is_small;
use crate::pairs::Places;
use ep_base::Memory;
use ep_ground::{Ground, Node, Term};
use std::alloc::Global;

/// The least and the most places of a table of counts.
const LEAST_PLACES: usize = 1 << 12;

const MOST_PLACES: usize = 1 << 24;

/// How many places a table of counts has for each two parts that stand together.
const PLACES_FOR_TWO: usize = 8;

/// As how many more sums it counts that two parts are a term already.
const MORE_WHERE_JOINED: u8 = 3;

/// The most parts of a sum that is cut, as a number of rows and columns.
const SIDE: usize = 8;

/// How many sums two parts stand in together, and which two are a term of their own already, by a number that is made of both.
/// Other parts may have the same number, so a count may be too great.
#[derive(Drop)]
pub struct Counts {
    counts: Vec<u8>,
    /// As long as the counts.
    joined: Vec<bool>,
}

/// A word made of a coefficient.
fn word_of(coefficient: i64) -> u64 {
    let size = coefficient.unsigned_abs();
    if coefficient < 0 { !size } else { size }
}

/// A number that is made of a part: of terms that stand in a row not in a row, so that two pairs seldom have one sum.
fn mixed(part: (i64, Term)) -> u64 {
    let coefficient = word_of(part.0).wrapping_mul(0x9e37_79b9_7f4a_7c15);
    let term = u64::from(part.1.number()).wrapping_add(1);
    let both = (coefficient ^ term).wrapping_mul(0xd6e8_feb8_6659_fd93);
    (both ^ (both >> 32)).wrapping_mul(0xd6e8_feb8_6659_fd93)
}

/// The place of two parts in a table of this length, whichever of them comes first.
fn place_of(length: usize, p: (i64, Term), q: (i64, Term)) -> usize {
    let both = mixed(p).wrapping_add(mixed(q));
    let spread = (both ^ (both >> 32)).wrapping_mul(0xd6e8_feb8_6659_fd93) >> 32;
    match (spread as usize).checked_rem(length) {
        Some(place) => place,
        None => 0,
    }
}

/// The parts at two places of a sum.
fn two_of(parts: &[(i64, Term)], places: Places) -> Option<((i64, Term), (i64, Term))> {
    let p = parts.get(places.first)?;
    let q = parts.get(places.second)?;
    Some((*p, *q))
}

impl Counts {
    /// How often two parts were counted.
    fn of(&self, p: (i64, Term), q: (i64, Term)) -> u8 {
        let place = place_of(self.counts.len(), p, q);
        if place < self.counts.len() {
            self.counts[place]
        } else {
            0
        }
    }

    /// Counts two parts once more.
    fn count(&mut self, p: (i64, Term), q: (i64, Term)) {
        let place = place_of(self.counts.len(), p, q);
        if place < self.counts.len() {
            self.counts[place] = self.counts[place].saturating_add(1);
        }
    }

    /// Notes that the parts at two places of a sum are a term of their own.
    pub fn note(&mut self, parts: &[(i64, Term)], places: Places) {
        if let Some((p, q)) = two_of(parts, places) {
            let place = place_of(self.joined.len(), p, q);
            if place < self.joined.len() {
                self.joined[place] = true;
            }
        }
    }

    /// As how many more sums it counts what the parts at two places of a sum are.
    pub fn more(&self, parts: &[(i64, Term)], places: Places) -> u8 {
        let Some((p, q)) = two_of(parts, places) else {
            return 0;
        };
        let place = place_of(self.joined.len(), p, q);
        if place < self.joined.len() && self.joined[place] {
            MORE_WHERE_JOINED
        } else {
            0
        }
    }

    /// Counts each two parts of a sum once more.
    fn count_parts(&mut self, parts: &[(i64, Term)]) {
        for (place, part) in parts.iter().enumerate() {
            for other in &parts[..place] {
                self.count(*part, *other);
            }
        }
    }
}

/// How many pairs of parts a node has, where it is a sum that is cut.
fn pairs_in(node: &Node) -> usize {
    match node {
        Node::Add(_, parts) => {
            if is_small(parts) {
                parts.len() * parts.len() / 2
            } else {
                0
            }
        }
        _ => 0,
    }
}

/// How long a table of counts is for a ground.
fn places_for(g: &Ground) -> usize {
    let mut places: usize = 1;
    for term in 0..g.arena.len() {
        places = places.saturating_add(pairs_in(g.arena.node(Term::new(term as u32))));
    }
    places
        .saturating_mul(PLACES_FOR_TWO)
        .clamp(LEAST_PLACES, MOST_PLACES)
}

/// How many sums of a ground each two parts stand in together. Linear in the nodes and their parts.
pub fn counts_of(alloc: Global, g: &Ground) -> Result<Counts, Memory> {
    let places = places_for(g);
    let mut counts = Counts {
        counts: vec![in alloc; 0_u8; places]?,
        joined: vec![in alloc; false; places]?,
    };
    for term in 0..g.arena.len() {
        if let Node::Add(_, parts) = g.arena.node(Term::new(term as u32)) {
            if is_small(parts) {
                counts.count_parts(parts);
            }
        }
    }
    Ok(counts)
}

/// How many sums the parts of one sum stand in together, two by two, at most: a row and a column for each part.
#[derive(Drop)]
pub struct Tally {
    together: Vec<u8>,
    /// The row of each part that is left.
    rows: Vec<usize>,
}

/// The count in a row and a column.
fn at(together: &[u8], row: usize, column: usize) -> u8 {
    let place = row.wrapping_mul(SIDE).wrapping_add(column);
    if place < together.len() {
        together[place]
    } else {
        0
    }
}

/// The row of a part.
fn row_of(rows: &[usize], place: usize) -> usize {
    if place < rows.len() { rows[place] } else { 0 }
}

/// A tally of these parts.
pub fn tally_of(alloc: Global, counts: &Counts, parts: &[(i64, Term)]) -> Result<Tally, Memory> {
    let mut tally = Tally {
        together: Vec::new(alloc),
        rows: Vec::new(alloc),
    };
    for (row, part) in parts.iter().enumerate() {
        tally.rows.push(row)?;
        for column in 0..SIDE {
            let count = if column < parts.len() {
                counts.of(*part, parts[column])
            } else {
                0
            };
            tally.together.push(count)?;
        }
    }
    Ok(tally)
}

impl Tally {
    /// How many sums the parts at two places stand in together, at most.
    pub fn together(&self, places: Places) -> u8 {
        let row = row_of(&self.rows, places.first);
        let column = row_of(&self.rows, places.second);
        at(&self.together, row, column)
    }

    /// Makes the parts at two places one, at the earlier place: it stands with another where both do.
    pub fn join(&mut self, places: Places) {
        let row = row_of(&self.rows, places.first);
        let other = row_of(&self.rows, places.second);
        for column in 0..SIDE {
            let least = at(&self.together, row, column).min(at(&self.together, other, column));
            self.set(row, column, least);
            self.set(column, row, least);
        }
        if places.second < self.rows.len() {
            self.rows.remove(places.second);
        }
    }

    /// Sets the count in a row and a column.
    fn set(&mut self, row: usize, column: usize, count: u8) {
        let place = row.wrapping_mul(SIDE).wrapping_add(column);
        if place < self.together.len() {
            self.together[place] = count;
        }
    }
}
