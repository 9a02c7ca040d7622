//! Lists of solutions.

ghost use Rattle.std.specs.Prelude.{◌≡◌, ◌++◌, map, IfOk, OnOk};
ghost use Rattle.ep_tree.specs.Views.{assigned};
ghost use Rattle.ep_print.specs.Listings.{end_text, end_tree, listing_text, listing_tree, solution_text, solution_texts};

use crate::answers::{LANGUAGE_LINE, push_found, push_unknown};
use crate::numbers::push_natural;
use ep_base::Memory;
use ep_tree::Assignment;
use std::alloc::{AllocError, Global};

/// Some solutions, and how their list ends.
#[derive(Drop)]
pub struct Listing {
    /// The solutions.
    pub found: Vec<Assignment>,
    /// Why there are no more.
    pub end: ListingEnd,
}

/// How a list of solutions ends.
#[derive(Clone, Copy, Debug, PartialEq, Eq)]
pub enum ListingEnd {
    /// There is no further one.
    Complete,
    /// There are as many as were wanted.
    Stopped,
    /// The budget was spent.
    Spent { conflicts: u64 },
}

/// The text of a list of solutions.
pub fn print_listing(alloc: Global, listing: &Listing) -> Result<Vec<u8>, Memory>
    ensures text { IfOk result (λ text. text.items ≡ listing_text (listing_tree listing.now)) }
{
    let mut text = Vec::from_slice(alloc, LANGUAGE_LINE)?;
    push_solutions(&mut text, &listing.found)?;
    push_end(&mut text, &listing.found, listing.end)?;
    Ok(text)
}

/// The solutions, with numbers from 1 on.
fn push_solutions(text: &mut Vec<u8>, found: &[Assignment]) -> Result<(), AllocError>
    ensures { OnOk result (text.new.items
        ≡ text.old.items ++ solution_texts 1 (map assigned found.now)) }
{
    let mut number = 1;
    for solution in found {
        push_solution(text, number, solution)?;
        number += 1;
    }
    Ok(())
}

/// A solution with its number.
#[tactic(auto, unfolding(crate::specs::Listings::solution_text))]
fn push_solution(text: &mut Vec<u8>, number: u64, solution: &Assignment) -> Result<(), AllocError>
    ensures { OnOk result (text.new.items
        ≡ text.old.items ++ solution_text number (assigned solution.now)) }
{
    text.extend_from_slice(b"$ solution ")?;
    push_natural(text, number)?;
    push_found(text, b"\n", solution)?;
    Ok(())
}

/// How a list of these solutions ends.
#[tactic(auto, unfolding(crate::specs::Listings::end_text, crate::specs::Listings::end_tree))]
fn push_end(text: &mut Vec<u8>, found: &[Assignment], end: ListingEnd) -> Result<(), AllocError>
    ensures { OnOk result (text.new.items
        ≡ text.old.items ++ end_text (map assigned found.now) (end_tree end)) }
{
    match end {
        ListingEnd::Complete if found.is_empty() => text.extend_from_slice(b"$ no solution\n"),
        ListingEnd::Complete => text.extend_from_slice(b"$ complete\n"),
        ListingEnd::Stopped => Ok(()),
        ListingEnd::Spent { conflicts } => push_unknown(text, conflicts),
    }
}
