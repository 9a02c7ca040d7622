//! The solutions of an instance, one after another.

ghost use Rattle.std.specs.Prelude.{◌≡◌, [], map, IfOk};
ghost use Rattle.std.specs.List.{All};
ghost use Rattle.ep_answer.specs.AnswerViews.{plain_end};
ghost use Rattle.ep_base.specs.Reads.{IsWithinNumbers};
ghost use Rattle.ep_instance_parts.specs.Instances.{find_of, plain_instance, instance_mode};
ghost use Rattle.ep_print.specs.Listings.{end_tree, listing_tree};
ghost use Rattle.ep_solve.specs.Listed.{Lists};
ghost use Rattle.ep_solve.specs.Reading.{end_from, listing_from};
ghost use Rattle.ep_solve.specs.Right.{empty_log};
ghost use Rattle.ep_tree.specs.Closed.{IsClosed};
ghost use Rattle.ep_tree.specs.Solutions.{instance_limits};
ghost use Rattle.sat_search.specs.Logs.{IsSound};

use crate::formulas::formula_for;
use crate::posing::posed;
use crate::reading_back::assignment_from;
use cnf_core::Log;
use ep_answer::{CellListing, End};
use ep_base::Memory;
use ep_instance_parts::{Find, Instance};
use ep_print::{Listing, ListingEnd};
use std::alloc::Global;

/// At most so many solutions of an instance, none twice, and whether these are all, within so many
/// conflicts over all of them. An objective only has to have a value. The formula, a given for each solution
/// which blocks it, and the solver's steps stand in the log then, and each step is sound, however it ends.
pub fn enumerate(
    alloc: Global,
    instance: &Instance,
    most: u64,
    budget: u64,
    log: &mut Log,
) -> Result<Listing, Memory>
    requires closed { IsClosed (plain_instance instance.now) }
    requires within { instance_limits (instance_mode instance.now) (plain_instance instance.now) ≡ [] }
    requires values { All (λ f. All IsWithinNumbers f.values) (plain_instance instance.now).finds }
    requires empty { log.old ≡ empty_log }
    ensures lists { IfOk result (λ listing.
        Lists (instance_mode instance.now) (plain_instance instance.now) budget most log.new (listing_tree listing)) }
    ensures sound { IsSound log.new.events }
{
    let encoded = formula_for(alloc, instance)?;
    let mut problem = posed(alloc, encoded, log)?;
    let found = ep_answer::enumerate(alloc, &mut problem, most, budget, log)?;
    listing_from(alloc, instance.finds(), budget, found)
}

/// A list of numbers of the cells as one of values of the decision variables.
fn listing_from(
    alloc: Global,
    finds: &[Find],
    budget: u64,
    listing: CellListing,
) -> Result<Listing, Memory>
    ensures { IfOk result (λ read. listing_tree read ≡ listing_from (map find_of finds.now) budget
        (map (λ cells. cells.items) listing.found.items) (plain_end listing.end)) }
{
    let mut found = Vec::new(alloc);
    for cells in &listing.found {
        found.push(assignment_from(alloc, finds, cells)?)?;
    }
    Ok(Listing {
        found,
        end: end_from(listing.end, budget),
    })
}

/// The end of a list, where so many conflicts might be spent.
#[tactic(auto, unfolding(crate::specs::Reading::end_from, ep_print::specs::Listings::end_tree))]
fn end_from(end: End, budget: u64) -> ListingEnd
    ensures { end_tree result ≡ end_from budget (plain_end end) }
{
    match end {
        End::Complete => ListingEnd::Complete,
        End::Stopped => ListingEnd::Stopped,
        End::Spent => ListingEnd::Spent { conflicts: budget },
    }
}
