//! What is said of a search in an instance, which goes by clauses and the solver.

ghost use Rattle.std.specs.Prelude.{◌≡◌, ◌≤◌, [], IfOk};
ghost use Rattle.std.specs.List.{All};
ghost use Rattle.ep_base.specs.Reads.{IsWithinNumbers};
ghost use Rattle.ep_tree.specs.Closed.{IsClosed};
ghost use Rattle.ep_tree.specs.Solutions.{instance_limits};
ghost use Rattle.ep_instance_parts.specs.Instances.{plain_instance, instance_mode};
ghost use Rattle.ep_print.specs.Answers.{answer_tree};
ghost use Rattle.ep_print.specs.Listings.{end_tree};
ghost use Rattle.ep_solve.specs.Right.{empty_log};
ghost use Rattle.sat_search.specs.Logs.{IsSound};
ghost use Rattle.ep_driver.specs.Answers.{Settles, answer_status, listing_status, spent_status};
ghost use Rattle.ep_driver.specs.Outcomes.{searched_task, to_divide, to_explain, to_list, to_solve};
ghost use Rattle.ep_driver.specs.Searches.{HasFewCubes, HasSoundSteps};
ghost use Rattle.ep_driver.specs.Steps.{IsSearched, IsSearchedFor};
ghost use Rattle.ep_driver.specs.declared.wanted.Request.{Request as Requested};

use super::replies::Reply;
use super::summaries::summed_reply;
use super::wanted::Request;
use cnf_core::Log;
use ep_base::Memory;
use ep_divided::solve_in_cubes;
use ep_explain_text::tell;
use ep_files::Status;
use ep_instance::Instance;
use ep_print::{Answer, ListingEnd, print_answer, print_listing};
use ep_solve::{enumerate, solve};
use std::alloc::Global;
use std::thread::Threads;

/// What is said of a search in an instance, and with which status.
#[tactic(auto, unfolding(crate::specs::Outcomes::searched_task, crate::specs::Commands::conflicts_wanted))]
pub fn searched_reply<R: Threads + Sync>(
    rt: &R,
    alloc: Global,
    instance: &Instance,
    request: Request,
    log: &mut Log,
) -> Result<Reply, Memory>
    requires closed { IsClosed (plain_instance instance.now) }
    requires numbers { All (λ f. All IsWithinNumbers f.values) (plain_instance instance.now).finds }
    requires within { instance_limits (instance_mode instance.now) (plain_instance instance.now) ≡ [] }
    requires empty { log.old ≡ empty_log }
    requires few { HasFewCubes request }
    ensures answers { IfOk result (λ reply.
        Settles (searched_task (instance_mode instance.now) request (plain_instance instance.now)) reply.status reply.text.items log.new) }
    ensures ends { IfOk result (λ reply. IsSearchedFor request reply.status log.new) }
    ensures sound { HasSoundSteps request log.new.events }
{
    match request {
        Request::One { conflicts } => solved_reply(alloc, instance, conflicts, log),
        Request::Divided { cubes, conflicts } => {
            divided_reply(rt, alloc, instance, cubes, conflicts, log)
        }
        Request::Many { most, conflicts } => listed_reply(alloc, instance, most, conflicts, log),
        Request::Explained { conflicts } => explained_reply(alloc, instance, conflicts, log),
        Request::Generated { number, conflicts } => {
            summed_reply(alloc, instance, number, conflicts, log)
        }
    }
}

/// What is said of the answer of an instance within so many conflicts.
fn solved_reply(
    alloc: Global,
    instance: &Instance,
    conflicts: u64,
    log: &mut Log,
) -> Result<Reply, Memory>
    requires closed { IsClosed (plain_instance instance.now) }
    requires numbers { All (λ f. All IsWithinNumbers f.values) (plain_instance instance.now).finds }
    requires within { instance_limits (instance_mode instance.now) (plain_instance instance.now) ≡ [] }
    requires empty { log.old ≡ empty_log }
    ensures answers { IfOk result (λ reply.
        Settles (to_solve (instance_mode instance.now) (plain_instance instance.now) conflicts) reply.status reply.text.items log.new) }
    ensures ends { IfOk result (λ reply. IsSearched conflicts reply.status log.new) }
    ensures sound { IsSound log.new.events }
{
    let answer = solve(alloc, instance, conflicts, log)?;
    let text = print_answer(alloc, &answer)?;
    Ok(Reply {
        status: answer_status(&answer),
        text,
    })
}

/// What is said of the answer of an instance that comes by cubes, each solved within so many conflicts.
fn divided_reply<R: Threads + Sync>(
    rt: &R,
    alloc: Global,
    instance: &Instance,
    cubes: u64,
    conflicts: u64,
    log: &mut Log,
) -> Result<Reply, Memory>
    requires closed { IsClosed (plain_instance instance.now) }
    requires numbers { All (λ f. All IsWithinNumbers f.values) (plain_instance instance.now).finds }
    requires within { instance_limits (instance_mode instance.now) (plain_instance instance.now) ≡ [] }
    requires empty { log.old ≡ empty_log }
    requires few { cubes ≤ 6 }
    ensures answers { IfOk result (λ reply.
        Settles (to_divide (instance_mode instance.now) (plain_instance instance.now) cubes conflicts) reply.status reply.text.items log.new) }
    ensures ends { IfOk result (λ reply. IsSearchedFor (Requested.Divided cubes conflicts) reply.status log.new) }
    ensures sound { HasSoundSteps (Requested.Divided cubes conflicts) log.new.events }
{
    let answer = solve_in_cubes(rt, alloc, instance, cubes, conflicts, log)?;
    let text = print_answer(alloc, &answer)?;
    Ok(Reply {
        status: answer_status(&answer),
        text,
    })
}

/// What is said of at most so many solutions of an instance, within so many conflicts.
fn listed_reply(
    alloc: Global,
    instance: &Instance,
    most: u64,
    conflicts: u64,
    log: &mut Log,
) -> Result<Reply, Memory>
    requires closed { IsClosed (plain_instance instance.now) }
    requires numbers { All (λ f. All IsWithinNumbers f.values) (plain_instance instance.now).finds }
    requires within { instance_limits (instance_mode instance.now) (plain_instance instance.now) ≡ [] }
    requires empty { log.old ≡ empty_log }
    ensures answers { IfOk result (λ reply.
        Settles (to_list (instance_mode instance.now) (plain_instance instance.now) most conflicts) reply.status reply.text.items log.new) }
    ensures ends { IfOk result (λ reply. IsSearched conflicts reply.status log.new) }
    ensures sound { IsSound log.new.events }
{
    let listing = enumerate(alloc, instance, most, conflicts, log)?;
    let text = print_listing(alloc, &listing)?;
    Ok(Reply {
        status: listing_status(listing.end),
        text,
    })
}

/// What is told of why an instance has no solution, each attempt within so many conflicts.
fn explained_reply(
    alloc: Global,
    instance: &Instance,
    conflicts: u64,
    log: &mut Log,
) -> Result<Reply, Memory>
    requires closed { IsClosed (plain_instance instance.now) }
    requires numbers { All (λ f. All IsWithinNumbers f.values) (plain_instance instance.now).finds }
    requires within { instance_limits (instance_mode instance.now) (plain_instance instance.now) ≡ [] }
    requires empty { log.old ≡ empty_log }
    ensures answers { IfOk result (λ reply.
        Settles (to_explain (instance_mode instance.now) (plain_instance instance.now) conflicts) reply.status reply.text.items log.new) }
    ensures ends { IfOk result (λ reply. IsSearched conflicts reply.status log.new) }
    ensures sound { IsSound log.new.events }
{
    let told = tell(alloc, instance, conflicts, log)?;
    Ok(Reply {
        status: spent_status(told.is_open),
        text: told.text,
    })
}

/// How a run ends whose conflicts were spent, or that has an answer.
pub fn spent_status(spent: bool) -> Status
    ensures { result ≡ spent_status spent }
{
    if spent {
        return Status::Unknown;
    }
    Status::Answered
}

/// How a run ends that has an answer.
#[tactic(auto, unfolding(crate::specs::Answers::answer_status, ep_print::specs::Answers::answer_tree, ep_print::specs::Answers::unknown_tree))]
pub fn answer_status(answer: &Answer) -> Status
    ensures { result ≡ answer_status (answer_tree answer.now) }
{
    match answer {
        Answer::Solution(_) | Answer::Optimum(_, _) | Answer::NoSolution => Status::Answered,
        Answer::Unknown {
            incumbent: None,
            ..
        } => Status::Unknown,
        Answer::Unknown {
            incumbent: Some(_),
            ..
        } => Status::Unknown,
    }
}

/// How a run ends that has a list.
#[tactic(auto, unfolding(crate::specs::Answers::listing_status, ep_print::specs::Listings::end_tree))]
fn listing_status(end: ListingEnd) -> Status
    ensures { result ≡ listing_status (end_tree end) }
{
    match end {
        ListingEnd::Complete => Status::Answered,
        ListingEnd::Stopped => Status::Answered,
        ListingEnd::Spent { .. } => Status::Unknown,
    }
}
