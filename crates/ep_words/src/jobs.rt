//! What settings ask for.

ghost use Rattle.std.specs.Prelude.{◌≡◌, MatchResult};
ghost use Rattle.ep_words.specs.Jobs.{job_of, job_of_task, job_within, solve_options, solve_job, enumerate_options, enumerate_job, explain_options, explain_job, opb_options, opb_job, verify_options, verify_job, check_options, check_job, generate_options, generate_job, task_of};
ghost use Rattle.ep_words.specs.Views.{settings_of};

use crate::errors::WordsError;
use crate::job::Job;
use crate::modes::mode_in;
use crate::task::{self, Task};
use crate::values::{
    conflicts, cubes, needed_word, number, set_only, solutions, value_in, word_in, workers,
};
use clap::ArgMatches;
use std::alloc::Global;

/// The job that settings ask for.
pub(crate) fn job_of(alloc: Global, settings: &ArgMatches) -> Result<Job, WordsError>
    ensures { MatchResult result
        (λ job. job_of (settings_of settings.now) ≡ Some job)
        (λ error. error ≡ WordsError.Usage → job_of (settings_of settings.now) ≡ None) }
{
    match task_in(settings) {
        Some(task) => job_of_task(alloc, task, settings),
        None => Err(WordsError::Usage),
    }
}

/// The task that settings name, or to solve where they name none.
fn task_in(settings: &ArgMatches) -> Option<Task>
    ensures { result ≡ task_of (settings_of settings.now) }
{
    match value_in(settings, "task") {
        Some(name) => task::named(name),
        None => Some(Task::Solve),
    }
}

/// The job of a task.
fn job_of_task(alloc: Global, task: Task, settings: &ArgMatches) -> Result<Job, WordsError>
    ensures { MatchResult result
        (λ job. job_of_task task (settings_of settings.now) ≡ Some job)
        (λ error. error ≡ WordsError.Usage → job_of_task task (settings_of settings.now) ≡ None) }
{
    match task {
        Task::Solve => solve(alloc, settings),
        Task::Enumerate => enumerate(alloc, settings),
        Task::Explain => explain(alloc, settings),
        Task::Opb => opb(alloc, settings),
        Task::Verify => verify(alloc, settings),
        Task::Check => check(alloc, settings),
        Task::Generate => generate(alloc, settings),
    }
}

fn solve(alloc: Global, settings: &ArgMatches) -> Result<Job, WordsError>
    ensures { MatchResult result
        (λ job. job_within solve_options solve_job (settings_of settings.now) ≡ Some job)
        (λ error. error ≡ WordsError.Usage
        → job_within solve_options solve_job (settings_of settings.now) ≡ None) }
{
    let allowed = [
        "task",
        "in-eprime",
        "in-param",
        "conflicts",
        "out-solution",
        "out-cnf",
        "out-log",
        "undefined",
        "cubes",
    ];
    if !set_only(settings, &allowed) {
        return Err(WordsError::Usage);
    }
    let in_eprime = needed_word(alloc, settings, "in-eprime")?;
    let conflicts = conflicts(settings).ok_or(WordsError::Usage)?;
    let undefined = mode_in(settings).ok_or(WordsError::Usage)?;
    let cubes = cubes(settings)?;
    Ok(Job::Solve {
        in_eprime,
        in_param: word_in(alloc, settings, "in-param")?,
        conflicts,
        out_solution: word_in(alloc, settings, "out-solution")?,
        out_cnf: word_in(alloc, settings, "out-cnf")?,
        out_log: word_in(alloc, settings, "out-log")?,
        undefined,
        cubes,
    })
}

fn enumerate(alloc: Global, settings: &ArgMatches) -> Result<Job, WordsError>
    ensures { MatchResult result
        (λ job. job_within enumerate_options enumerate_job (settings_of settings.now) ≡ Some job)
        (λ error. error ≡ WordsError.Usage
        → job_within enumerate_options enumerate_job (settings_of settings.now) ≡ None) }
{
    let allowed = [
        "task",
        "in-eprime",
        "in-param",
        "solutions",
        "conflicts",
        "out-solution",
        "out-cnf",
        "out-log",
        "undefined",
    ];
    if !set_only(settings, &allowed) {
        return Err(WordsError::Usage);
    }
    let in_eprime = needed_word(alloc, settings, "in-eprime")?;
    let text = value_in(settings, "solutions").ok_or(WordsError::Usage)?;
    let solutions = solutions(text).ok_or(WordsError::Usage)?;
    let conflicts = conflicts(settings).ok_or(WordsError::Usage)?;
    let undefined = mode_in(settings).ok_or(WordsError::Usage)?;
    Ok(Job::Enumerate {
        in_eprime,
        in_param: word_in(alloc, settings, "in-param")?,
        solutions,
        conflicts,
        out_solution: word_in(alloc, settings, "out-solution")?,
        out_cnf: word_in(alloc, settings, "out-cnf")?,
        out_log: word_in(alloc, settings, "out-log")?,
        undefined,
    })
}

fn explain(alloc: Global, settings: &ArgMatches) -> Result<Job, WordsError>
    ensures { MatchResult result
        (λ job. job_within explain_options explain_job (settings_of settings.now) ≡ Some job)
        (λ error. error ≡ WordsError.Usage
        → job_within explain_options explain_job (settings_of settings.now) ≡ None) }
{
    let allowed = ["task", "in-eprime", "in-param", "conflicts", "undefined"];
    if !set_only(settings, &allowed) {
        return Err(WordsError::Usage);
    }
    let in_eprime = needed_word(alloc, settings, "in-eprime")?;
    let conflicts = conflicts(settings).ok_or(WordsError::Usage)?;
    let undefined = mode_in(settings).ok_or(WordsError::Usage)?;
    Ok(Job::Explain {
        in_eprime,
        in_param: word_in(alloc, settings, "in-param")?,
        conflicts,
        undefined,
    })
}

fn opb(alloc: Global, settings: &ArgMatches) -> Result<Job, WordsError>
    ensures { MatchResult result
        (λ job. job_within opb_options opb_job (settings_of settings.now) ≡ Some job)
        (λ error. error ≡ WordsError.Usage
        → job_within opb_options opb_job (settings_of settings.now) ≡ None) }
{
    if !set_only(settings, &["task", "in-opb", "conflicts"]) {
        return Err(WordsError::Usage);
    }
    Ok(Job::Opb {
        in_opb: needed_word(alloc, settings, "in-opb")?,
        conflicts: conflicts(settings).ok_or(WordsError::Usage)?,
    })
}

fn verify(alloc: Global, settings: &ArgMatches) -> Result<Job, WordsError>
    ensures { MatchResult result
        (λ job. job_within verify_options verify_job (settings_of settings.now) ≡ Some job)
        (λ error. error ≡ WordsError.Usage
        → job_within verify_options verify_job (settings_of settings.now) ≡ None) }
{
    let allowed = ["task", "in-eprime", "in-solution", "in-param", "undefined"];
    if !set_only(settings, &allowed) {
        return Err(WordsError::Usage);
    }
    let in_eprime = needed_word(alloc, settings, "in-eprime")?;
    let in_solution = needed_word(alloc, settings, "in-solution")?;
    let undefined = mode_in(settings).ok_or(WordsError::Usage)?;
    Ok(Job::Verify {
        in_eprime,
        in_solution,
        in_param: word_in(alloc, settings, "in-param")?,
        undefined,
    })
}

fn check(alloc: Global, settings: &ArgMatches) -> Result<Job, WordsError>
    ensures { MatchResult result
        (λ job. job_within check_options check_job (settings_of settings.now) ≡ Some job)
        (λ error. error ≡ WordsError.Usage
        → job_within check_options check_job (settings_of settings.now) ≡ None) }
{
    if !set_only(settings, &["task", "in-cnf", "in-log", "workers"]) {
        return Err(WordsError::Usage);
    }
    Ok(Job::Check {
        in_cnf: needed_word(alloc, settings, "in-cnf")?,
        in_log: needed_word(alloc, settings, "in-log")?,
        workers: workers(settings).ok_or(WordsError::Usage)?,
    })
}

fn generate(alloc: Global, settings: &ArgMatches) -> Result<Job, WordsError>
    ensures { MatchResult result
        (λ job. job_within generate_options generate_job (settings_of settings.now) ≡ Some job)
        (λ error. error ≡ WordsError.Usage
        → job_within generate_options generate_job (settings_of settings.now) ≡ None) }
{
    if !set_only(
        settings,
        &["task", "number", "conflicts", "out-eprime", "out-param"],
    ) {
        return Err(WordsError::Usage);
    }
    let text = value_in(settings, "number").ok_or(WordsError::Usage)?;
    let number = number(text, 0, 1_000_000_000).ok_or(WordsError::Usage)?;
    let conflicts = conflicts(settings).ok_or(WordsError::Usage)?;
    Ok(Job::Generate {
        number,
        conflicts,
        out_eprime: word_in(alloc, settings, "out-eprime")?,
        out_param: word_in(alloc, settings, "out-param")?,
    })
}
