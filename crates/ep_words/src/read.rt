//! Reads words as a job.

ghost use Rattle.std.specs.Prelude.{◌≡◌, List, map, IfOk, IfErr};
ghost use Rattle.ep_words.specs.Settings.{Text};
ghost use Rattle.ep_words.specs.Commands.{IsCommand};
ghost use Rattle.ep_words.specs.declared.job.Job.{Job as JobValue};

use crate::errors::WordsError;
use crate::job::Job;
use crate::jobs::job_of;
use crate::settings::settings_of;
use ep_base::Word;
use std::alloc::{AllocError, Global};

/// The job that words ask for: they are the words after the program's name.
pub fn read_words(alloc: Global, words: &[Word]) -> Result<Job, WordsError>
    ensures job { IfOk result (λ job. IsCommand words.now job) }
    ensures usage { IfErr result (λ error. error ≡ WordsError.Usage
        → (job : JobValue) → ¬ IsCommand words.now job) }
{
    let texts = texts_of(alloc, words)?;
    let settings = settings_of(alloc, &texts)?;
    job_of(alloc, &settings)
}

/// The texts of words.
fn texts_of<'a>(alloc: Global, words: &'a [Word]) -> Result<Vec<&'a str>, AllocError>
    ensures { IfOk result (λ texts. map (λ text. text.now) texts.items ≡ words.now) }
{
    let mut texts = Vec::new(alloc);
    for word in words {
        texts.push(word.text())?;
    }
    Ok(texts)
}

/// Words are a command for one job at most.
pub fn one_job_for_words()
    ensures { (words : List Text) (one other : JobValue)
        → IsCommand words one → IsCommand words other → one ≡ other }
{}
