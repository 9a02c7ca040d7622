//! The words of the command line.

ghost use Rattle.std.specs.Prelude.{◌≤◌, IfOk};

use crate::refusal::Refusal;
use ep_base::Word;

/// What the words ask for.
#[derive(Debug, Drop)]
pub struct Request<'a> {
    /// The name of the file that has the formula.
    pub file: &'a str,
    /// How many conflicts the search may have.
    pub conflicts: u64,
    /// The name of the file to which the log goes.
    pub log: Option<&'a str>,
}

/// Reads the words `FILE CONFLICTS [LOG]`.
///
/// # Errors
///
/// [`Refusal::Usage`] where there are fewer or more, where CONFLICTS isn't a number, or where LOG is empty or FILE again.
pub fn read_request(words: &[Word]) -> Result<Request<'_>, Refusal> {
    match words {
        [file, conflicts] => asked(file, conflicts, None),
        [file, conflicts, log] => asked(file, conflicts, Some(log_name(file, log)?)),
        _ => Err(Refusal::Usage),
    }
}

/// The name of the file for the log, which isn't that of the formula.
fn log_name<'a>(file: &Word, log: &'a Word) -> Result<&'a str, Refusal> {
    if log.text().is_empty() || log.text() == file.text() {
        return Err(Refusal::Usage);
    }
    Ok(log.text())
}

fn asked<'a>(
    file: &'a Word,
    conflicts: &Word,
    log: Option<&'a str>,
) -> Result<Request<'a>, Refusal> {
    Ok(Request {
        file: file.text(),
        conflicts: number(conflicts.text())?,
        log,
    })
}

/// The number that a word of one to ten digits has, from 1 on.
fn number(word: &str) -> Result<u64, Refusal>
    ensures { IfOk result (λ found. 1 ≤ found) }
{
    if word.len() > 10 || !word.bytes().all(|byte| byte.is_ascii_digit()) {
        return Err(Refusal::Usage);
    }
    match word.parse::<u64>() {
        Ok(found) if found > 0 => Ok(found),
        _ => Err(Refusal::Usage),
    }
}
