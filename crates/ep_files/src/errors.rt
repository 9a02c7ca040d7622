//! What errors of reading say as refusals.

ghost use Rattle.std.specs.Prelude.{◌≡◌};
ghost use Rattle.ep_files.specs.Stops.{cnf_stop, log_stop, text_stop};

use super::stops::Stop;
use ep_parse_model::TextError;
use ep_print::{Refusal, TextFile};
use sat_text::{CnfError, LogError};

/// An error of reading a text.
pub fn text_stop(file: TextFile, error: TextError) -> Stop
    ensures { result ≡ text_stop file error }
{
    match error {
        TextError::TooLong => Stop::Refused(Refusal::TooLong(file)),
        TextError::BadByte(place) => Stop::Refused(Refusal::BadByte(file, place)),
        TextError::LongNumber(place) => Stop::Refused(Refusal::LongNumber(file, place)),
        TextError::Syntax(place) => Stop::Refused(Refusal::Syntax(file, place)),
        TextError::TooHigh(place) => Stop::Refused(Refusal::TooHigh(file, place)),
        TextError::Memory => Stop::Memory,
    }
}

/// An error of reading the text of a formula.
pub fn cnf_stop(error: CnfError) -> Stop
    ensures { result ≡ cnf_stop error }
{
    match error {
        CnfError::TooLong => Stop::Refused(Refusal::TooLong(TextFile::Cnf)),
        CnfError::Bad(line) => Stop::Refused(Refusal::BadCnf(line)),
        CnfError::Memory => Stop::Memory,
    }
}

/// An error of reading the text of a proof.
pub fn log_stop(error: LogError) -> Stop
    ensures { result ≡ log_stop error }
{
    match error {
        LogError::TooLong => Stop::Refused(Refusal::TooLong(TextFile::Log)),
        LogError::Bad(line) => Stop::Refused(Refusal::BadLog(line)),
        LogError::Memory => Stop::Memory,
    }
}
