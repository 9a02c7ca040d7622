//! The refusals of the table.

use ep_base::{Limit, Memory, Name, Place, Word};
use ep_print::{Refusal, TextFile, refusal_line};
use std::alloc::Global;

const PLACE: Place = Place {
    line: 3,
    column: 14,
};

/// The refusals of the table, by their numbers.
fn refusal(alloc: Global, number: usize) -> Result<Refusal, Memory> {
    Ok(match number {
        0 => Refusal::Usage,
        1 => Refusal::BadByte(TextFile::Model, PLACE),
        2 => Refusal::Syntax(TextFile::Params, PLACE),
        3 => Refusal::UnknownName(TextFile::Solution, PLACE, Name::new(alloc, "y")?),
        4 => Refusal::Redeclared(TextFile::Model, PLACE, Name::new(alloc, "y")?),
        5 => Refusal::IllTyped(TextFile::Model, PLACE),
        6 => Refusal::WrongCategory(TextFile::Model, PLACE),
        7 => Refusal::OpenDomain(TextFile::Model, PLACE),
        8 => Refusal::Missing(Name::new(alloc, "n")?),
        9 => Refusal::Outside(Name::new(alloc, "n")?),
        10 => Refusal::Undefined(TextFile::Model, PLACE),
        11 => Refusal::WhereFalse(1),
        12 => Refusal::BadCnf(5),
        13 => Refusal::BadLog(2),
        14 => Refusal::TooLong(TextFile::Cnf),
        15 => Refusal::LongNumber(TextFile::Log, PLACE),
        16 => Refusal::TooHigh(TextFile::Model, PLACE),
        17 => Refusal::Over(Limit::Size),
        18 => Refusal::Over(Limit::Reach),
        19 => Refusal::Over(Limit::Weight),
        20 => Refusal::CannotRead(Word::new(alloc, "none.eprime")?),
        21 => Refusal::CannotWrite(Word::new(alloc, "k.cnf")?),
        _ => Refusal::Memory,
    })
}

/// The line of a refusal of the table.
pub(crate) fn line(alloc: Global, number: usize) -> Result<Vec<u8>, Memory> {
    refusal_line(alloc, &refusal(alloc, number)?)
}
