//! Why a run has no answer.

use ep_base::{Limit, Name, Place, Word};

/// Which text a refusal speaks of.
#[derive(Clone, Copy, Debug, PartialEq, Eq)]
pub enum TextFile {
    Model,
    Params,
    Solution,
    Cnf,
    Log,
    Opb,
}

/// Why a run has no answer, with what its line names.
#[derive(Drop)]
pub enum Refusal {
    /// The words are no command.
    Usage,
    /// A byte begins no token.
    BadByte(TextFile, Place),
    /// The tokens are no text.
    Syntax(TextFile, Place),
    /// A name isn't declared.
    UnknownName(TextFile, Place, Name),
    /// A name is declared twice.
    Redeclared(TextFile, Place, Name),
    /// The types of a node's parts don't fit it.
    IllTyped(TextFile, Place),
    /// A decision variable stands where none may.
    WrongCategory(TextFile, Place),
    /// An open domain stands where none may.
    OpenDomain(TextFile, Place),
    /// A parameter has no value.
    Missing(Name),
    /// A value lies outside its domain.
    Outside(Name),
    /// A letting's value, or a domain, is undefined.
    Undefined(TextFile, Place),
    /// A condition on the parameters is false.
    WhereFalse(u64),
    /// A line is none of a formula.
    BadCnf(u64),
    /// A line is none of a proof.
    BadLog(u64),
    /// A line is none of a pseudo-Boolean problem.
    BadOpb(u64),
    /// A text has too many bytes.
    TooLong(TextFile),
    /// A number has too many digits.
    LongNumber(TextFile, Place),
    /// A tree is too high.
    TooHigh(TextFile, Place),
    /// The instance passes a limit.
    Over(Limit),
    /// A file can't be read.
    CannotRead(Word),
    /// A file can't be written.
    CannotWrite(Word),
    /// An allocation was refused.
    Memory,
}
