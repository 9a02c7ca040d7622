//! How a run ends.

ghost use Rattle.std.specs.Prelude.{◌≡◌};
ghost use Rattle.ep_files.specs.Status.{exit_code, status_of};

use ep_print::Refusal;

/// How a run ended.
#[derive(Clone, Copy, Debug, PartialEq, Eq)]
pub enum Status {
    /// The answer was written.
    Answered,
    /// The budget of conflicts was spent.
    Unknown,
    /// The words aren't a command.
    Usage,
    /// A text has a fault.
    Text,
    /// A text passes a limit.
    Limit,
    /// A device failed, or a file that the words name isn't held.
    Device,
    /// An allocation was refused.
    Memory,
    /// What was to be checked doesn't hold.
    Refuted,
}

impl Status {
    /// The code with which the program ends.
    pub fn code(&self) -> u8
        ensures { result ≡ exit_code self.now }
    {
        match self {
            Status::Answered => 0,
            Status::Unknown => 1,
            Status::Usage => 2,
            Status::Text => 3,
            Status::Limit => 4,
            Status::Device => 5,
            Status::Memory => 6,
            Status::Refuted => 7,
        }
    }
}

/// How a run ends that is refused.
#[tactic(auto, unfolding(crate::specs::Status::status_of))]
pub fn status_of(refusal: &Refusal) -> Status
    ensures { result ≡ status_of refusal.now }
{
    match refusal {
        Refusal::Usage => Status::Usage,
        Refusal::BadByte(_, _)
        | Refusal::Syntax(_, _)
        | Refusal::UnknownName(_, _, _)
        | Refusal::Redeclared(_, _, _)
        | Refusal::IllTyped(_, _)
        | Refusal::WrongCategory(_, _)
        | Refusal::OpenDomain(_, _)
        | Refusal::Missing(_)
        | Refusal::Outside(_)
        | Refusal::Undefined(_, _)
        | Refusal::WhereFalse(_)
        | Refusal::BadCnf(_)
        | Refusal::BadLog(_)
        | Refusal::BadOpb(_) => Status::Text,
        Refusal::TooLong(_)
        | Refusal::LongNumber(_, _)
        | Refusal::TooHigh(_, _)
        | Refusal::Over(_) => Status::Limit,
        Refusal::CannotRead(_) | Refusal::CannotWrite(_) => Status::Device,
        Refusal::Memory => Status::Memory,
    }
}
