//! What errors of the steps over trees say as refusals.

ghost use Rattle.std.specs.Prelude.{◌≡◌};
ghost use Rattle.ep_driver.specs.Stops.{bind_stop, opb_stop, source_file, static_stop};

use ep_files::Stop;
use ep_instance::{BindError, Source};
use ep_print::{Refusal, TextFile};
use ep_types::StaticError;
use opb_solve::{OpbRefusal, OpbStop};

/// An error of types or categories.
pub fn static_stop(file: TextFile, error: StaticError) -> Stop
    ensures { result ≡ static_stop file error }
{
    match error {
        StaticError::UnknownName(place, name) => {
            Stop::Refused(Refusal::UnknownName(file, place, name))
        }
        StaticError::Redeclared(place, name) => {
            Stop::Refused(Refusal::Redeclared(file, place, name))
        }
        StaticError::IllTyped(place) => Stop::Refused(Refusal::IllTyped(file, place)),
        StaticError::WrongCategory(place) => Stop::Refused(Refusal::WrongCategory(file, place)),
        StaticError::OpenDomain(place) => Stop::Refused(Refusal::OpenDomain(file, place)),
        StaticError::Memory => Stop::Memory,
    }
}

/// An error of binding.
pub fn bind_stop(error: BindError) -> Stop
    ensures { result ≡ bind_stop error }
{
    match error {
        BindError::Missing(name) => Stop::Refused(Refusal::Missing(name)),
        BindError::Outside(name) => Stop::Refused(Refusal::Outside(name)),
        BindError::Undefined(source, place) => {
            Stop::Refused(Refusal::Undefined(source_file(source), place))
        }
        BindError::WhereFalse(number) => Stop::Refused(Refusal::WhereFalse(number)),
        BindError::Limit(limit) => Stop::Refused(Refusal::Over(limit)),
        BindError::Memory => Stop::Memory,
    }
}

/// The word for a text.
fn source_file(source: Source) -> TextFile
    ensures { result ≡ source_file source }
{
    match source {
        Source::Model => TextFile::Model,
        Source::Params => TextFile::Params,
        Source::Solution => TextFile::Solution,
    }
}

/// Why the text of a pseudo-Boolean problem has no reply.
#[tactic(auto, unfolding(crate::specs::Outcomes::opb_refusal))]
pub fn opb_stop(stop: OpbStop) -> Stop
    ensures { result ≡ opb_stop stop }
{
    match stop {
        OpbStop::Refused(OpbRefusal::TooLong) => Stop::Refused(Refusal::TooLong(TextFile::Opb)),
        OpbStop::Refused(OpbRefusal::Bad(line)) => Stop::Refused(Refusal::BadOpb(line)),
        OpbStop::Refused(OpbRefusal::Over(limit)) => Stop::Refused(Refusal::Over(limit)),
        OpbStop::Memory => Stop::Memory,
    }
}
