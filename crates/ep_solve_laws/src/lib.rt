//! Laws of logs that stand for instances. Each is the contract of a function that does nothing.
#![tactic(auto)]

ghost use Rattle.ep_solve_laws.specs.Noted.{NotesCanBeRead};

use ep_print_laws::bound_variables_can_be_written;

/// The notes of a log that stands for an instance are such as can be read again from a formula's text: each is of a cell, and its value
/// has at most 18 digits. The instance is one that a model which some text spells is bound to.
pub fn notes_can_be_read()
    ensures { NotesCanBeRead }
{
    bound_variables_can_be_written();
}
