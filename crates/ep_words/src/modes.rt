//! Modes of undefinedness and their names.

ghost use Rattle.std.specs.Prelude.{◌≡◌};
ghost use Rattle.ep_words.specs.Jobs.{mode_named, mode_of};
ghost use Rattle.ep_words.specs.Views.{settings_of};

use crate::values::value_in;
use clap::ArgMatches;
use ep_tree::Mode;

/// The mode that settings name, or the relational one where they name none.
pub(crate) fn mode_in(settings: &ArgMatches) -> Option<Mode>
    ensures { result ≡ mode_of (settings_of settings.now) }
{
    match value_in(settings, "undefined") {
        Some(name) => named(name),
        None => Some(Mode::Relational),
    }
}

/// The mode of a name.
fn named(name: &str) -> Option<Mode>
    ensures { result ≡ mode_named name.now }
{
    if name == "relational" {
        return Some(Mode::Relational);
    }
    if name == "strict" {
        return Some(Mode::Strict);
    }
    None
}
