//! What begins statements.

use ep_base::Sense;

/// What the first word of a statement begins.
#[derive(Clone, Copy)]
pub(crate) enum Opening {
    Given,
    Find,
    Letting,
    Where,
    SuchThat,
    Objective(Sense),
    Branching,
    Heuristic,
}

/// Which statements may come.
#[derive(Clone, Copy)]
pub(crate) enum Allowed {
    /// All statements.
    All,
    /// All but objectives: one stands already.
    NoObjective,
    /// Lettings alone.
    Lettings,
}
