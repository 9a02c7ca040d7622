//! What the text of a pseudo-Boolean problem says.

ghost use Rattle.std.specs.Prelude.{◌≡◌};
ghost use Rattle.opb_text.specs.Contents.{objective_terms};
ghost use Rattle.opb_text.specs.Views.{plain_opb};

/// A literal and the number that it is multiplied by.
#[derive(Clone, Copy, Debug, PartialEq, Eq)]
pub struct OpbTerm {
    /// What the literal counts where it is true.
    pub factor: i64,
    /// Whether the literal is true where its variable is false.
    pub negated: bool,
    /// The number of the variable.
    pub var: u64,
}

/// A constraint: the sum of its terms is at least its right side, or equal to it.
#[derive(Debug, Drop)]
pub struct OpbRow {
    /// What is added up.
    pub terms: Vec<OpbTerm>,
    /// Whether the sum has to be the right side, and not only to reach it.
    pub equal: bool,
    /// The right side.
    pub right: i64,
}

/// A pseudo-Boolean problem.
#[derive(Debug, Drop)]
pub struct Opb {
    /// The sum that is to be as small as can be, where one is stated.
    pub objective: Option<Vec<OpbTerm>>,
    /// The constraints.
    pub rows: Vec<OpbRow>,
}

/// The terms of the objective, none where none is stated.
pub(crate) fn objective_terms(opb: &Opb) -> &[OpbTerm]
    ensures { result.now ≡ objective_terms (plain_opb opb.now) }
{
    match &opb.objective {
        Some(terms) => terms,
        None => &[],
    }
}
