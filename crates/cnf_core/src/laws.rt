//! Laws of the definitions. Each is the contract of a function that does nothing.

ghost use Rattle.std.specs.Prelude.{◌≡◌, ℕ, ◌<◌, ◌^◌, Bool, List, [], ◌∷◌, ◌++◌, length, Contains, map};
ghost use Rattle.cnf_core.specs.Literal.{Literal, negation};
ghost use Rattle.cnf_core.specs.Clauses.{Satisfies, SatisfiesClause};
ghost use Rattle.cnf_core.specs.Formula.{Cnf, Keeps, SpeaksOf};
ghost use Rattle.cnf_core.specs.Events.{LogEvent, step, givens, nonempty_steps, HintsAreThere};
ghost use Rattle.cnf_core.specs.Reading.{trues_from};
ghost use Rattle.cnf_core.specs.Steps.{clauses_at, IsValidLog, IsValidStep, IsEffectiveStep, AreOtherLiterals, NonEmptyStepsAreNew, GivensNameOnly};

/// In a valid log each assignment that satisfies the givens before a step satisfies the step.
pub fn valid_steps_follow()
    ensures { (s : ℕ → Bool) (before after : List LogEvent)
        (clause : List Literal) (hints : List ℕ)
        → IsValidLog (before ++ step clause hints ∷ after)
        → Satisfies s (givens before) → SatisfiesClause s clause }
{}

/// Where the givens have v variables and each step with a literal is new, fewer than 3^v steps
/// have a literal.
///
/// Here v is the length of any list in which all variables of the givens stand. The log needn't
/// even be valid.
pub fn new_steps_are_few()
    ensures { (events : List LogEvent) (vars : List ℕ)
        → NonEmptyStepsAreNew events → GivensNameOnly vars events
        → nonempty_steps events < 3 ^ length vars }
{}

/// Where unit propagation on the events before a step meets a conflict without any assumption, so
/// that hints show the empty clause, the step isn't effective.
pub fn no_step_is_effective_after_a_conflict()
    ensures { (earlier : List LogEvent) (clause : List Literal) (hints : List ℕ)
        → IsValidStep earlier [] hints → IsEffectiveStep earlier clause → ⊥ }
{}

/// Unit propagation on the events before an effective step, from the negations of all its literals
/// but the last one, meets no conflict and doesn't give the last one.
pub fn an_effective_step_needs_its_last_literal()
    ensures no_conflict { (earlier : List LogEvent) (clause others : List Literal)
        (hints : List ℕ) (effective : IsEffectiveStep earlier clause)
        → AreOtherLiterals clause effective.last others
        → IsValidStep earlier others hints → ⊥ }
    ensures not_given { (earlier : List LogEvent) (clause others : List Literal)
        (hints : List ℕ) (effective : IsEffectiveStep earlier clause)
        → AreOtherLiterals clause effective.last others → HintsAreThere earlier hints
        → Contains (trues_from (map negation others) (clauses_at earlier hints)) effective.last
        → ⊥ }
{}

/// A condition on assignments.
pub trait Condition {
    /// The assignments of which it holds.
    ghost holds: { (ℕ → Bool) → Type 0 };
}

/// Keeping composes: where a second formula keeps a first under one condition, and a third keeps the
/// second under a condition on the variables of the first alone, the third keeps the first under
/// both.
pub fn keeping_composes<C: Condition, E: Condition>()
    ensures { (first second third : Cnf)
        → Keeps first second C.holds → Keeps second third E.holds
        → SpeaksOf first.vars E.holds
        → Keeps first third (λ s. C.holds s × E.holds s) }
{}
