//! Laws of the verdict. Each is the contract of a function that does nothing.

ghost use Rattle.std.specs.Prelude.{◌≡◌, ℕ, Bool, List, [], ◌∷◌, ◌++◌, None};
ghost use Rattle.cnf_core.specs.Literal.{Literal};
ghost use Rattle.cnf_core.specs.Clauses.{Satisfies};
ghost use Rattle.cnf_core.specs.Events.{LogEvent, step, givens};
ghost use Rattle.cnf_core.specs.Lines.{ProofLine};
ghost use Rattle.cnf_core.specs.LogLines.{log_lines};
ghost use Rattle.cnf_core.specs.Steps.{IsValidLog};
ghost use Rattle.log_check.specs.Verdict.{first_bad, verdict_of};
ghost use Rattle.log_check.specs.declared.Verdict.TheVariants.{Verified};

/// A formula with a proof that is verified has no satisfying assignment.
pub fn verified_formulas_have_no_solution()
    ensures { (formula : List (List Literal)) (lines : List ProofLine) (s : ℕ → Bool)
        → verdict_of formula lines ≡ Verified → Satisfies s formula → ⊥ }
{}

/// No line of a valid log is bad, and one that ends with the empty clause is verified.
pub fn valid_logs_are_accepted()
    ensures no_bad { (events : List LogEvent) → IsValidLog events
        → first_bad (givens events) [] (log_lines events) ≡ None }
    ensures closed { (before : List LogEvent) (hints : List ℕ)
        → IsValidLog (before ++ step [] hints ∷ [])
        → verdict_of (givens (before ++ step [] hints ∷ [])) (log_lines (before ++ step [] hints ∷ []))
        ≡ Verified }
{}
