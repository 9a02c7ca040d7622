//! How a ground's formula is a problem.

ghost use Rattle.std.specs.Prelude.{◌≡◌, ◌↔◌, ℤ, List, Option};
ghost use Rattle.cnf_core.specs.Events.{LogState};
ghost use Rattle.cnf_core.specs.Formula.{Cnf};
ghost use Rattle.ep_answer.specs.Posed.{PosesGround};
ghost use Rattle.ep_answer.specs.Problems.{CanSearch, IsAllowed, ProblemState};
ghost use Rattle.ep_ground.specs.Grounds.{GroundState, IsGroundSolution, ground_objective};

/// In a problem that poses a ground a search may begin, and it allows exactly the numbers of the
/// cells that the ground keeps, with the number of the ground's objective.
pub fn what_is_posed_is_allowed()
    ensures search { (g : GroundState) (f : Cnf) (p : ProblemState) (log : LogState)
        → PosesGround g f p log → CanSearch p log }
    ensures allowed { (g : GroundState) (f : Cnf) (p : ProblemState) (log : LogState)
        → PosesGround g f p log → (cells : List ℤ) (goal : Option ℤ)
        → IsAllowed p log cells goal ↔ (IsGroundSolution g cells × (goal ≡ ground_objective g cells)) }
{}
