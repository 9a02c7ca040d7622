//! What an instance keeps where clauses are left out.

ghost use Rattle.std.specs.Prelude.{◌≡◌, [], ℕ, List};
ghost use Rattle.ep_restrict.specs.Restricted.{AreClauseNumbers, MeasuresAtMost, restricted};
ghost use Rattle.ep_tree.specs.Binding.{Instance};
ghost use Rattle.ep_tree.specs.Closed.{IsClosed};
ghost use Rattle.ep_tree.specs.Solutions.{instance_limits};
ghost use Rattle.ep_tree.specs.declared.values.Mode.{Mode};

/// With some of its clauses alone an instance is closed as before, and measures at most what it did,
/// so that it passes no limit which it didn't pass.
pub fn restricting_lessens()
    ensures closed { (i : Instance) (numbers : List ℕ) → IsClosed i → IsClosed (restricted i numbers) }
    ensures measures { (mode : Mode) (i : Instance) (numbers : List ℕ) → AreClauseNumbers i numbers
        → MeasuresAtMost mode (restricted i numbers) i }
    ensures limits { (mode : Mode) (i : Instance) (numbers : List ℕ) → AreClauseNumbers i numbers
        → instance_limits mode i ≡ [] → instance_limits mode (restricted i numbers) ≡ [] }
{}
