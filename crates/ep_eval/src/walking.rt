//! The numbers of a set, one after another, without a list of them.

ghost use Rattle.std.specs.Prelude.{◌≡◌, ◌∷◌, Some};
ghost use Rattle.std.specs.List.{All};
ghost use Rattle.ep_base.specs.Runs.{numbers};
ghost use Rattle.ep_eval.specs.Walking.{IsFilled, IsWalk, IsWalkBehind, before_rest, left_in, numbers_left};

use ep_base::Run;

/// Where a walk through the numbers of a set stands: in a run, with others behind it.
#[derive(Clone, Copy)]
pub struct Walk<'r> {
    /// The numbers of the run that are left; none at the end.
    pub run: Option<Run>,
    /// The runs behind it.
    pub later: &'r [Run],
}

/// A walk through the numbers of some runs.
pub fn walk_of(runs: &[Run]) -> Walk<'_>
    requires { All IsFilled runs.now }
    ensures numbers { numbers_left result ≡ numbers runs.now }
    ensures walk { IsWalk result }
{
    match runs.split_first() {
        Some((run, later)) => Walk {
            run: Some(*run),
            later,
        },
        None => Walk {
            run: None,
            later: runs,
        },
    }
}

/// What is left of a run behind its first number, with others behind it.
fn behind_first(run: Run, later: &[Run]) -> Walk<'_>
    requires here { IsFilled run }
    requires behind { All IsFilled later.now }
    ensures numbers { left_in (Some run) later.now ≡ run.lo ∷ numbers_left result }
    ensures walk { IsWalk result }
{
    if run.lo < run.hi {
        let rest = Run {
            lo: run.lo + 1,
            hi: run.hi,
        };
        return Walk {
            run: Some(rest),
            later,
        };
    }
    walk_of(later)
}

/// The next number, and the walk behind it.
pub fn next_number(walk: Walk<'_>) -> Option<(i64, Walk<'_>)>
    requires { IsWalk walk }
    ensures numbers { numbers_left walk.entry ≡ before_rest result }
    ensures walk { IsWalkBehind result }
{
    match walk.run {
        Some(run) => Some((run.lo, behind_first(run, walk.later))),
        None => None,
    }
}
