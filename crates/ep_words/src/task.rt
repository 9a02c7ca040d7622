//! Tasks and their names.

ghost use Rattle.std.specs.Prelude.{◌≡◌};
ghost use Rattle.ep_words.specs.Jobs.{task_named};

/// What there is to do.
#[derive(Clone, Copy, Debug, PartialEq, Eq)]
pub(crate) enum Task {
    Solve,
    Enumerate,
    Explain,
    Opb,
    Verify,
    Check,
    Generate,
}

/// The task of a name.
pub(crate) fn named(name: &str) -> Option<Task>
    ensures { result ≡ task_named name.now }
{
    if name == "solve" {
        return Some(Task::Solve);
    }
    if name == "enumerate" {
        return Some(Task::Enumerate);
    }
    if name == "explain" {
        return Some(Task::Explain);
    }
    if name == "opb" {
        return Some(Task::Opb);
    }
    if name == "verify" {
        return Some(Task::Verify);
    }
    if name == "check" {
        return Some(Task::Check);
    }
    if name == "generate" {
        return Some(Task::Generate);
    }
    None
}
