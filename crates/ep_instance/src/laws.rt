//! A law of the limits, the contract of a function that does nothing.

ghost use Rattle.std.specs.Prelude.{◌≡◌, []};
ghost use Rattle.ep_tree.specs.Binding as defined;
ghost use Rattle.ep_tree.specs.Solutions.{instance_limits};
ghost use Rattle.ep_tree.specs.declared.values.Mode.{Mode};
ghost use Rattle.ep_instance.specs.Judgements.{IsWithinLimits};

/// An instance that passes no limit passes neither that of size nor that of reach, within which it
/// is judged.
pub fn no_limit_is_passed()
    ensures { (mode : Mode) (i : defined.Instance) → instance_limits mode i ≡ [] → IsWithinLimits mode i }
{}
