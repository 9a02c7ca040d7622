//! Attempts at instances.

ghost use Rattle.std.specs.Prelude.{◌≡◌, [], ℕ, Bool, IfOk, None};
ghost use Rattle.std.specs.List.{All};
ghost use Rattle.cnf_core.specs.Events.{LogState};
ghost use Rattle.ep_base.specs.Reads.{IsWithinNumbers};
ghost use Rattle.ep_explain.specs.Tried.{IsRightTry, was_spent};
ghost use Rattle.ep_instance_parts.specs.Instances.{instance_mode, plain_instance};
ghost use Rattle.ep_tree.specs.Binding.{Instance as InstanceValue};
ghost use Rattle.ep_tree.specs.Closed.{IsClosed};
ghost use Rattle.ep_tree.specs.Solutions.{instance_limits};
ghost use Rattle.ep_tree.specs.declared.values.Mode.{Mode};
ghost use Rattle.sat_search.specs.Logs.{IsSound};

use ep_base::Memory;
use ep_instance_parts::Instance;
use ep_tree::Assignment;
use std::alloc::Global;

/// What an attempt says.
#[derive(Drop)]
pub enum Tried {
    /// A solution.
    Found(Assignment),
    /// There is no solution.
    Empty,
    /// The conflicts were spent.
    Spent,
}

/// What looks for solutions of instances, one after another.
pub trait Tries {
    /// How many conflicts an attempt may spend.
    ghost budget: { Self → ℕ };

    /// The log of the last attempt.
    ghost log: { Self → LogState };

    /// Whether the conflicts were spent in the last attempt.
    ghost spent: { Self → Bool };

    /// What is shown of the instance of the last attempt, in its mode.
    ghost shown: { Self → Mode → InstanceValue → Type 0 };

    /// Looks for a solution of an instance without an objective. Each attempt has the whole budget, and a
    /// log of its own.
    fn attempt(&mut self, alloc: Global, instance: &Instance) -> Result<Tried, Memory>
        requires closed { IsClosed (plain_instance instance.now) }
        requires within { instance_limits (instance_mode instance.now) (plain_instance instance.now) ≡ [] }
        requires values { All (λ f. All IsWithinNumbers f.values) (plain_instance instance.now).finds }
        requires plain { (plain_instance instance.now).goal ≡ None }
        ensures right { IfOk result (IsRightTry (instance_mode instance.now) (plain_instance instance.now)
            (budget self.new) (log self.new)) }
        ensures spent { IfOk result (λ tried. spent self.new ≡ was_spent tried) }
        ensures shown { IfOk result (λ _. shown self.new (instance_mode instance.now) (plain_instance instance.now)) }
        ensures budget { budget self.new ≡ budget self.old }
        ensures sound { IsSound (log self.new).events };
}
