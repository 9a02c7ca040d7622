//! What an answer promises, said without faults, limits, budgets and files; and that what binding and judging come to is what is
//! promised, each the contract of a function that does nothing.
#![tactic(auto)]

ghost use Rattle.std.specs.Prelude.{◌≡◌, ◌⊎◌, List, None, Ok, Err, Some};
ghost use Rattle.std.specs.List.{All};
ghost use Rattle.ep_tree.specs.Binding.{Instance, Refusal, TextName, bind, bind_params};
ghost use Rattle.ep_tree.specs.Environments.{Env};
ghost use Rattle.ep_tree.specs.Faults.{lettings_of};
ghost use Rattle.ep_tree.specs.Names.{nothing_known};
ghost use Rattle.ep_tree.specs.Statements.{TextTree};
ghost use Rattle.ep_tree.specs.declared.values.Mode.{Mode};
ghost use Rattle.ep_promise.specs.Made.{IsOverLimit, known_after_all, made_instance};

/// The instance that binding gives is the one that the texts make, and what is known after lettings are bound is what they say. Where
/// binding refuses for anything but a limit, the texts make none.
pub fn what_is_bound_is_made()
    ensures made { (mode : Mode) (model params : TextTree) (i : Instance) → bind mode model params ≡ Ok i
        → made_instance mode model params ≡ Some i }
    ensures not_made { (mode : Mode) (model params : TextTree) (rs : List Refusal) → bind mode model params ≡ Err rs
        → (made_instance mode model params ≡ None) ⊎ All IsOverLimit rs }
    ensures known { (mode : Mode) (text : TextName) (statements : TextTree) (known : Env)
        → bind_params mode text nothing_known (lettings_of statements) ≡ Ok known
        → known_after_all mode nothing_known statements ≡ Some known }
    ensures unknown { (mode : Mode) (text : TextName) (statements : TextTree) (rs : List Refusal)
        → bind_params mode text nothing_known (lettings_of statements) ≡ Err rs
        → (known_after_all mode nothing_known statements ≡ None) ⊎ All IsOverLimit rs }
{}
