//! Instances: what a model asks for under its parameters.

ghost use Rattle.std.specs.Prelude.{◌≡◌, map, option_map};
ghost use Rattle.ep_eval.specs.Known.{env_of};
ghost use Rattle.ep_tree.specs.Environments.{shape_type};
ghost use Rattle.ep_tree.specs.Types.{scalar_of};
ghost use Rattle.ep_tree.specs.Views.{expr_tree};

use ep_base::{Name, Runs};
use ep_eval::Env;
use ep_tree::{Expr, Objective, ValueType};

/// A decision variable: its name and type, the numbers of its index domains, none for a scalar, and
/// the values of each of its cells.
#[derive(Drop)]
pub struct Find {
    pub name: Name,
    pub ty: ValueType,
    pub indices: Vec<Runs>,
    pub values: Runs,
    pub ghost shaped: { ty ≡ shape_type (scalar_of ty) indices.items },
}

/// What a model asks for under its parameters: its decision variables in the order of the text, its
/// clauses, its objective, and what the parameters and the lettings stand for.
#[derive(Drop)]
pub struct Instance {
    finds: Vec<Find>,
    clauses: Vec<Expr>,
    objective: Option<Objective>,
    env: Env,
}

impl Instance {
    ghost use Rattle.ep_instance_parts.specs.Instances.{find_of, goal_of, plain_instance};

    /// An instance of these parts.
    pub fn new(
        finds: Vec<Find>,
        clauses: Vec<Expr>,
        objective: Option<Objective>,
        env: Env,
    ) -> Instance
        ensures same { plain_instance result ≡ record {
          finds = map find_of finds.items;
          clauses = map expr_tree clauses.items;
          goal = option_map goal_of objective;
          env = env_of env;
        } }
        ensures env { result.env ≡ env }
    {
        Instance {
            finds,
            clauses,
            objective,
            env,
        }
    }

    /// The decision variables, in the order of the text.
    pub fn finds(&self) -> &[Find]
        ensures { map find_of result.now ≡ (plain_instance self.now).finds }
    {
        &self.finds
    }

    /// The clauses, in the order of the text.
    pub fn clauses(&self) -> &[Expr]
        ensures { map expr_tree result.now ≡ (plain_instance self.now).clauses }
    {
        &self.clauses
    }

    /// What is to be as small or as great as can be, where an objective is stated.
    pub fn objective(&self) -> Option<&Objective>
        ensures { option_map (λ o. goal_of o.now) result ≡ (plain_instance self.now).goal }
    {
        self.objective.as_ref()
    }

    /// What the parameters and the lettings stand for, and the mode of evaluation.
    pub fn env(&self) -> &Env
        ensures { result.now ≡ self.now.env }
    {
        &self.env
    }
}
