//! Instances that are explained by clauses and the solver.

ghost use Rattle.std.specs.Prelude.{◌≡◌, [], IfOk};
ghost use Rattle.std.specs.List.{All};
ghost use Rattle.ep_base.specs.Reads.{IsWithinNumbers};
ghost use Rattle.ep_explain.specs.Tried.{ends_spent};
ghost use Rattle.ep_explain_text.specs.Told.{IsTold};
ghost use Rattle.ep_instance_parts.specs.Instances.{instance_mode, plain_instance};
ghost use Rattle.ep_tree.specs.Closed.{IsClosed};
ghost use Rattle.ep_tree.specs.Solutions.{instance_limits};
ghost use Rattle.sat_search.specs.Logs.{IsSound};

use crate::texts::print_explanation;
use cnf_core::Log;
use ep_base::Memory;
use ep_explain::{Explained, Searches, explain};
use ep_instance_parts::Instance;
use std::alloc::Global;

/// What is told of an instance.
#[derive(Drop)]
pub struct Told {
    /// The conflicts were spent before anything was explained.
    pub is_open: bool,
    pub text: Vec<u8>,
}

/// The conflicts were spent before anything was explained.
#[tactic(auto, unfolding(ep_explain::specs::Tried::ends_spent))]
fn leaves_open(said: &Explained) -> bool
    ensures { result ≡ ends_spent said.now }
{
    match said {
        Explained::Satisfiable(_) => false,
        Explained::Core(_) => false,
        Explained::Spent(_) => true,
    }
}

/// Tells why an instance has no solution, or that it has one, its objective aside, by clauses and the
/// solver. Each attempt may spend so many conflicts; the log becomes that of the last one.
pub fn tell(
    alloc: Global,
    instance: &Instance,
    conflicts: u64,
    log: &mut Log,
) -> Result<Told, Memory>
    requires closed { IsClosed (plain_instance instance.now) }
    requires within { instance_limits (instance_mode instance.now) (plain_instance instance.now) ≡ [] }
    requires values { All (λ f. All IsWithinNumbers f.values) (plain_instance instance.now).finds }
    ensures told { IfOk result (IsTold (instance_mode instance.now) (plain_instance instance.now)
        conflicts log.new) }
    ensures sound { IsSound log.old.events → IsSound log.new.events }
{
    let mut searches = Searches::new(alloc, conflicts);
    let said = explain(alloc, instance, &mut searches)?;
    *log = searches.into_log();
    let is_open = leaves_open(&said);
    let text = print_explanation(alloc, said, conflicts)?;
    Ok(Told { is_open, text })
}
