//! What a model and its parameters ask for together, and what it means to answer that.
#![tactic(auto)]

mod binding;
mod finds;
mod givens;
mod judging;
mod laws;
mod lettings;
mod solutions;
mod statements;
mod values;

pub use binding::bind;
pub use ep_instance_parts::{BindError, Find, Instance, Source};
pub use judging::{Judge, Judgement, Shaped, is_solution};
pub use laws::no_limit_is_passed;
pub use solutions::read_assignment;
