//! The clauses and the objective of the new ground.

ghost use Rattle.std.specs.Prelude.{◌≡◌, ◌<◌, ◌++◌, length, IfOk, OnOk, option_map, option_to_list};
ghost use Rattle.std.specs.List.{All, flat_map};
ghost use Rattle.ep_defined.specs.Images.{image_at};
ghost use Rattle.ep_defined.specs.Translations.{clause_terms, objective_guards, objective_total};
ghost use Rattle.ep_ground.specs.GroundViews.{plain_ground};
ghost use Rattle.ep_ground.specs.Grounds.{named_terms};

use crate::images::{Image, add_guard, total};
use ep_base::{Memory, Sense};
use ep_ground::{Ground, Term};
use std::alloc::Global;

/// Adds what has to be 1 where a term has to be.
fn add_clause(clauses: &mut Vec<Term>, images: &[Image], term: Term) -> Result<(), Memory>
    requires { term < length images.now }
    ensures { OnOk result (clauses.new.items
        ≡ clauses.old.items ++ clause_terms (image_at images.now term)) }
{
    clauses.push(total(images, term))?;
    add_guard(clauses, images, term)
}

/// Adds what has to be 1 where some terms have to be.
fn add_clauses(clauses: &mut Vec<Term>, images: &[Image], terms: &[Term]) -> Result<(), Memory>
    requires { All (λ t. t < length images.now) terms.now }
    ensures { OnOk result (clauses.new.items
        ≡ clauses.old.items ++ flat_map (λ t. clause_terms (image_at images.now t)) terms.now) }
{
    for term in terms {
        add_clause(clauses, images, *term)?;
    }
    Ok(())
}

/// Adds what has to be 1 where an objective has to have a value.
#[tactic(auto, using(crate::proofs::Ending::goal_below))]
fn add_objective_guard(
    clauses: &mut Vec<Term>,
    images: &[Image],
    objective: Option<(Sense, Term)>,
) -> Result<(), Memory>
    requires { All (λ t. t < length images.now)
        (option_to_list (option_map (λ goal. goal.1) objective)) }
    ensures { OnOk result (clauses.new.items
        ≡ clauses.old.items ++ objective_guards images.now objective) }
{
    match objective {
        Some((_, term)) => add_guard(clauses, images, term),
        None => Ok(()),
    }
}

/// What has to be 1 where a ground's clauses have to be and its objective has to have a value.
pub fn clauses_of(alloc: Global, images: &[Image], g: &Ground) -> Result<Vec<Term>, Memory>
    requires { All (λ t. t < length images.now) (named_terms (plain_ground g.now)) }
    ensures { IfOk result (λ clauses. clauses.items
        ≡ flat_map (λ t. clause_terms (image_at images.now t)) g.now.clauses.items
        ++ objective_guards images.now g.now.objective) }
{
    let mut clauses = Vec::new(alloc);
    add_clauses(&mut clauses, images, &g.clauses)?;
    add_objective_guard(&mut clauses, images, g.objective)?;
    Ok(clauses)
}

/// The objective over the term that always has a value.
#[tactic(auto, using(crate::proofs::Ending::goal_below))]
pub fn objective_of(images: &[Image], objective: Option<(Sense, Term)>) -> Option<(Sense, Term)>
    requires { All (λ t. t < length images.now)
        (option_to_list (option_map (λ goal. goal.1) objective)) }
    ensures { result ≡ objective_total images.now objective }
{
    match objective {
        Some((sense, term)) => Some((sense, total(images, term))),
        None => None,
    }
}
