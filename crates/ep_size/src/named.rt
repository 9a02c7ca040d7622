//! What is known of a name that stands for a decision variable.

ghost use Rattle.std.specs.Prelude.{◌≡◌, ℕ, IfOk, Some, length};
ghost use Rattle.ep_base.specs.declared.places.Place.{Place};
ghost use Rattle.ep_base.specs.Runs.{numbers_in};
ghost use Rattle.ep_base.specs.declared.names.Name.{Name as EachName};
ghost use Rattle.ep_tree.specs.Environments as names;
ghost use Rattle.ep_tree.specs.Reach as defined;
ghost use Rattle.ep_tree.specs.Trees.{named};
ghost use Rattle.ep_tree.specs.declared.values.Mode.{Mode as EachMode};
ghost use Rattle.ep_eval.specs.Bounds.{cells_of};
ghost use Rattle.ep_eval.specs.Scopes.{env_in, mode_in};
ghost use Rattle.ep_size.specs.Extents.{plain_span};
ghost use Rattle.ep_size.specs.Finishing.{Finishes};
ghost use Rattle.ep_numbers.specs.Spans.{interval_of};

use super::errors::SizeError;
use super::extents::{Extent, Span};
use super::intervals::near;
use super::standing::is_quantified;
use ep_base::{Name, Run, Runs};
use ep_eval::{NamedDomain, Scope};
use ep_numbers::{Span as Ends, span_of_set, widened, width};
use ep_tree::Scalar;

/// More numbers than there is memory for.
const MOST_COUNTED: u128 = 1_000_000_000_000_000_000_000_000_000_000;

/// How many numbers a run has.
#[tactic(auto, unfolding(ep_base::specs::Intervals::width), using(ep_numbers::proofs::Counting::length_of_run))]
fn count_in(run: Run) -> u128
    ensures { result ≡ length (numbers_in run) }
{
    width(Ends {
        low: run.lo,
        high: run.hi,
    })
}

/// How many numbers a set has.
fn count_of(set: &Runs) -> Result<u128, SizeError>
    ensures { IfOk result (λ count. count ≡ length set.now) }
{
    let mut count = 0_u128;
    for run in set.runs() {
        let more = count_in(*run);
        if count > MOST_COUNTED || more > MOST_COUNTED {
            return Err(SizeError::Memory);
        }
        count += more;
    }
    Ok(count)
}

/// The reach of a cell.
#[tactic(auto, unfolding(ep_tree::specs::Reach::cell_reach))]
fn cell_reach(of: Scalar, values: &Runs) -> Ends
    ensures { interval_of result ≡ defined.cell_reach of values.now }
{
    match of {
        Scalar::Bool => Ends { low: 0, high: 1 },
        Scalar::Int => span_of_set(values),
    }
}

/// What is known of each cell of a decision variable.
#[tactic(auto, unfolding(ep_tree::specs::Reach::cell_span))]
fn cell_span(domain: &NamedDomain) -> Result<Span, SizeError>
    ensures { IfOk result (λ span. plain_span span ≡ defined.cell_span domain.now.of domain.now.values) }
{
    let spread = count_of(&domain.values)?;
    let reach = cell_reach(domain.of, &domain.values);
    Ok(Span {
        reach,
        spread,
        decided: true,
    })
}

/// What is known of the cells of a decision variable, by what is known of each.
fn cells_with(domain: &NamedDomain, span: Span) -> Result<Extent<'_>, SizeError>
    ensures { (mode : EachMode) → (env : names.Env) → (name : EachName) → (p : Place) → (t : ℕ)
        → env name ≡ Some (cells_of domain.now) → plain_span span ≡ defined.cell_span domain.now.of domain.now.values
        → Finishes mode env (named p name) t t result }
{
    match domain.indices.as_slice().split_first() {
        Some(_) => Ok(Extent::Cells(span, &domain.indices)),
        None => match near(widened(span.reach)) {
            Ok(_) => Ok(Extent::Number(span)),
            Err(refused) => Err(refused),
        },
    }
}

/// What is known of the cells of a decision variable.
fn cells_node(domain: &NamedDomain) -> Result<Extent<'_>, SizeError>
    ensures { (mode : EachMode) → (env : names.Env) → (name : EachName) → (p : Place) → (t : ℕ)
        → env name ≡ Some (cells_of domain.now) → Finishes mode env (named p name) t t result }
{
    match cell_span(domain) {
        Ok(span) => cells_with(domain, span),
        Err(_) => Err(SizeError::Memory),
    }
}

/// What is known of a name that stands for a decision variable.
pub fn named_node<'a>(scope: Scope<'_, 'a>, name: &Name) -> Result<Extent<'a>, SizeError>
    ensures { (p : Place) → (t : ℕ) → Finishes (mode_in scope.entry) (env_in scope.entry) (named p name.now) t t result }
{
    if is_quantified(scope.around, name) {
        return Err(SizeError::Memory);
    }
    match scope.env.cells(name) {
        Some(domain) => cells_node(domain),
        None => Err(SizeError::Memory),
    }
}
