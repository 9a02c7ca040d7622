//! What is known of an expression's value, with the nodes that it meets counted and weighed.
//!
//! A node is counted when its parts are known. A limit that is passed stays in the totals: what is told behind it means
//! nothing, and loops over numbers end.

ghost use Rattle.std.specs.Prelude.{◌≡◌, ◌∷◌, ◌++◌, [], Some, None, true, false, flat_map, map, unwrap_or, IfOk};
ghost use Rattle.ep_base.specs.declared.places.Place.{Place};
ghost use Rattle.ep_forms.specs.Forms.{quantified_tree};
ghost use Rattle.ep_tree.specs.Environments as names;
ghost use Rattle.ep_tree.specs.Evaluation.{domain_values, evaluate, type_in};
ghost use Rattle.ep_tree.specs.Measures as measures;
ghost use Rattle.ep_tree.specs.Reach as defined;
ghost use Rattle.ep_tree.specs.Reach.{decisions_in, extents_of, hiding, holds_decision, measured_list};
ghost use Rattle.ep_tree.specs.Trees.{ExprTree};
ghost use Rattle.ep_tree.specs.Views.{domain_tree, end_of, expr_tree, expr_trees, generators_of, indices_of, terms_of};
ghost use Rattle.ep_tree.specs.declared.values.Mode.{Mode as EachMode};
ghost use Rattle.ep_eval.specs.Generating.{nodes_at, nodes_of, part_nodes, ranging_over};
ghost use Rattle.ep_eval.specs.Helds.{seen_held};
ghost use Rattle.ep_eval.specs.Instances.{instance_nodes};
ghost use Rattle.ep_eval.specs.Scopes.{env_in, mode_in};
ghost use Rattle.ep_size.specs.Extents.{IsKnownExtent, grid_of};
ghost use Rattle.ep_size.specs.Free.{is_free};
ghost use Rattle.ep_size.specs.Generated.{known_at, known_of, part_extents};
ghost use Rattle.ep_size.specs.Indices.{index_of, measured_of};
ghost use Rattle.ep_size.specs.Meters.{Extends, Told};
ghost use Rattle.ep_size.specs.Quantified.{HasInstances, instance_at};
ghost use Rattle.ep_size.specs.Sums.{Sums};

use super::domains::fixed_numbers;
use super::extents::{Extent, number_span};
use super::forms::{finish_counts, finish_member, finish_one, finish_truths, finish_two};
use super::generating::{all_true, with_extent};
use super::indices::index_numbers;
use super::instances::{
    Instances, bare_quantifier, finish_quantifier, no_instances, with_instance,
};
use super::lists::matrix_of;
use super::named::named_node;
use super::reading::{Indexed, index_with, names_cells};
use super::reads::read_node;
use super::settling::settle;
use super::standing::{Hidden, standing_in};
use super::sums::{Summed, summed_node};
use super::totals::Totals;
use ep_base::{Memory, Name, Runs};
use ep_eval::{
    Around, Held, Ranging, Scope, count_name, is_over, next_number, scalar_of, type_within,
    value_of, walk_of,
};
use ep_forms::{Form, Listing, Quantifier, form_of};
use ep_tree::{Expr, Generator, ValueType};
use ep_tree_laws::limits_are_of_values;

/// What is known of an expression of this type that has no value.
#[tactic(auto, unfolding(ep_tree::specs::Types::is_integer))]
fn without_value<'a>(ty: ValueType) -> Extent<'a>
    ensures { (mode : EachMode) → (env : names.Env) → (e : ExprTree) → ty ≡ type_in env e
        → holds_decision (decisions_in env) e ≡ false → evaluate mode env e ≡ None → IsKnownExtent mode env e result }
{
    match ty {
        ValueType::Bool => Extent::Nothing,
        ValueType::Int => Extent::Nothing,
        ValueType::Matrix { .. } => Extent::NoParts,
        ValueType::Empty => Extent::NoParts,
    }
}

/// What is known of a value that was seen, or of its want by the type of the expression.
fn known_value<'a>(
    scope: Scope<'_, 'a>,
    seen: Option<Held<'a>>,
    e: &Expr,
) -> Result<Extent<'a>, Memory>
    ensures { IfOk result (λ x. (mode : EachMode) → holds_decision (decisions_in (env_in scope.entry)) (expr_tree e.now) ≡ false
        → evaluate mode (env_in scope.entry) (expr_tree e.now) ≡ seen_held seen.entry
        → IsKnownExtent mode (env_in scope.entry) (expr_tree e.now) x) }
{
    match seen {
        Some(held) => Ok(Extent::Fixed(held)),
        None => {
            let ty = type_within(scope, e)?;
            Ok(without_value(ty))
        }
    }
}

/// What is known of an expression in which no decision variable stands: its value, which the evaluator gives.
fn fixed<'a>(scope: Scope<'_, 'a>, totals: &mut Totals, e: &Expr) -> Result<Extent<'a>, Memory>
    requires { is_free (decisions_in (env_in scope)) (expr_tree e.now) ≡ true }
    ensures { IfOk result (Extends scope.entry totals.old totals.new (expr_tree e.now)) }
{
    limits_are_of_values();
    let seen = value_of(scope, &mut totals.meter, e)?;
    let known = known_value(scope, seen, e)?;
    Ok(known)
}

/// What is known of an expression.
#[cycle(extending)]
pub fn extent_of<'a>(
    scope: Scope<'_, 'a>,
    totals: &mut Totals,
    e: &Expr,
) -> Result<Extent<'a>, Memory>
    ensures { IfOk result (Extends scope.entry totals.old totals.new (expr_tree e.now)) }
{
    let own = standing_in(scope, &Hidden::Nothing, e);
    if own.free {
        let known = fixed(scope, totals, e)?;
        return Ok(known);
    }
    if own.decided {
        let known = decided(scope, totals, e)?;
        return Ok(known);
    }
    Err(Memory)
}

/// What is known of an expression that holds a decision variable.
#[cycle(extending)]
fn decided<'a>(scope: Scope<'_, 'a>, totals: &mut Totals, e: &Expr) -> Result<Extent<'a>, Memory>
    requires { holds_decision (decisions_in (env_in scope)) (expr_tree e.now) ≡ true }
    ensures { IfOk result (Extends scope.entry totals.old totals.new (expr_tree e.now)) }
{
    match form_of(&e.kind) {
        Form::Number(_) => unreachable!(),
        Form::Truth(_) => unreachable!(),
        Form::Named(name) => {
            let made = named_node(scope, name);
            let node = settle(totals, made)?;
            Ok(node)
        }
        Form::One(op, part) => {
            let known = extent_of(scope, totals, part)?;
            let made = finish_one(scope, &mut totals.weight, op, part, known);
            let node = settle(totals, made)?;
            Ok(node)
        }
        Form::Two(op, left, right) => {
            let first = extent_of(scope, totals, left)?;
            let second = extent_of(scope, totals, right)?;
            let made = finish_two(scope.alloc, &mut totals.weight, op, &first, &second);
            let node = settle(totals, made)?;
            Ok(node)
        }
        Form::Counts(op, list, one, other) => {
            let first = extent_of(scope, totals, list)?;
            let second = extent_of(scope, totals, one)?;
            let third = extent_of(scope, totals, other)?;
            let made = finish_counts(scope.alloc, &mut totals.weight, op, &first, &second, &third);
            let node = settle(totals, made)?;
            Ok(node)
        }
        Form::Truths(_, parts) => {
            let _known = part_extents(scope, totals, parts)?;
            let made = finish_truths(&mut totals.weight, parts.len());
            let node = settle(totals, made)?;
            Ok(node)
        }
        Form::Chain(terms) => {
            let sum = sum_of_terms(scope, totals, terms)?;
            let made = summed_node(&mut totals.weight, sum);
            let node = settle(totals, made)?;
            Ok(node)
        }
        Form::InDomain(part, domain) => {
            let known = extent_of(scope, totals, part)?;
            let _numbers = fixed_numbers(scope, totals, domain)?;
            let made = finish_member(&mut totals.weight, &known);
            let node = settle(totals, made)?;
            Ok(node)
        }
        Form::Quant(quantifier, names) => {
            let known = quantified(scope, totals, quantifier, names)?;
            Ok(known)
        }
        Form::Literal(parts, domain) => {
            let known = part_extents(scope, totals, parts)?;
            let indices = index_numbers(scope, totals, domain)?;
            let made = matrix_of(scope.alloc, &indices, known);
            let node = settle(totals, made)?;
            Ok(node)
        }
        Form::Comprehension(listing, generators, domain) => {
            let none = Vec::new(scope.alloc);
            let known = generated(scope, totals, listing, generators, none)?;
            let indices = index_numbers(scope, totals, domain)?;
            let made = matrix_of(scope.alloc, &indices, known);
            let node = settle(totals, made)?;
            Ok(node)
        }
        Form::Read(matrix, indices) => {
            let known = extent_of(scope, totals, matrix)?;
            let values = index_extents(scope, totals, indices)?;
            let ty = type_within(scope, e)?;
            let of_name = names_cells(&matrix.kind, &known);
            let made = read_node(
                scope.alloc,
                &mut totals.weight,
                ty,
                of_name,
                &known,
                &values,
            );
            let node = settle(totals, made)?;
            Ok(node)
        }
    }
}

/// What is known of the indices of a read.
#[cycle(extending)]
fn index_extents(
    scope: Scope<'_, '_>,
    totals: &mut Totals,
    indices: &[Option<Expr>],
) -> Result<Vec<Indexed>, Memory>
    ensures { IfOk result (λ v. Told (mode_in scope.entry) totals.old totals.new
        (measures.met_indices (mode_in scope.entry) (env_in scope.entry) (indices_of indices.now))
        (map measured_of v.items ≡ measured_list (mode_in scope.entry) (env_in scope.entry) (indices_of indices.now))) }
{
    let mut values = Vec::new(scope.alloc);
    for index in indices {
        let value = index_extent(scope, totals, index)?;
        values.push(value)?;
    }
    Ok(values)
}

/// What is known of an index of a read; where there is none it is `..`.
#[cycle(extending)]
fn index_extent(
    scope: Scope<'_, '_>,
    totals: &mut Totals,
    index: &Option<Expr>,
) -> Result<Indexed, Memory>
    ensures { IfOk result (λ i. Told (mode_in scope.entry) totals.old totals.new
        (measures.met_end (mode_in scope.entry) (env_in scope.entry) (end_of index.now))
        (measured_of i ≡ index_of (mode_in scope.entry) (env_in scope.entry) (end_of index.now))) }
{
    match index {
        Some(e) => {
            let known = extent_of(scope, totals, e)?;
            Ok(index_with(&known))
        }
        None => Ok(Indexed::Every),
    }
}

/// What is known of some expressions, one after another.
#[cycle(extending)]
fn part_extents<'a>(
    scope: Scope<'_, 'a>,
    totals: &mut Totals,
    parts: &[Expr],
) -> Result<Vec<Extent<'a>>, Memory>
    ensures { IfOk result (λ known. Told (mode_in scope.entry) totals.old totals.new
        (measures.met_all (mode_in scope.entry) (env_in scope.entry) (expr_trees parts.now))
        (map grid_of known.items ≡ extents_of (mode_in scope.entry) (env_in scope.entry) (expr_trees parts.now))) }
{
    let mut known = Vec::new(scope.alloc);
    for part in parts {
        let one = extent_of(scope, totals, part)?;
        known.push(one)?;
    }
    Ok(known)
}

/// The terms of a chain, one after another, and their sum.
#[cycle(extending)]
fn sum_of_terms(
    scope: Scope<'_, '_>,
    totals: &mut Totals,
    terms: &[(bool, Expr)],
) -> Result<Summed, Memory>
    ensures { IfOk result (λ sum. Told (mode_in scope.entry) totals.old totals.new
        (measures.met_terms (mode_in scope.entry) (env_in scope.entry) (terms_of terms.now))
        (Sums sum (defined.term_spans (mode_in scope.entry) (env_in scope.entry) (terms_of terms.now)))) }
{
    let mut sum = Summed::new();
    for term in terms {
        let known = extent_of(scope, totals, &term.1)?;
        let span = number_span(&known);
        sum.add_signed(term.0, span);
    }
    Ok(sum)
}

/// What is known of a quantifier over these names, which holds a decision variable; without any name it is its body, and
/// no node of its own.
#[cycle(extending)]
fn quantified<'a>(
    scope: Scope<'_, 'a>,
    totals: &mut Totals,
    quantifier: Quantifier<'_>,
    names: &[Name],
) -> Result<Extent<'a>, Memory>
    requires holds { holds_decision (hiding names.now (decisions_in (env_in scope))) (expr_tree quantifier.body.now) ≡ true }
    ensures { IfOk result (λ x. (p : Place) → Extends scope.entry totals.old totals.new
        (quantified_tree p quantifier.entry names.now) x) }
{
    match names.split_first() {
        Some((name, rest)) => {
            let numbers = fixed_numbers(scope, totals, quantifier.domain)?;
            if is_over(&totals.meter) {
                return Ok(Extent::Nothing);
            }
            let known = over_domain(scope, totals, quantifier, name, rest, &numbers)?;
            let made = finish_quantifier(&mut totals.weight, quantifier.op, known);
            let node = settle(totals, made)?;
            Ok(node)
        }
        None => {
            let known = extent_of(scope, totals, quantifier.body)?;
            Ok(bare_quantifier(known))
        }
    }
}

/// What is known of the instances of a quantifier over a name and others; where its domain is undefined there are none.
#[cycle(extending)]
fn over_domain(
    scope: Scope<'_, '_>,
    totals: &mut Totals,
    quantifier: Quantifier<'_>,
    name: &Name,
    rest: &[Name],
    numbers: &Option<Runs>,
) -> Result<Instances, Memory>
    requires holds { holds_decision (hiding (name.now ∷ rest.now) (decisions_in (env_in scope))) (expr_tree quantifier.body.now) ≡ true }
    requires set { numbers.now ≡ domain_values (mode_in scope) (env_in scope) (domain_tree quantifier.domain.now) }
    ensures { IfOk result (λ known. (p : Place) → Told (mode_in scope.entry) totals.old totals.new
        (flat_map (instance_nodes (mode_in scope.entry) (env_in scope.entry) p quantifier.entry name.now rest.now) (unwrap_or numbers.now []))
        (HasInstances known (map (instance_at (mode_in scope.entry) (env_in scope.entry) p quantifier.entry name.now rest.now) (unwrap_or numbers.now [])))) }
{
    match numbers {
        Some(set) => {
            let known = instances(scope, totals, quantifier, name, rest, set)?;
            Ok(known)
        }
        None => Ok(no_instances()),
    }
}

/// What is known of the instances of a quantifier, one for each number of its domain. The name stands for the number while
/// its instance is measured.
#[cycle(extending)]
fn instances(
    scope: Scope<'_, '_>,
    totals: &mut Totals,
    quantifier: Quantifier<'_>,
    name: &Name,
    rest: &[Name],
    set: &Runs,
) -> Result<Instances, Memory>
    requires holds { holds_decision (hiding (name.now ∷ rest.now) (decisions_in (env_in scope))) (expr_tree quantifier.body.now) ≡ true }
    requires set { domain_values (mode_in scope) (env_in scope) (domain_tree quantifier.domain.now) ≡ Some set.now }
    ensures { IfOk result (λ known. (p : Place) → Told (mode_in scope.entry) totals.old totals.new
        (flat_map (instance_nodes (mode_in scope.entry) (env_in scope.entry) p quantifier.entry name.now rest.now) set.now)
        (HasInstances known (map (instance_at (mode_in scope.entry) (env_in scope.entry) p quantifier.entry name.now rest.now) set.now))) }
{
    let scalar = scalar_of(scope, quantifier.domain);
    let mut known = no_instances();
    let mut walk = walk_of(set.runs());
    while let Some((number, behind)) = next_number(walk) {
        if is_over(&totals.meter) {
            return Ok(known);
        }
        let around = Around::Number(scope.around, name, scalar, number);
        let inner = Scope {
            alloc: scope.alloc,
            env: scope.env,
            around: &around,
        };
        let instance = quantified(inner, totals, quantifier, rest)?;
        known = with_instance(known, instance);
        walk = behind;
    }
    Ok(known)
}

/// What is known of some parts, and of those that generators lead to behind them.
#[cycle(extending)]
fn generated<'a>(
    scope: Scope<'_, 'a>,
    totals: &mut Totals,
    listing: Listing<'_>,
    generators: &[Generator],
    front: Vec<Extent<'a>>,
) -> Result<Vec<Extent<'a>>, Memory>
    ensures { IfOk result (λ more. Told (mode_in scope.entry) totals.old totals.new
        (nodes_of (mode_in scope.entry) listing.entry (generators_of generators.now) (env_in scope.entry))
        (map grid_of more.items ≡ map grid_of front.entry.items
        ++ known_of (mode_in scope.entry) listing.entry (generators_of generators.now) (env_in scope.entry))) }
{
    match generators.split_first() {
        Some((first, later)) => {
            let ranging = Ranging {
                listing,
                domain: &first.domain,
                later,
            };
            let more = over_names(scope, totals, ranging, &first.names, front)?;
            Ok(more)
        }
        None => {
            let more = with_part(scope, totals, listing, front)?;
            Ok(more)
        }
    }
}

/// The same of names over a domain, and the generators behind them.
#[cycle(extending)]
fn over_names<'a>(
    scope: Scope<'_, 'a>,
    totals: &mut Totals,
    ranging: Ranging<'_>,
    names: &[Name],
    front: Vec<Extent<'a>>,
) -> Result<Vec<Extent<'a>>, Memory>
    ensures { IfOk result (λ more. Told (mode_in scope.entry) totals.old totals.new
        (nodes_of (mode_in scope.entry) ranging.entry.listing (ranging_over ranging.entry names.now) (env_in scope.entry))
        (map grid_of more.items ≡ map grid_of front.entry.items
        ++ known_of (mode_in scope.entry) ranging.entry.listing (ranging_over ranging.entry names.now) (env_in scope.entry))) }
{
    match names.split_first() {
        Some((name, rest)) => {
            let numbers = fixed_numbers(scope, totals, ranging.domain)?;
            if is_over(&totals.meter) {
                return Ok(front);
            }
            let more = over_range(scope, totals, ranging, name, rest, &numbers, front)?;
            count_name(&mut totals.meter);
            Ok(more)
        }
        None => {
            let more = generated(scope, totals, ranging.listing, ranging.later, front)?;
            Ok(more)
        }
    }
}

/// The same where the first name stands for each number of a domain; where it is undefined there are none.
#[cycle(extending)]
fn over_range<'a>(
    scope: Scope<'_, 'a>,
    totals: &mut Totals,
    ranging: Ranging<'_>,
    name: &Name,
    rest: &[Name],
    numbers: &Option<Runs>,
    front: Vec<Extent<'a>>,
) -> Result<Vec<Extent<'a>>, Memory>
    requires set { numbers.now ≡ domain_values (mode_in scope) (env_in scope) (domain_tree ranging.domain.now) }
    ensures { IfOk result (λ more. Told (mode_in scope.entry) totals.old totals.new
        (flat_map (nodes_at (mode_in scope.entry) (env_in scope.entry) ranging.entry name.now rest.now) (unwrap_or numbers.now []))
        (map grid_of more.items ≡ map grid_of front.entry.items
        ++ flat_map (known_at (mode_in scope.entry) (env_in scope.entry) ranging.entry name.now rest.now) (unwrap_or numbers.now []))) }
{
    match numbers {
        Some(set) => {
            let more = over_numbers(scope, totals, ranging, name, rest, set, front)?;
            Ok(more)
        }
        None => Ok(front),
    }
}

/// The same where the first name stands for each number of a set in turn.
#[cycle(extending)]
fn over_numbers<'a>(
    scope: Scope<'_, 'a>,
    totals: &mut Totals,
    ranging: Ranging<'_>,
    name: &Name,
    rest: &[Name],
    set: &Runs,
    front: Vec<Extent<'a>>,
) -> Result<Vec<Extent<'a>>, Memory>
    requires set { domain_values (mode_in scope) (env_in scope) (domain_tree ranging.domain.now) ≡ Some set.now }
    ensures { IfOk result (λ more. Told (mode_in scope.entry) totals.old totals.new
        (flat_map (nodes_at (mode_in scope.entry) (env_in scope.entry) ranging.entry name.now rest.now) set.now)
        (map grid_of more.items ≡ map grid_of front.entry.items
        ++ flat_map (known_at (mode_in scope.entry) (env_in scope.entry) ranging.entry name.now rest.now) set.now)) }
{
    let scalar = scalar_of(scope, ranging.domain);
    let mut more = front;
    let mut walk = walk_of(set.runs());
    while let Some((number, behind)) = next_number(walk) {
        if is_over(&totals.meter) {
            return Ok(more);
        }
        let around = Around::Number(scope.around, name, scalar, number);
        let inner = Scope {
            alloc: scope.alloc,
            env: scope.env,
            around: &around,
        };
        more = over_names(inner, totals, ranging, rest, more)?;
        walk = behind;
    }
    Ok(more)
}

/// What is known of some parts, and of the part behind them where the conditions hold.
#[cycle(extending)]
fn with_part<'a>(
    scope: Scope<'_, 'a>,
    totals: &mut Totals,
    listing: Listing<'_>,
    front: Vec<Extent<'a>>,
) -> Result<Vec<Extent<'a>>, Memory>
    ensures { IfOk result (λ more. Told (mode_in scope.entry) totals.old totals.new
        (part_nodes (mode_in scope.entry) (expr_tree listing.entry.body.now) (expr_trees listing.entry.conditions.now)
        (env_in scope.entry))
        (map grid_of more.items ≡ map grid_of front.entry.items
        ++ part_extents (mode_in scope.entry) (expr_tree listing.entry.body.now) (expr_trees listing.entry.conditions.now)
        (env_in scope.entry))) }
{
    let holds = all_true(scope, totals, listing.conditions)?;
    if is_over(&totals.meter) {
        return Ok(front);
    }
    if holds {
        let one = extent_of(scope, totals, listing.body)?;
        let more = with_extent(front, one)?;
        return Ok(more);
    }
    Ok(front)
}
