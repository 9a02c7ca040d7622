//! Evaluation of the parts of an expression.
//!
//! A node is counted when its parts have their values. A limit that is passed stays in the meter: what is evaluated behind
//! it means nothing, and loops over numbers end.

ghost use Rattle.std.specs.Prelude.{◌≡◌, ◌++◌, [], ℤ, Some, flat_map, map, option_map, unwrap_or, IfOk};
ghost use Rattle.ep_base.specs.declared.places.Place.{Place};
ghost use Rattle.ep_base.specs.Numbers.{sum_of};
ghost use Rattle.ep_base.specs.Options.{map_both};
ghost use Rattle.ep_tree.specs.Values.{all_defined, indices_in};
ghost use Rattle.ep_tree.specs.Evaluation.{domain_values, end_value, index_list, index_values, range_values, term_values, values_of};
ghost use Rattle.ep_tree.specs.Measures as measures;
ghost use Rattle.ep_tree.specs.Views as views;
ghost use Rattle.ep_tree.specs.Views.{domain_tree, domains_of, expr_tree, expr_trees, generators_of, indices_of, ranges_of, terms_of};
ghost use Rattle.ep_forms.specs.Forms.{index_at, quantified_tree};
ghost use Rattle.ep_eval.specs.Counting.{of_all};
ghost use Rattle.ep_eval.specs.Gathering.{gathered_of, nothing_yet, gathered_with_more};
ghost use Rattle.ep_eval.specs.Generating.{lists_joined, nodes_at, nodes_of, part_nodes, part_value, parts_at, parts_of, ranging_over, some_joined};
ghost use Rattle.ep_eval.specs.Instances.{instance_nodes, instance_value};
ghost use Rattle.ep_eval.specs.Literals.{listed_in};
ghost use Rattle.ep_eval.specs.Meters.{Sees, Told};
ghost use Rattle.ep_eval.specs.Ranges.{alone, has_in, run_has, runs_have};
ghost use Rattle.ep_eval.specs.Scopes.{env_in, mode_in};

use super::domains::{ascends, named_numbers, run_between, set_of, truth_set, with_run};
use super::families::{count_value, gathered_worth, one_value, total_worth, two_value};
use super::forms::{together, truth_value};
use super::gathering::{Gathered, before_all, with_instance, without_domain};
use super::generating::{Ranging, count_of};
use super::held::{Held, held_truth, number_of, truth_seen};
use super::literals::{first_numbers, made_matrix, with_value};
use super::meter::{Meter, count_name, is_over, settled};
use super::orders::within;
use super::reads::{read, with_next};
use super::scalars::scalar_of;
use super::scopes::{Around, Scope, look_up};
use super::sets::set_operation;
use super::totals::with_term;
use super::typing::given_read;
use super::walking::{next_number, walk_of};
use super::worth::Worth;
use ep_base::{Memory, Name, Run, Runs};
use ep_forms::{Form, Listing, Quantifier, form_of};
use ep_tree::{Domain, DomainKind, Expr, Generator, Range, Value};

/// The value of an expression.
#[cycle(evaluating)]
pub fn value_of<'a>(
    scope: Scope<'_, 'a>,
    meter: &mut Meter,
    e: &Expr,
) -> Result<Option<Held<'a>>, Memory>
    ensures { IfOk result (Sees scope.entry meter.old meter.new (expr_tree e.now)) }
{
    match form_of(&e.kind) {
        Form::Number(number) => Ok(settled(meter, Worth::Seen(Some(Held::Number(number))))),
        Form::Truth(truth) => Ok(settled(meter, Worth::Seen(held_truth(truth)))),
        Form::Named(name) => Ok(settled(meter, Worth::Seen(look_up(scope, name)))),
        Form::One(op, part) => {
            let seen = value_of(scope, meter, part)?;
            let worth = one_value(scope.alloc, scope.env.mode(), op, seen)?;
            Ok(settled(meter, worth))
        }
        Form::Two(op, left, right) => {
            let first = value_of(scope, meter, left)?;
            let second = value_of(scope, meter, right)?;
            let worth = two_value(scope.alloc, scope.env.mode(), op, &first, &second)?;
            Ok(settled(meter, worth))
        }
        Form::Counts(op, list, one, other) => {
            let first = value_of(scope, meter, list)?;
            let second = value_of(scope, meter, one)?;
            let third = value_of(scope, meter, other)?;
            let worth = count_value(scope.alloc, scope.env.mode(), op, &first, &second, &third)?;
            Ok(settled(meter, worth))
        }
        Form::Truths(every, parts) => {
            let truth = truths(scope, meter, every, parts)?;
            Ok(settled(meter, Worth::Seen(truth_value(scope.env.mode(), truth))))
        }
        Form::Chain(terms) => {
            let total = total(scope, meter, terms)?;
            let worth = total_worth(total)?;
            Ok(settled(meter, worth))
        }
        Form::InDomain(part, domain) => {
            let seen = value_of(scope, meter, part)?;
            let numbers = numbers_of(scope, meter, domain)?;
            Ok(settled(
                meter,
                Worth::Seen(within(scope.env.mode(), &seen, &numbers)),
            ))
        }
        Form::Quant(quantifier, names) => {
            let seen = quantified(scope, meter, quantifier, names)?;
            Ok(seen)
        }
        Form::Literal(parts, domain) => {
            let values = part_values(scope, meter, parts)?;
            let indices = index_set(scope, meter, domain, parts.len())?;
            let made = made_matrix(scope.alloc, indices, values)?;
            Ok(settled(meter, Worth::Seen(made)))
        }
        Form::Comprehension(listing, generators, domain) => {
            let none = Some(Vec::new(scope.alloc));
            let values = generated(scope, meter, listing, generators, none)?;
            let count = count_of(&values);
            let indices = index_set(scope, meter, domain, count)?;
            let made = made_matrix(scope.alloc, indices, values)?;
            Ok(settled(meter, Worth::Seen(made)))
        }
        Form::Read(matrix, indices) => {
            let seen = value_of(scope, meter, matrix)?;
            let values = index_values(scope, meter, indices)?;
            let found = read(scope.alloc, seen, values)?;
            let given = given_read(scope, matrix, indices, found)?;
            Ok(settled(meter, Worth::Seen(given)))
        }
    }
}

/// The values of some parts, where each has one. All are evaluated.
#[cycle(evaluating)]
fn part_values(
    scope: Scope<'_, '_>,
    meter: &mut Meter,
    parts: &[Expr],
) -> Result<Option<Vec<Value>>, Memory>
    ensures { IfOk result (λ values. Told (mode_in scope.entry) meter.old meter.new
        (measures.met_all (mode_in scope.entry) (env_in scope.entry) (expr_trees parts.now))
        (listed_in values ≡ all_defined (values_of (mode_in scope.entry) (env_in scope.entry) (expr_trees parts.now)))) }
{
    let mut values = Some(Vec::new(scope.alloc));
    for part in parts {
        let seen = value_of(scope, meter, part)?;
        values = with_value(scope.alloc, values, seen)?;
    }
    Ok(values)
}

/// The indices of so many parts: the numbers of the domain that is stated, and else those from 1 on.
#[cycle(evaluating)]
fn index_set(
    scope: Scope<'_, '_>,
    meter: &mut Meter,
    domain: &Option<Box<Domain>>,
    count: usize,
) -> Result<Option<Runs>, Memory>
    ensures { IfOk result (λ set. Told (mode_in scope.entry) meter.old meter.new
        (measures.met_index (mode_in scope.entry) (env_in scope.entry) (index_at domain.now))
        (set ≡ index_values (mode_in scope.entry) (env_in scope.entry) (index_at domain.now) count)) }
{
    match domain {
        Some(stated) => {
            let set = numbers_of(scope, meter, stated)?;
            Ok(set)
        }
        None => {
            let set = first_numbers(scope.alloc, count)?;
            Ok(Some(set))
        }
    }
}

/// Whether all of some expressions are true, or one is, where each has a value. All are evaluated.
#[cycle(evaluating)]
fn truths(
    scope: Scope<'_, '_>,
    meter: &mut Meter,
    every: bool,
    parts: &[Expr],
) -> Result<Option<bool>, Memory>
    ensures { IfOk result (λ truth. Told (mode_in scope.entry) meter.old meter.new
        (measures.met_all (mode_in scope.entry) (env_in scope.entry) (expr_trees parts.now))
        (truth ≡ of_all every (values_of (mode_in scope.entry) (env_in scope.entry) (expr_trees parts.now)))) }
{
    let mut truth = Some(every);
    for part in parts {
        let seen = value_of(scope, meter, part)?;
        truth = together(every, truth, truth_seen(&seen));
    }
    Ok(truth)
}

/// The total of the terms of a chain, where each has a value. All are evaluated.
#[cycle(evaluating)]
fn total(
    scope: Scope<'_, '_>,
    meter: &mut Meter,
    terms: &[(bool, Expr)],
) -> Result<Option<i128>, Memory>
    ensures { IfOk result (λ total. Told (mode_in scope.entry) meter.old meter.new
        (measures.met_terms (mode_in scope.entry) (env_in scope.entry) (terms_of terms.now))
        (total ≡ option_map sum_of (all_defined
        (term_values (mode_in scope.entry) (env_in scope.entry) (terms_of terms.now))))) }
{
    let mut total = Some(0);
    for term in terms {
        let seen = value_of(scope, meter, &term.1)?;
        total = with_term(total, term.0, number_of(&seen));
    }
    Ok(total)
}

/// The number at an end of a range.
#[cycle(evaluating)]
fn end_number(
    scope: Scope<'_, '_>,
    meter: &mut Meter,
    end: &Option<Expr>,
) -> Result<Option<i64>, Memory>
    ensures { IfOk result (λ n. Told (mode_in scope.entry) meter.old meter.new
        (measures.met_end (mode_in scope.entry) (env_in scope.entry) (views.end_of end.now))
        (n ≡ end_value (mode_in scope.entry) (env_in scope.entry) (views.end_of end.now))) }
{
    match end {
        Some(e) => {
            let seen = value_of(scope, meter, e)?;
            Ok(number_of(&seen))
        }
        None => Ok(None),
    }
}

/// The numbers of the indices of a read, where each that is stated has one; `..` has none.
#[cycle(evaluating)]
fn index_values(
    scope: Scope<'_, '_>,
    meter: &mut Meter,
    indices: &[Option<Expr>],
) -> Result<Option<Vec<Option<i64>>>, Memory>
    ensures { IfOk result (λ values. Told (mode_in scope.entry) meter.old meter.new
        (measures.met_indices (mode_in scope.entry) (env_in scope.entry) (indices_of indices.now))
        (option_map (λ v. indices_in v.items) values
        ≡ index_list (mode_in scope.entry) (env_in scope.entry) (indices_of indices.now))) }
{
    let mut values = Some(Vec::new(scope.alloc));
    for index in indices {
        let number = end_number(scope, meter, index)?;
        values = with_next(values, index.is_some(), number)?;
    }
    Ok(values)
}

/// The numbers of a range.
#[cycle(evaluating)]
fn run_of(scope: Scope<'_, '_>, meter: &mut Meter, range: &Range) -> Result<Option<Run>, Memory>
    ensures { IfOk result (λ run. Told (mode_in scope.entry) meter.old meter.new
        (measures.met_ranges (mode_in scope.entry) (env_in scope.entry) (alone range.now))
        ((n : ℤ) → option_map (run_has n) run
        ≡ has_in n (range_values (mode_in scope.entry) (env_in scope.entry) (alone range.now)))) }
{
    match range {
        Range::One(e) => {
            let seen = value_of(scope, meter, e)?;
            let number = number_of(&seen);
            Ok(run_between(number, number))
        }
        Range::Span(low, high) => {
            let first = end_number(scope, meter, low)?;
            let last = end_number(scope, meter, high)?;
            Ok(run_between(first, last))
        }
    }
}

/// The runs of some ranges. All are read, also behind an undefined one.
#[cycle(evaluating)]
fn runs_of(
    scope: Scope<'_, '_>,
    meter: &mut Meter,
    ranges: &[Range],
) -> Result<Option<Vec<Run>>, Memory>
    ensures { IfOk result (λ runs. Told (mode_in scope.entry) meter.old meter.new
        (measures.met_ranges (mode_in scope.entry) (env_in scope.entry) (ranges_of ranges.now))
        ((n : ℤ) → option_map (λ v. runs_have n v.items) runs
        ≡ has_in n (range_values (mode_in scope.entry) (env_in scope.entry) (ranges_of ranges.now)))) }
{
    let mut runs = Some(Vec::new(scope.alloc));
    for range in ranges {
        let run = run_of(scope, meter, range)?;
        runs = with_run(runs, run)?;
    }
    Ok(runs)
}

/// The numbers of a domain of scalars.
#[cycle(evaluating)]
pub fn numbers_of(
    scope: Scope<'_, '_>,
    meter: &mut Meter,
    d: &Domain,
) -> Result<Option<Runs>, Memory>
    ensures { IfOk result (λ set. Told (mode_in scope.entry) meter.old meter.new
        (measures.met_domain (mode_in scope.entry) (env_in scope.entry) (domain_tree d.now))
        (set ≡ domain_values (mode_in scope.entry) (env_in scope.entry) (domain_tree d.now))) }
{
    let _mode = scope.env.mode();
    ascends(scope.around);
    match &d.kind {
        DomainKind::Bool => {
            let set = truth_set(scope.alloc)?;
            Ok(Some(set))
        }
        DomainKind::Int => Ok(None),
        DomainKind::Ranges(ranges) => {
            let runs = runs_of(scope, meter, ranges)?;
            let set = set_of(scope.alloc, runs)?;
            Ok(set)
        }
        DomainKind::Named(name) => {
            let set = named_numbers(scope, name)?;
            Ok(set)
        }
        DomainKind::Group(inner) => {
            let set = numbers_of(scope, meter, inner)?;
            Ok(set)
        }
        DomainKind::Set(op, left, right) => {
            let one = numbers_of(scope, meter, left)?;
            let other = numbers_of(scope, meter, right)?;
            let set = set_operation(scope.alloc, *op, one, other)?;
            Ok(set)
        }
        DomainKind::Matrix(indices, elements) => {
            meet_domains(scope, meter, indices)?;
            let _elements = numbers_of(scope, meter, elements)?;
            Ok(None)
        }
    }
}

/// Evaluates the bounds of some domains.
#[cycle(evaluating)]
fn meet_domains(scope: Scope<'_, '_>, meter: &mut Meter, domains: &[Domain]) -> Result<(), Memory>
    ensures { IfOk result (λ _. Told (mode_in scope.entry) meter.old meter.new
        (measures.met_domains (mode_in scope.entry) (env_in scope.entry) (domains_of domains.now)) (Unit {0})) }
{
    for domain in domains {
        let _numbers = numbers_of(scope, meter, domain)?;
    }
    Ok(())
}

/// The value of a quantifier over these names; without any it is its body, and no node of its own.
#[cycle(evaluating)]
fn quantified<'a>(
    scope: Scope<'_, 'a>,
    meter: &mut Meter,
    quantifier: Quantifier<'_>,
    names: &[Name],
) -> Result<Option<Held<'a>>, Memory>
    ensures { IfOk result (λ seen. (p : Place) → Sees scope.entry meter.old meter.new
        (quantified_tree p quantifier.entry names.now) seen) }
{
    match names.split_first() {
        Some((name, rest)) => {
            let numbers = numbers_of(scope, meter, quantifier.domain)?;
            if is_over(meter) {
                return Ok(None);
            }
            let gathered = over_domain(scope, meter, quantifier, name, rest, &numbers)?;
            let worth = gathered_worth(scope.env.mode(), gathered)?;
            Ok(settled(meter, worth))
        }
        None => {
            let seen = value_of(scope, meter, quantifier.body)?;
            Ok(seen)
        }
    }
}

/// What the instances of a quantifier over a name and others give, where its domain is defined.
#[cycle(evaluating)]
fn over_domain(
    scope: Scope<'_, '_>,
    meter: &mut Meter,
    quantifier: Quantifier<'_>,
    name: &Name,
    rest: &[Name],
    numbers: &Option<Runs>,
) -> Result<Gathered, Memory>
    requires set { numbers.now ≡ domain_values (mode_in scope) (env_in scope) (domain_tree quantifier.domain.now) }
    ensures { IfOk result (λ gathered. (p : Place) → Told (mode_in scope.entry) meter.old meter.new
        (flat_map (instance_nodes (mode_in scope.entry) (env_in scope.entry) p quantifier.entry name.now rest.now)
        (unwrap_or numbers.now []))
        (gathered ≡ gathered_of quantifier.entry.op (option_map (map (instance_value (mode_in scope.entry)
        (env_in scope.entry) p quantifier.entry name.now rest.now)) numbers.now))) }
{
    match numbers {
        Some(set) => {
            let gathered = instances(scope, meter, quantifier, name, rest, set)?;
            Ok(gathered)
        }
        None => Ok(without_domain(quantifier.op)),
    }
}

/// What the instances of a quantifier give, one for each number of its domain. The name stands for the number while its
/// instance is evaluated.
#[cycle(evaluating)]
fn instances(
    scope: Scope<'_, '_>,
    meter: &mut Meter,
    quantifier: Quantifier<'_>,
    name: &Name,
    rest: &[Name],
    set: &Runs,
) -> Result<Gathered, Memory>
    requires set { domain_values (mode_in scope) (env_in scope) (domain_tree quantifier.domain.now) ≡ Some set.now }
    ensures { IfOk result (λ gathered. (p : Place) → Told (mode_in scope.entry) meter.old meter.new
        (flat_map (instance_nodes (mode_in scope.entry) (env_in scope.entry) p quantifier.entry name.now rest.now)
        set.now)
        (gathered ≡ gathered_with_more (nothing_yet quantifier.entry.op) (map (instance_value (mode_in scope.entry)
        (env_in scope.entry) p quantifier.entry name.now rest.now) set.now))) }
{
    let scalar = scalar_of(scope, quantifier.domain);
    let mut gathered = before_all(quantifier.op);
    let mut walk = walk_of(set.runs());
    while let Some((number, behind)) = next_number(walk) {
        if is_over(meter) {
            return Ok(gathered);
        }
        let around = Around::Number(scope.around, name, scalar, number);
        let inner = Scope {
            alloc: scope.alloc,
            env: scope.env,
            around: &around,
        };
        let seen = quantified(inner, meter, quantifier, rest)?;
        gathered = with_instance(gathered, seen);
        walk = behind;
    }
    Ok(gathered)
}

/// Some values and the parts that generators lead to behind them, where all are there. All are evaluated.
#[cycle(evaluating)]
fn generated(
    scope: Scope<'_, '_>,
    meter: &mut Meter,
    listing: Listing<'_>,
    generators: &[Generator],
    values: Option<Vec<Value>>,
) -> Result<Option<Vec<Value>>, Memory>
    ensures { IfOk result (λ more. Told (mode_in scope.entry) meter.old meter.new
        (nodes_of (mode_in scope.entry) listing.entry (generators_of generators.now) (env_in scope.entry))
        (listed_in more ≡ map_both ◌++◌ (listed_in values)
        (parts_of (mode_in scope.entry) listing.entry (generators_of generators.now) (env_in scope.entry)))) }
{
    match generators.split_first() {
        Some((first, later)) => {
            let ranging = Ranging {
                listing,
                domain: &first.domain,
                later,
            };
            let more = over_names(scope, meter, ranging, &first.names, values)?;
            Ok(more)
        }
        None => {
            let more = with_part(scope, meter, listing, values)?;
            Ok(more)
        }
    }
}

/// Some values and the parts that names over a domain and the generators behind them lead to.
#[cycle(evaluating)]
fn over_names(
    scope: Scope<'_, '_>,
    meter: &mut Meter,
    ranging: Ranging<'_>,
    names: &[Name],
    values: Option<Vec<Value>>,
) -> Result<Option<Vec<Value>>, Memory>
    ensures { IfOk result (λ more. Told (mode_in scope.entry) meter.old meter.new
        (nodes_of (mode_in scope.entry) ranging.entry.listing (ranging_over ranging.entry names.now)
        (env_in scope.entry))
        (listed_in more ≡ map_both ◌++◌ (listed_in values)
        (parts_of (mode_in scope.entry) ranging.entry.listing (ranging_over ranging.entry names.now)
        (env_in scope.entry)))) }
{
    match names.split_first() {
        Some((name, rest)) => {
            let numbers = numbers_of(scope, meter, ranging.domain)?;
            if is_over(meter) {
                return Ok(None);
            }
            let more = over_range(scope, meter, ranging, name, rest, &numbers, values)?;
            count_name(meter);
            Ok(more)
        }
        None => {
            let more = generated(scope, meter, ranging.listing, ranging.later, values)?;
            Ok(more)
        }
    }
}

/// The same where the first name stands for each number of a domain, which may be undefined.
#[cycle(evaluating)]
fn over_range(
    scope: Scope<'_, '_>,
    meter: &mut Meter,
    ranging: Ranging<'_>,
    name: &Name,
    rest: &[Name],
    numbers: &Option<Runs>,
    values: Option<Vec<Value>>,
) -> Result<Option<Vec<Value>>, Memory>
    requires set { numbers.now ≡ domain_values (mode_in scope) (env_in scope) (domain_tree ranging.domain.now) }
    ensures { IfOk result (λ more. Told (mode_in scope.entry) meter.old meter.new
        (flat_map (nodes_at (mode_in scope.entry) (env_in scope.entry) ranging.entry name.now rest.now)
        (unwrap_or numbers.now []))
        (listed_in more ≡ map_both ◌++◌ (listed_in values) (some_joined (option_map
        (map (parts_at (mode_in scope.entry) (env_in scope.entry) ranging.entry name.now rest.now)) numbers.now)))) }
{
    match numbers {
        Some(set) => {
            let more = over_numbers(scope, meter, ranging, name, rest, set, values)?;
            Ok(more)
        }
        None => Ok(None),
    }
}

/// The same where the first name stands for each number of a set in turn.
#[cycle(evaluating)]
fn over_numbers(
    scope: Scope<'_, '_>,
    meter: &mut Meter,
    ranging: Ranging<'_>,
    name: &Name,
    rest: &[Name],
    set: &Runs,
    values: Option<Vec<Value>>,
) -> Result<Option<Vec<Value>>, Memory>
    requires set { domain_values (mode_in scope) (env_in scope) (domain_tree ranging.domain.now) ≡ Some set.now }
    ensures { IfOk result (λ more. Told (mode_in scope.entry) meter.old meter.new
        (flat_map (nodes_at (mode_in scope.entry) (env_in scope.entry) ranging.entry name.now rest.now) set.now)
        (listed_in more ≡ map_both ◌++◌ (listed_in values) (lists_joined
        (map (parts_at (mode_in scope.entry) (env_in scope.entry) ranging.entry name.now rest.now) set.now)))) }
{
    let scalar = scalar_of(scope, ranging.domain);
    let mut more = values;
    let mut walk = walk_of(set.runs());
    while let Some((number, behind)) = next_number(walk) {
        if is_over(meter) {
            return Ok(more);
        }
        let around = Around::Number(scope.around, name, scalar, number);
        let inner = Scope {
            alloc: scope.alloc,
            env: scope.env,
            around: &around,
        };
        more = over_names(inner, meter, ranging, rest, more)?;
        walk = behind;
    }
    Ok(more)
}

/// Some values and the part behind them, where the conditions hold.
#[cycle(evaluating)]
fn with_part(
    scope: Scope<'_, '_>,
    meter: &mut Meter,
    listing: Listing<'_>,
    values: Option<Vec<Value>>,
) -> Result<Option<Vec<Value>>, Memory>
    ensures { IfOk result (λ more. Told (mode_in scope.entry) meter.old meter.new
        (part_nodes (mode_in scope.entry) (expr_tree listing.entry.body.now) (expr_trees listing.entry.conditions.now)
        (env_in scope.entry))
        (listed_in more ≡ map_both ◌++◌ (listed_in values)
        (part_value (mode_in scope.entry) (expr_tree listing.entry.body.now) (expr_trees listing.entry.conditions.now)
        (env_in scope.entry)))) }
{
    let truth = truths(scope, meter, true, listing.conditions)?;
    if is_over(meter) {
        return Ok(None);
    }
    match truth {
        Some(true) => {
            let seen = value_of(scope, meter, listing.body)?;
            let more = with_value(scope.alloc, values, seen)?;
            Ok(more)
        }
        Some(false) => Ok(values),
        None => Ok(None),
    }
}
