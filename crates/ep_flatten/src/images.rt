//! The numbers that a term may have, by those of its parts: the domain of its variable.

ghost use Rattle.std.specs.Prelude.{◌≡◌, ◌+ℤ◌, ◌*ℤ◌, ℤ, Some, IfOk, IfSome, IsSome, OnOk, length};
ghost use Rattle.ep_base.specs.Intervals.{IsWithinReach, LiesIn};
ghost use Rattle.ep_base.specs.Reads as reads;
ghost use Rattle.ep_base.specs.Reads.{IsWithinNumbers};
ghost use Rattle.ep_flatten.specs.Forms.{own};
ghost use Rattle.ep_flatten.specs.FormViews.{plain_form};
ghost use Rattle.ep_flatten.specs.Images.{Collects, HasNumbers, HasPairs, HasResult, HoldsImage, IsDomainImage, domain_at, operation_result, paired};
ghost use Rattle.ep_ground.specs.NodeViews.{plain_node};
ghost use Rattle.ep_ground.specs.Nodes as nodes;
ghost use Rattle.ep_numbers.specs.Spans.{IsWide, interval_of};

use crate::building::domain_of;
use crate::forms::Form;
use crate::lists::place_at;
use ep_base::{Key, Memory, Run, Runs};
use ep_ground::{Node, Term};
use ep_numbers::quotients::{quotient, remainder};
use ep_numbers::{Span, listed, nth_power, set_length, times, width};
use std::alloc::Global;

/// An operation on one number.
#[derive(Clone, Copy, Debug, PartialEq, Eq)]
pub enum Operation {
    /// The number itself.
    Same,
    /// The number multiplied by the first one here, and the second one added.
    Scaled(i64, i64),
    /// A power with this exponent.
    Power(u64),
    /// The absolute value.
    Absolute,
    /// This number multiplied by it.
    Times(i64),
    /// This number divided by it, and 0 for 0.
    Over(i64),
    /// What this number leaves when it is divided by it, and 0 for 0.
    Modulo(i64),
}

/// An operation on two numbers.
#[derive(Clone, Copy, Debug, PartialEq, Eq)]
pub enum Pairing {
    /// The product.
    Product,
    /// The quotient, and 0 for a division by 0.
    Quotient,
    /// The remainder, and 0 for a division by 0.
    Remainder,
}

/// A number and a multiple of another one, where it is no too great word.
fn scaled_number(coefficient: i64, more: i64, number: i64) -> Option<i128>
    ensures same { IfSome result (λ n. n ≡ more +ℤ (coefficient *ℤ number)) }
    ensures told { IsWide (more +ℤ (coefficient *ℤ number)) → IsSome result }
{
    let product = times(coefficient, number);
    let sum = i128::from(more).checked_add(product)?;
    Some(sum)
}

/// A quotient, and 0 for a division by 0.
#[tactic(auto, unfolding(ep_base::specs::Reads::safe_quotient))]
fn safe_quotient(one: i64, other: i64) -> i128
    ensures { result ≡ reads.safe_quotient one other }
{
    match quotient(one, other) {
        Some(found) => found,
        None => 0,
    }
}

/// A remainder, and 0 for a division by 0.
#[tactic(auto, unfolding(ep_base::specs::Reads::safe_remainder))]
fn safe_remainder(one: i64, other: i64) -> i128
    ensures { result ≡ reads.safe_remainder one other }
{
    match remainder(one, other) {
        Some(found) => found,
        None => 0,
    }
}

/// The result of an operation, where it isn't too far from 0.
#[tactic(auto, unfolding(crate::specs::Images::operation_result), using(ep_numbers::proofs::Ends::absolute_is))]
fn result_of(op: Operation, number: i64) -> Option<i128>
    ensures { IsWithinNumbers (operation_result op number) → result ≡ Some (operation_result op number) }
{
    match op {
        Operation::Same => Some(i128::from(number)),
        Operation::Scaled(coefficient, more) => scaled_number(coefficient, more, number),
        Operation::Power(exponent) => match nth_power(number, exponent) {
            Some(power) => Some(i128::from(power)),
            None => None,
        },
        Operation::Absolute => Some(i128::from(number).abs()),
        Operation::Times(first) => Some(times(first, number)),
        Operation::Over(first) => Some(safe_quotient(first, number)),
        Operation::Modulo(first) => Some(safe_remainder(first, number)),
    }
}

/// A number as a word, where it lies in an interval.
fn word_within(span: Span, number: i128) -> Option<i64>
    ensures same { IfSome result (λ n. n ≡ number) }
    ensures within { IfSome result (λ n. LiesIn n (interval_of span)) }
    ensures told { LiesIn number (interval_of span) → IsSome result }
{
    if number < i128::from(span.low) || number > i128::from(span.high) {
        return None;
    }
    Some(number as i64)
}

/// The result of an operation, where it lies in an interval.
fn result_within(span: Span, op: Operation, number: i64) -> Option<i64>
    requires { IsWithinReach (interval_of span) }
    ensures within { IfSome result (λ n. LiesIn n (interval_of span)) }
    ensures told { LiesIn (operation_result op number) (interval_of span) → result ≡ Some (operation_result op number) }
{
    match result_of(op, number) {
        Some(result) => word_within(span, result),
        None => None,
    }
}

/// Adds the results of an operation on some numbers that lie in an interval.
fn push_results(
    results: &mut Vec<Run>,
    span: Span,
    op: Operation,
    numbers: &[i64],
) -> Result<(), Memory>
    requires { IsWithinReach (interval_of span) }
    ensures { OnOk result (Collects (interval_of span) (HasResult (interval_of span) (operation_result op)) numbers.now results.old.items results.new.items) }
{
    for number in numbers {
        let Some(result) = result_within(span, op, *number) else {
            continue;
        };
        results.push(Run {
            lo: result,
            hi: result,
        })?;
    }
    Ok(())
}

/// An operation on two numbers of which the first is known.
#[tactic(auto, unfolding(crate::specs::Images::operation_result, crate::specs::Images::paired))]
fn with_first(op: Pairing, first: i64) -> Operation
    ensures { (y : ℤ) → operation_result result y ≡ paired op first y }
{
    match op {
        Pairing::Product => Operation::Times(first),
        Pairing::Quotient => Operation::Over(first),
        Pairing::Remainder => Operation::Modulo(first),
    }
}

/// Adds the results of an operation on each two numbers that lie in an interval.
fn push_pairs(
    results: &mut Vec<Run>,
    span: Span,
    op: Pairing,
    numbers: &[i64],
    others: &[i64],
) -> Result<(), Memory>
    requires { IsWithinReach (interval_of span) }
    ensures { OnOk result (Collects (interval_of span) (HasPairs (interval_of span) (paired op) others.now) numbers.now results.old.items results.new.items) }
{
    for number in numbers {
        push_results(results, span, with_first(op, *number), others)?;
    }
    Ok(())
}

/// The numbers of the domain of a term's variable.
fn numbers_at(alloc: Global, vars: &[Runs], places: &[u64], term: Term) -> Result<Vec<i64>, Memory>
    ensures { IfOk result (λ list. list.items ≡ domain_at vars.now places.now term) }
{
    let place = place_at(places, term) as usize;
    if place < vars.len() {
        listed(alloc, &vars[place])
    } else {
        Ok(Vec::new(alloc))
    }
}

/// Adds the numbers of the domains of terms' variables that lie in an interval.
fn push_parts(
    alloc: Global,
    results: &mut Vec<Run>,
    span: Span,
    vars: &[Runs],
    places: &[u64],
    parts: &[Term],
) -> Result<(), Memory>
    requires { IsWithinReach (interval_of span) }
    ensures { OnOk result (Collects (interval_of span) (HasNumbers (interval_of span) vars.now places.now) parts.now results.old.items results.new.items) }
{
    for part in parts {
        let numbers = numbers_at(alloc, vars, places, *part)?;
        push_results(results, span, Operation::Same, &numbers)?;
    }
    Ok(())
}

/// How many numbers the domain of a term's variable has.
fn count_at(vars: &[Runs], places: &[u64], term: Term) -> u128
    ensures { result ≡ length (domain_at vars.now places.now term) }
{
    let place = place_at(places, term) as usize;
    if place < vars.len() {
        set_length(&vars[place])
    } else {
        0
    }
}

/// How many numbers the domains of terms' variables have together, as far as a word tells it: this only guides a choice.
fn count_of(vars: &[Runs], places: &[u64], terms: &[Term]) -> u128 {
    let mut count: u128 = 0;
    for term in terms {
        count = count.saturating_add(count_at(vars, places, *term));
    }
    count
}

/// Whether so many results are listed one by one, and not all numbers of the interval taken: where they may be fewer. This
/// only guides a choice.
fn are_listed(count: u128, span: Span) -> bool {
    count / 2 < width(span)
}

/// The results of an operation on the numbers of a term's variable, or all numbers of an interval that has few.
fn one_image(
    alloc: Global,
    vars: &[Runs],
    places: &[u64],
    span: Span,
    op: Operation,
    part: Term,
) -> Result<Runs, Memory>
    requires { IsWithinReach (interval_of span) }
    ensures { IfOk result (λ set. IsDomainImage (interval_of span) (HasResult (interval_of span) (operation_result op)) (domain_at vars.now places.now part) set) }
{
    if !are_listed(count_at(vars, places, part), span) {
        return domain_of(alloc, span);
    }
    let numbers = numbers_at(alloc, vars, places, part)?;
    let mut results = Vec::new(alloc);
    push_results(&mut results, span, op, &numbers)?;
    Runs::new(alloc, results)
}

/// The results of an operation on the numbers of two terms' variables, or all numbers of an interval that has few.
fn two_image(
    alloc: Global,
    vars: &[Runs],
    places: &[u64],
    span: Span,
    op: Pairing,
    one: Term,
    other: Term,
) -> Result<Runs, Memory>
    requires { IsWithinReach (interval_of span) }
    ensures { IfOk result (λ set. IsDomainImage (interval_of span)
        (HasPairs (interval_of span) (paired op) (domain_at vars.now places.now other)) (domain_at vars.now places.now one) set) }
{
    let count = count_at(vars, places, one).saturating_mul(count_at(vars, places, other));
    if !are_listed(count, span) {
        return domain_of(alloc, span);
    }
    let numbers = numbers_at(alloc, vars, places, one)?;
    let others = numbers_at(alloc, vars, places, other)?;
    let mut results = Vec::new(alloc);
    push_pairs(&mut results, span, op, &numbers, &others)?;
    Runs::new(alloc, results)
}

/// The numbers of some terms' variables, or all numbers of an interval that has few.
fn joined_image(
    alloc: Global,
    vars: &[Runs],
    places: &[u64],
    span: Span,
    parts: &[Term],
) -> Result<Runs, Memory>
    requires { IsWithinReach (interval_of span) }
    ensures { IfOk result (λ set. IsDomainImage (interval_of span) (HasNumbers (interval_of span) vars.now places.now) parts.now set) }
{
    if !are_listed(count_of(vars, places, parts), span) {
        return domain_of(alloc, span);
    }
    let mut results = Vec::new(alloc);
    push_parts(alloc, &mut results, span, vars, places, parts)?;
    Runs::new(alloc, results)
}

/// The numbers that a number and a sum may be. A sum of two parts or more has all numbers of the interval.
fn sum_image(
    alloc: Global,
    vars: &[Runs],
    places: &[u64],
    span: Span,
    number: i64,
    parts: &[(i64, Term)],
) -> Result<Runs, Memory>
    requires { IsWithinReach (interval_of span) }
    ensures { IfOk result (λ set. HoldsImage vars.now places.now (nodes.sum number parts.now) own (interval_of span) set) }
{
    let Some((part, others)) = parts.split_first() else {
        return domain_of(alloc, span);
    };
    if others.len() > 0 {
        return domain_of(alloc, span);
    }
    one_image(
        alloc,
        vars,
        places,
        span,
        Operation::Scaled(part.0, number),
        part.1,
    )
}

/// The numbers that one of some terms may be.
fn pick_image(
    alloc: Global,
    vars: &[Runs],
    places: &[u64],
    span: Span,
    parts: &[Term],
    keys: &[Key],
    indices: &[Term],
) -> Result<Runs, Memory>
    requires { IsWithinReach (interval_of span) }
    ensures { IfOk result (λ set. HoldsImage vars.now places.now (nodes.safe_pick parts.now keys.now indices.now) own (interval_of span) set) }
{
    if parts.len() == 0 {
        return domain_of(alloc, span);
    }
    joined_image(alloc, vars, places, span, parts)
}

/// The numbers that a product may be.
fn product_image(
    alloc: Global,
    vars: &[Runs],
    places: &[u64],
    span: Span,
    one: Term,
    other: Term,
) -> Result<Runs, Memory>
    requires { IsWithinReach (interval_of span) }
    ensures { IfOk result (λ set. HoldsImage vars.now places.now (nodes.product one other) own (interval_of span) set) }
{
    two_image(alloc, vars, places, span, Pairing::Product, one, other)
}

/// The numbers that a quotient may be.
fn quotient_image(
    alloc: Global,
    vars: &[Runs],
    places: &[u64],
    span: Span,
    one: Term,
    other: Term,
) -> Result<Runs, Memory>
    requires { IsWithinReach (interval_of span) }
    ensures { IfOk result (λ set. HoldsImage vars.now places.now (nodes.safe_quotient one other) own (interval_of span) set) }
{
    two_image(alloc, vars, places, span, Pairing::Quotient, one, other)
}

/// The numbers that a remainder may be.
fn remainder_image(
    alloc: Global,
    vars: &[Runs],
    places: &[u64],
    span: Span,
    one: Term,
    other: Term,
) -> Result<Runs, Memory>
    requires { IsWithinReach (interval_of span) }
    ensures { IfOk result (λ set. HoldsImage vars.now places.now (nodes.safe_remainder one other) own (interval_of span) set) }
{
    two_image(alloc, vars, places, span, Pairing::Remainder, one, other)
}

/// The numbers that a power may be.
fn power_image(
    alloc: Global,
    vars: &[Runs],
    places: &[u64],
    span: Span,
    part: Term,
    exponent: u64,
) -> Result<Runs, Memory>
    requires { IsWithinReach (interval_of span) }
    ensures { IfOk result (λ set. HoldsImage vars.now places.now (nodes.power part exponent) own (interval_of span) set) }
{
    one_image(alloc, vars, places, span, Operation::Power(exponent), part)
}

/// The numbers that an absolute value may be.
fn absolute_image(
    alloc: Global,
    vars: &[Runs],
    places: &[u64],
    span: Span,
    part: Term,
) -> Result<Runs, Memory>
    requires { IsWithinReach (interval_of span) }
    ensures { IfOk result (λ set. HoldsImage vars.now places.now (nodes.absolute part) own (interval_of span) set) }
{
    one_image(alloc, vars, places, span, Operation::Absolute, part)
}

/// The numbers that the least of some terms may be.
fn least_image(
    alloc: Global,
    vars: &[Runs],
    places: &[u64],
    span: Span,
    parts: &[Term],
) -> Result<Runs, Memory>
    requires { IsWithinReach (interval_of span) }
    ensures { IfOk result (λ set. HoldsImage vars.now places.now (nodes.least parts.now) own (interval_of span) set) }
{
    joined_image(alloc, vars, places, span, parts)
}

/// The numbers that the greatest of some terms may be.
fn greatest_image(
    alloc: Global,
    vars: &[Runs],
    places: &[u64],
    span: Span,
    parts: &[Term],
) -> Result<Runs, Memory>
    requires { IsWithinReach (interval_of span) }
    ensures { IfOk result (λ set. HoldsImage vars.now places.now (nodes.greatest parts.now) own (interval_of span) set) }
{
    joined_image(alloc, vars, places, span, parts)
}

/// The numbers that a term may have with this node, by those of its parts.
fn node_image(
    alloc: Global,
    vars: &[Runs],
    places: &[u64],
    span: Span,
    node: &Node,
) -> Result<Runs, Memory>
    requires { IsWithinReach (interval_of span) }
    ensures { IfOk result (λ set. HoldsImage vars.now places.now (plain_node node.now) own (interval_of span) set) }
{
    match node {
        Node::Add(number, parts) => sum_image(alloc, vars, places, span, *number, parts),
        Node::Mul(one, other) => product_image(alloc, vars, places, span, *one, *other),
        Node::SafeDiv(one, other) => quotient_image(alloc, vars, places, span, *one, *other),
        Node::SafeMod(one, other) => remainder_image(alloc, vars, places, span, *one, *other),
        Node::Pow(part, exponent) => power_image(alloc, vars, places, span, *part, *exponent),
        Node::Abs(part) => absolute_image(alloc, vars, places, span, *part),
        Node::Min(parts) => least_image(alloc, vars, places, span, parts),
        Node::Max(parts) => greatest_image(alloc, vars, places, span, parts),
        Node::SafePick(parts, keys, indices) => {
            pick_image(alloc, vars, places, span, parts, keys, indices)
        }
        _ => domain_of(alloc, span),
    }
}

/// The domain of the variable of a term with this node and this form, whose numbers lie in an interval: it has each number
/// that the term has where its parts have numbers of their domains. It has no more numbers than the interval. Of an operation
/// on one number or two, and of the least, the greatest or what is picked of some, it has no more than their numbers lead to
/// either: a product of two variables has at most as many as there are pairs of their numbers. Of a sum of two parts or more
/// it is the interval. Linear in twice the numbers of the interval at most.
pub fn domain_for(
    alloc: Global,
    vars: &[Runs],
    places: &[u64],
    span: Span,
    node: &Node,
    form: &Form,
) -> Result<Runs, Memory>
    requires { IsWithinReach (interval_of span) }
    ensures { IfOk result (λ set. HoldsImage vars.now places.now (plain_node node.now) (plain_form form.now) (interval_of span) set) }
{
    match form {
        Form::Own => node_image(alloc, vars, places, span, node),
        Form::Sum(number, parts) => sum_image(alloc, vars, places, span, *number, parts),
        Form::Compare(_, _, _) => domain_of(alloc, span),
    }
}
