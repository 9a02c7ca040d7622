//! The types of expressions and domains.

ghost use Rattle.std.specs.Prelude.{◌≡◌, false, IfSome, Ok, OnOk};
ghost use Rattle.ep_tree.specs.Views.{domain_tree, domains_of, end_of, expr_tree, expr_trees, generators_of, indices_of, ranges_of, terms_of};
ghost use Rattle.ep_types_rules.specs.Concluding.{SaysOfCheck};
ghost use Rattle.ep_types.specs.Checking.{check, check_all, check_domain, check_domains, check_end, check_generators, check_index, check_indices, check_readings, check_terms};
ghost use Rattle.ep_types.specs.Hiding.{Hides};
ghost use Rattle.ep_types.specs.Kinds.{HasDomain, HasList, HasOnePart, HasThreeParts, HasTwoParts};
ghost use Rattle.ep_types.specs.Meanings.{IsSame, names_context};
ghost use Rattle.ep_types.specs.Reading.{check_bounds, check_read, range_bounds, stated_index};

use crate::names::Names;
use ep_base::{Name, Place};
use ep_tree::{Domain, DomainKind, Expr, Generator, Kind, Range, ValueType};
use ep_types_rules as rules;
use ep_types_rules::StaticError;

/// The type of an expression, where decision variables may stand or may not.
#[cycle(checking)]
#[tactic(auto, using(ep_types_rules::proofs::Said::passed_on, ep_types_rules::proofs::Said::memory_says, crate::proofs::Scopes::same_again, crate::proofs::Scopes::same_after), unfolding(crate::specs::Checking::check, ep_tree::specs::Views::kind_tree))]
pub(crate) fn type_of<'a>(
    names: &mut Names<'a>,
    decisions: bool,
    e: &'a Expr,
) -> Result<ValueType, StaticError>
    ensures same { OnOk result (IsSame names.old names.new) }
    ensures says { SaysOfCheck (λ t. t) result (check (names_context names.old) decisions (expr_tree e.now)) }
{
    let place = e.place;
    match &e.kind {
        Kind::Number(_) => Ok(ValueType::Int),
        Kind::Truth(_) => Ok(ValueType::Bool),
        Kind::Named(name) => names.value_type(decisions, place, name),
        Kind::Group(e) => type_of(names, decisions, e),
        Kind::Not(_)
        | Kind::Neg(_)
        | Kind::Abs(_)
        | Kind::ToInt(_)
        | Kind::Factorial(_)
        | Kind::Flatten(_)
        | Kind::Fold(_, _)
        | Kind::AllDiff(_) => with_one_part(names, decisions, e),
        Kind::Binary(_, _, _)
        | Kind::Compare(_, _, _)
        | Kind::Lex(_, _, _)
        | Kind::InSet(_, _)
        | Kind::Table(_, _) => with_two_parts(names, decisions, e),
        Kind::Gcc(_, _, _) | Kind::AtLeast(_, _, _) | Kind::AtMost(_, _, _) => {
            with_three_parts(names, decisions, e)
        }
        Kind::Add(_) | Kind::And(_) | Kind::Or(_) | Kind::Literal(_, _) | Kind::Read(_, _) => {
            with_list(names, decisions, e)
        }
        Kind::InDomain(_, _) | Kind::Quant(_, _, _, _) | Kind::Comprehension(_, _, _, _) => {
            with_domain(names, decisions, e)
        }
    }
}

/// The type of an expression with one part.
#[cycle(checking)]
#[tactic(auto, using(ep_types_rules::proofs::Said::passed_on, ep_types_rules::proofs::Said::memory_says, crate::proofs::Scopes::same_again, crate::proofs::Scopes::same_after), unfolding(crate::specs::Checking::check, ep_tree::specs::Views::kind_tree))]
fn with_one_part<'a>(
    names: &mut Names<'a>,
    decisions: bool,
    e: &'a Expr,
) -> Result<ValueType, StaticError>
    requires { HasOnePart e.now.kind }
    ensures same { OnOk result (IsSame names.old names.new) }
    ensures says { SaysOfCheck (λ t. t) result (check (names_context names.old) decisions (expr_tree e.now)) }
{
    let place = e.place;
    match &e.kind {
        Kind::Not(e) => {
            let ty = type_of(names, decisions, e)?;
            rules::gives(place, ValueType::Bool, rules::is_boolean(ty))
        }
        Kind::Neg(e) | Kind::Abs(e) => {
            let ty = type_of(names, decisions, e)?;
            rules::gives(place, ValueType::Int, rules::is_integer(ty))
        }
        Kind::ToInt(e) => {
            let ty = type_of(names, decisions, e)?;
            rules::gives(place, ValueType::Int, rules::is_boolean(ty))
        }
        Kind::Factorial(e) => {
            let ty = type_of(names, false, e)?;
            rules::gives(place, ValueType::Int, rules::is_integer(ty))
        }
        Kind::Flatten(m) => {
            let ty = type_of(names, decisions, m)?;
            rules::flattened(place, ty)
        }
        Kind::Fold(op, m) => {
            let ty = type_of(names, decisions, m)?;
            rules::folded(place, *op, ty)
        }
        Kind::AllDiff(m) => {
            let ty = type_of(names, decisions, m)?;
            rules::gives(place, ValueType::Bool, rules::is_matrix(ty))
        }
        _ => unreachable!(),
    }
}

/// The type of an expression with two parts.
#[cycle(checking)]
#[tactic(auto, using(ep_types_rules::proofs::Said::passed_on, ep_types_rules::proofs::Said::memory_says, crate::proofs::Scopes::same_again, crate::proofs::Scopes::same_after), unfolding(crate::specs::Checking::check, ep_tree::specs::Views::kind_tree))]
fn with_two_parts<'a>(
    names: &mut Names<'a>,
    decisions: bool,
    e: &'a Expr,
) -> Result<ValueType, StaticError>
    requires { HasTwoParts e.now.kind }
    ensures same { OnOk result (IsSame names.old names.new) }
    ensures says { SaysOfCheck (λ t. t) result (check (names_context names.old) decisions (expr_tree e.now)) }
{
    let place = e.place;
    match &e.kind {
        Kind::Binary(op, left, right) => {
            let one = type_of(names, decisions, left)?;
            let may_decide = decisions && !rules::is_power(*op);
            let other = type_of(names, may_decide, right)?;
            rules::binary(place, *op, one, other)
        }
        Kind::Compare(_, left, right) => {
            let one = type_of(names, decisions, left)?;
            let other = type_of(names, decisions, right)?;
            rules::both_integer(place, one, other)
        }
        Kind::Lex(_, left, right) => {
            let one = type_of(names, decisions, left)?;
            let other = type_of(names, decisions, right)?;
            rules::gives(place, ValueType::Bool, rules::are_lists(one, other))
        }
        Kind::InSet(e, m) => {
            let one = type_of(names, decisions, e)?;
            let other = type_of(names, decisions, m)?;
            let holds = rules::is_integer(one) && rules::is_matrix(other);
            rules::gives(place, ValueType::Bool, holds)
        }
        Kind::Table(row, rows) => {
            let one = type_of(names, decisions, row)?;
            let other = type_of(names, false, rows)?;
            let holds = rules::has_dimensions(1, one) && rules::has_dimensions(2, other);
            rules::gives(place, ValueType::Bool, holds)
        }
        _ => unreachable!(),
    }
}

/// The type of an expression that counts values in a matrix.
#[cycle(checking)]
#[tactic(auto, using(ep_types_rules::proofs::Said::passed_on, ep_types_rules::proofs::Said::memory_says, crate::proofs::Scopes::same_again, crate::proofs::Scopes::same_after), unfolding(crate::specs::Checking::check, ep_tree::specs::Views::kind_tree))]
fn with_three_parts<'a>(
    names: &mut Names<'a>,
    decisions: bool,
    e: &'a Expr,
) -> Result<ValueType, StaticError>
    requires { HasThreeParts e.now.kind }
    ensures same { OnOk result (IsSame names.old names.new) }
    ensures says { SaysOfCheck (λ t. t) result (check (names_context names.old) decisions (expr_tree e.now)) }
{
    let place = e.place;
    match &e.kind {
        Kind::Gcc(m, values, counts) => {
            let one = type_of(names, decisions, m)?;
            let other = type_of(names, false, values)?;
            let third = type_of(names, decisions, counts)?;
            rules::counting(place, one, other, third)
        }
        Kind::AtLeast(m, counts, values) | Kind::AtMost(m, counts, values) => {
            let one = type_of(names, decisions, m)?;
            let other = type_of(names, false, counts)?;
            let third = type_of(names, false, values)?;
            rules::counting(place, one, other, third)
        }
        _ => unreachable!(),
    }
}

/// The type of an expression with a list of parts.
#[cycle(checking)]
#[tactic(auto, using(ep_types_rules::proofs::Said::passed_on, ep_types_rules::proofs::Said::memory_says, crate::proofs::Scopes::same_again, crate::proofs::Scopes::same_after), unfolding(crate::specs::Checking::check, ep_tree::specs::Views::kind_tree))]
fn with_list<'a>(
    names: &mut Names<'a>,
    decisions: bool,
    e: &'a Expr,
) -> Result<ValueType, StaticError>
    requires { HasList e.now.kind }
    ensures same { OnOk result (IsSame names.old names.new) }
    ensures says { SaysOfCheck (λ t. t) result (check (names_context names.old) decisions (expr_tree e.now)) }
{
    let place = e.place;
    match &e.kind {
        Kind::Add(terms) => {
            let types = term_types(names, decisions, terms)?;
            rules::gives(place, ValueType::Int, rules::all_integer(&types))
        }
        Kind::And(parts) => {
            let types = types_of(names, decisions, parts)?;
            rules::gives(place, ValueType::Bool, rules::all_boolean(&types))
        }
        Kind::Or(parts) => {
            let types = types_of(names, decisions, parts)?;
            rules::gives(place, ValueType::Bool, rules::all_boolean(&types))
        }
        Kind::Literal(parts, index) => {
            let types = types_of(names, decisions, parts)?;
            let scalar = index_is_scalar(names, index)?;
            rules::list(place, &types, scalar)
        }
        Kind::Read(m, indices) => {
            let ty = type_of(names, decisions, m)?;
            read_type(names, decisions, place, ty, indices)
        }
        _ => unreachable!(),
    }
}

/// The type of an expression with a domain whose values are gone through or tested.
#[cycle(checking)]
#[tactic(auto, using(ep_types_rules::proofs::Said::passed_on, ep_types_rules::proofs::Said::memory_says, crate::proofs::Scopes::same_again, crate::proofs::Scopes::same_after), unfolding(crate::specs::Checking::check, ep_tree::specs::Views::kind_tree))]
fn with_domain<'a>(
    names: &mut Names<'a>,
    decisions: bool,
    e: &'a Expr,
) -> Result<ValueType, StaticError>
    requires { HasDomain e.now.kind }
    ensures same { OnOk result (IsSame names.old names.new) }
    ensures says { SaysOfCheck (λ t. t) result (check (names_context names.old) decisions (expr_tree e.now)) }
{
    let place = e.place;
    match &e.kind {
        Kind::InDomain(e, domain) => {
            let one = type_of(names, decisions, e)?;
            let other = domain_type(names, false, domain)?;
            rules::both_integer(place, one, other)
        }
        Kind::Quant(op, quantified, domain, e) => {
            let depth = names.inner.len();
            let scalar = read_domain(names, quantified, domain)?;
            let ty = type_of(names, decisions, e)?;
            names.show(depth);
            rules::quantified(place, *op, scalar, ty)
        }
        Kind::Comprehension(e, generators, conditions, domain) => {
            let index = index_is_scalar(names, domain)?;
            let depth = names.inner.len();
            let scalar = read_generators(names, generators)?;
            let truths = types_of(names, false, conditions)?;
            let ty = type_of(names, decisions, e)?;
            names.show(depth);
            rules::comprehension(place, index, scalar, &truths, ty)
        }
        _ => unreachable!(),
    }
}

/// The types of some expressions.
#[cycle(checking)]
#[tactic(auto, using(ep_types_rules::proofs::Said::memory_says))]
fn types_of<'a>(
    names: &mut Names<'a>,
    decisions: bool,
    parts: &'a [Expr],
) -> Result<Vec<ValueType>, StaticError>
    ensures same { OnOk result (IsSame names.old names.new) }
    ensures says { SaysOfCheck (λ v. v.items) result
        (check_all (names_context names.old) decisions (expr_trees parts.now)) }
{
    let mut types = Vec::with_capacity(names.alloc, parts.len())?;
    for part in parts {
        let ty = type_of(names, decisions, part)?;
        types.push(ty)?;
    }
    Ok(types)
}

/// The types of the terms of a chain.
#[cycle(checking)]
#[tactic(auto, using(ep_types_rules::proofs::Said::memory_says))]
fn term_types<'a>(
    names: &mut Names<'a>,
    decisions: bool,
    terms: &'a [(bool, Expr)],
) -> Result<Vec<ValueType>, StaticError>
    ensures same { OnOk result (IsSame names.old names.new) }
    ensures says { SaysOfCheck (λ v. v.items) result
        (check_terms (names_context names.old) decisions (terms_of terms.now)) }
{
    let mut types = Vec::with_capacity(names.alloc, terms.len())?;
    for term in terms {
        let ty = type_of(names, decisions, &term.1)?;
        types.push(ty)?;
    }
    Ok(types)
}

/// A read of a matrix of this type.
#[cycle(checking)]
fn read_type<'a>(
    names: &mut Names<'a>,
    decisions: bool,
    place: Place,
    ty: ValueType,
    indices: &'a [Option<Expr>],
) -> Result<ValueType, StaticError>
    ensures same { OnOk result (IsSame names.old names.new) }
    ensures says { SaysOfCheck (λ t. t) result
        (check_read (names_context names.old) decisions place ty (indices_of indices.now)) }
{
    let may_decide = rules::may_decide_indices(decisions, ty, indices);
    let types = index_types(names, may_decide, indices)?;
    rules::read(place, ty, &types, rules::count_slices(indices))
}

/// The types of the indices of a read that aren't `..`.
#[cycle(checking)]
#[tactic(auto, using(ep_types_rules::proofs::Said::memory_says))]
fn index_types<'a>(
    names: &mut Names<'a>,
    decisions: bool,
    indices: &'a [Option<Expr>],
) -> Result<Vec<ValueType>, StaticError>
    ensures same { OnOk result (IsSame names.old names.new) }
    ensures says { SaysOfCheck (λ v. v.items) result
        (check_indices (names_context names.old) decisions (indices_of indices.now)) }
{
    let mut types = Vec::with_capacity(names.alloc, indices.len())?;
    for index in indices {
        match index {
            None => continue,
            Some(e) => {
                let ty = type_of(names, decisions, e)?;
                types.push(ty)?;
            }
        }
    }
    Ok(types)
}

/// The type of a domain, whose ranges may be open or may not.
#[cycle(checking)]
#[tactic(auto, using(ep_types_rules::proofs::Said::passed_on, ep_types_rules::proofs::Said::memory_says, crate::proofs::Scopes::same_again, crate::proofs::Scopes::same_after), unfolding(crate::specs::Checking::check, ep_tree::specs::Views::domain_kind_tree))]
pub(crate) fn domain_type<'a>(
    names: &mut Names<'a>,
    may_open: bool,
    domain: &'a Domain,
) -> Result<ValueType, StaticError>
    ensures same { OnOk result (IsSame names.old names.new) }
    ensures says { SaysOfCheck (λ t. t) result
        (check_domain (names_context names.old) may_open (domain_tree domain.now)) }
{
    let place = domain.place;
    match &domain.kind {
        DomainKind::Bool => Ok(ValueType::Bool),
        DomainKind::Int => {
            rules::check_open(place, may_open)?;
            Ok(ValueType::Int)
        }
        DomainKind::Ranges(ranges) => {
            rules::check_open(place, rules::may_have_ranges(may_open, ranges))?;
            let integer = all_bounds_are_integer(names, ranges)?;
            rules::gives(place, ValueType::Int, integer)
        }
        DomainKind::Named(name) => names.domain_type(place, name),
        DomainKind::Group(inner) => domain_type(names, may_open, inner),
        DomainKind::Set(_, left, right) => {
            let one = domain_type(names, may_open, left)?;
            let other = domain_type(names, may_open, right)?;
            rules::set(place, one, other)
        }
        DomainKind::Matrix(indices, elements) => {
            let types = domain_types(names, indices)?;
            let element = domain_type(names, may_open, elements)?;
            rules::matrix(place, &types, element)
        }
    }
}

/// The types of index domains.
#[cycle(checking)]
#[tactic(auto, using(ep_types_rules::proofs::Said::memory_says))]
fn domain_types<'a>(
    names: &mut Names<'a>,
    domains: &'a [Domain],
) -> Result<Vec<ValueType>, StaticError>
    ensures same { OnOk result (IsSame names.old names.new) }
    ensures says { SaysOfCheck (λ v. v.items) result
        (check_domains (names_context names.old) (domains_of domains.now)) }
{
    let mut types = Vec::with_capacity(names.alloc, domains.len())?;
    for domain in domains {
        let ty = domain_type(names, false, domain)?;
        types.push(ty)?;
    }
    Ok(types)
}

/// The type of a domain, which is read where it isn't known.
#[cycle(checking)]
#[tactic(auto, using(crate::proofs::Scopes::same_again))]
fn domain_again<'a>(
    names: &mut Names<'a>,
    known: Option<ValueType>,
    domain: &'a Domain,
) -> Result<ValueType, StaticError>
    ensures same { OnOk result (IsSame names.old names.new) }
    ensures says { IfSome known (λ t.
        check_domain (names_context names.old) false (domain_tree domain.now) ≡ Ok t)
        → SaysOfCheck (λ t. t) result (check_domain (names_context names.old) false (domain_tree domain.now)) }
{
    match known {
        Some(ty) => Ok(ty),
        None => domain_type(names, false, domain),
    }
}

/// The types of a domain behind each of some names, which hide what they stood for: whether all are
/// scalar. It is read again only behind a name that stood for something else before.
#[cycle(checking)]
fn read_domain<'a>(
    names: &mut Names<'a>,
    quantified: &'a [Name],
    domain: &'a Domain,
) -> Result<bool, StaticError>
    ensures hides { OnOk result (Hides names.old names.new) }
    ensures says { SaysOfCheck (λ b. (b, names_context names.new)) result
        (check_readings quantified.now (λ c. check_domain c false (domain_tree domain.now))
        (names_context names.old)) }
{
    let mut scalar = true;
    let mut known = None;
    for name in quantified {
        let ty = domain_again(names, known, domain)?;
        scalar = rules::both(scalar, rules::is_integer(ty));
        known = names.quantify(name, ty)?;
    }
    Ok(scalar)
}

/// Reads the domains of generators, whose names hide what they stood for, and says whether each
/// reading is scalar.
#[cycle(checking)]
fn read_generators<'a>(
    names: &mut Names<'a>,
    generators: &'a [Generator],
) -> Result<bool, StaticError>
    ensures hides { OnOk result (Hides names.old names.new) }
    ensures says { SaysOfCheck (λ b. (b, names_context names.new)) result
        (check_generators (names_context names.old) (generators_of generators.now)) }
{
    let mut scalar = true;
    for generator in generators {
        let read = read_domain(names, &generator.names, &generator.domain)?;
        scalar = rules::both(scalar, read);
    }
    Ok(scalar)
}

/// Whether the domain of a list's indices is scalar, where one is stated.
#[cycle(checking)]
#[tactic(auto, using(ep_types_rules::proofs::Said::passed_on, crate::proofs::Scopes::same_again, crate::proofs::Scopes::same_after), unfolding(crate::specs::Checking::check, crate::specs::Reading::stated_index))]
fn index_is_scalar<'a>(
    names: &mut Names<'a>,
    index: &'a Option<Box<Domain>>,
) -> Result<bool, StaticError>
    ensures same { OnOk result (IsSame names.old names.new) }
    ensures says { SaysOfCheck (λ b. b) result
        (check_index (names_context names.old) (stated_index index.now)) }
{
    match index {
        None => Ok(true),
        Some(domain) => {
            let ty = domain_type(names, false, domain)?;
            Ok(rules::is_integer(ty))
        }
    }
}

/// Whether all bounds of some ranges are integer.
#[cycle(checking)]
#[tactic(auto, using(crate::proofs::Scopes::same_again, crate::proofs::Scopes::same_after))]
fn all_bounds_are_integer<'a>(
    names: &mut Names<'a>,
    ranges: &'a [Range],
) -> Result<bool, StaticError>
    ensures same { OnOk result (IsSame names.old names.new) }
    ensures says { SaysOfCheck (λ b. b) result
        (check_bounds (names_context names.old) (ranges_of ranges.now)) }
{
    let mut integer = true;
    for range in ranges {
        let one = bounds_are_integer(names, range)?;
        integer = rules::both(integer, one);
    }
    Ok(integer)
}

/// Whether the bounds of a range are integer.
#[cycle(checking)]
#[tactic(auto, using(crate::proofs::Scopes::same_again, crate::proofs::Scopes::same_after))]
fn bounds_are_integer<'a>(names: &mut Names<'a>, range: &'a Range) -> Result<bool, StaticError>
    ensures same { OnOk result (IsSame names.old names.new) }
    ensures says { SaysOfCheck (λ b. b) result
        (range_bounds (names_context names.old) range.now) }
{
    match range {
        Range::One(e) => {
            let ty = type_of(names, false, e)?;
            Ok(rules::is_integer(ty))
        }
        Range::Span(low, high) => {
            let from = end_type(names, low)?;
            let to = end_type(names, high)?;
            Ok(rules::are_integer(from, to))
        }
    }
}

/// The type of an end of a range; one that is left out is as good as an integer.
#[cycle(checking)]
#[tactic(auto, using(ep_types_rules::proofs::Said::passed_on, crate::proofs::Scopes::same_again, crate::proofs::Scopes::same_after), unfolding(crate::specs::Checking::check, ep_tree::specs::Views::end_of))]
fn end_type<'a>(names: &mut Names<'a>, end: &'a Option<Expr>) -> Result<ValueType, StaticError>
    ensures same { OnOk result (IsSame names.old names.new) }
    ensures says { SaysOfCheck (λ t. t) result (check_end (names_context names.old) (end_of end.now)) }
{
    match end {
        None => Ok(ValueType::Int),
        Some(e) => type_of(names, false, e),
    }
}
