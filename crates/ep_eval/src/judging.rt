//! The types of expressions and domains where they are evaluated.

ghost use Rattle.std.specs.Prelude.{◌≡◌, ◌∷◌, [], IfOk, option_map};
ghost use Rattle.ep_tree.specs.Environments.{context_of};
ghost use Rattle.ep_tree.specs.Types.{all_typed, inside_all, judge_all, judge_domains, judge_generators, judge_index, judge_indices, judge_ranges, judge_terms};
ghost use Rattle.ep_tree.specs.Views.{domain_tree, domains_of, expr_tree, expr_trees, generators_of, indices_of, ranges_of, terms_of};
ghost use Rattle.ep_eval.specs.Judging.{all_pass, domain_type_at, passes, type_at};
ghost use Rattle.ep_forms.specs.Forms.{index_at};
ghost use Rattle.ep_eval.specs.Ranges.{alone};
ghost use Rattle.ep_eval.specs.Scopes.{env_in};
ghost use Rattle.ep_eval.specs.Typing.{AreNamesTyped, context_in, inside_names, readings};
ghost use Rattle.ep_eval.specs.declared.rules.Wanted.{Wanted};

use super::rules::{
    Wanted, both, flattened, fold_part, fold_type, join_part, join_type, list_of, matrix_over,
    name_scalar, passing, quantified_part, quantified_type, read_by, set_of_both, type_if,
    with_type,
};
use super::within::{TypedName, Within, copy_names, domain_within, name_within, with_name};
use ep_base::{Memory, Name};
use ep_tree::{Domain, DomainKind, Expr, Generator, Kind, Range, ValueType};

/// The type of an expression, where it has one.
#[cycle(judging)]
pub fn type_of(within: Within<'_, '_>, e: &Expr) -> Result<Option<ValueType>, Memory>
    ensures { IfOk result (λ ty. ty ≡ type_at (context_in within.entry) (expr_tree e.now)) }
{
    match &e.kind {
        Kind::Number(_) => Ok(Some(ValueType::Int)),
        Kind::Truth(_) => Ok(Some(ValueType::Bool)),
        Kind::Named(name) => Ok(name_within(within, name)),
        Kind::Group(part) => type_of(within, part),
        Kind::Not(_)
        | Kind::Neg(_)
        | Kind::Abs(_)
        | Kind::ToInt(_)
        | Kind::Factorial(_)
        | Kind::Flatten(_)
        | Kind::Fold(_, _)
        | Kind::AllDiff(_) => with_one_part(within, e),
        Kind::Binary(_, _, _)
        | Kind::Compare(_, _, _)
        | Kind::Lex(_, _, _)
        | Kind::InDomain(_, _)
        | Kind::InSet(_, _)
        | Kind::Table(_, _) => with_two_parts(within, e),
        Kind::Gcc(_, _, _) | Kind::AtLeast(_, _, _) | Kind::AtMost(_, _, _) => {
            with_three_parts(within, e)
        }
        Kind::Add(_) | Kind::And(_) | Kind::Or(_) | Kind::Read(_, _) | Kind::Literal(_, _) => {
            with_parts(within, e)
        }
        Kind::Quant(_, _, _, _) => quantifier(within, e),
        Kind::Comprehension(_, _, _, _) => comprehension(within, e),
    }
}

/// Whether a part has a type that is wanted, where it has one.
#[cycle(judging)]
fn fits(within: Within<'_, '_>, wanted: Wanted, part: &Expr) -> Result<Option<bool>, Memory>
    ensures { IfOk result (λ holds. holds
        ≡ option_map (passes wanted) (type_at (context_in within.entry) (expr_tree part.now))) }
{
    let ty = type_of(within, part)?;
    Ok(passing(wanted, ty))
}

/// The type of an expression with one part.
#[cycle(judging)]
fn with_one_part(within: Within<'_, '_>, e: &Expr) -> Result<Option<ValueType>, Memory>
    ensures { IfOk result (λ ty. ty ≡ type_at (context_in within.entry) (expr_tree e.now)) }
{
    match &e.kind {
        Kind::Not(part) => {
            let holds = fits(within, Wanted::Boolean, part)?;
            Ok(type_if(ValueType::Bool, holds))
        }
        Kind::Neg(part) => {
            let holds = fits(within, Wanted::Integer, part)?;
            Ok(type_if(ValueType::Int, holds))
        }
        Kind::Abs(part) => {
            let holds = fits(within, Wanted::Integer, part)?;
            Ok(type_if(ValueType::Int, holds))
        }
        Kind::ToInt(part) => {
            let holds = fits(within, Wanted::Boolean, part)?;
            Ok(type_if(ValueType::Int, holds))
        }
        Kind::Factorial(part) => {
            let holds = fits(within, Wanted::Integer, part)?;
            Ok(type_if(ValueType::Int, holds))
        }
        Kind::AllDiff(part) => {
            let holds = fits(within, Wanted::Matrix, part)?;
            Ok(type_if(ValueType::Bool, holds))
        }
        Kind::Fold(op, part) => {
            let holds = fits(within, fold_part(*op), part)?;
            Ok(type_if(fold_type(*op), holds))
        }
        Kind::Flatten(part) => {
            let ty = type_of(within, part)?;
            Ok(flattened(ty))
        }
        // No other kind comes here.
        _ => Err(Memory),
    }
}

/// The type of an expression with two parts.
#[cycle(judging)]
fn with_two_parts(within: Within<'_, '_>, e: &Expr) -> Result<Option<ValueType>, Memory>
    ensures { IfOk result (λ ty. ty ≡ type_at (context_in within.entry) (expr_tree e.now)) }
{
    match &e.kind {
        Kind::Binary(op, left, right) => {
            let one = fits(within, join_part(*op), left)?;
            let other = fits(within, join_part(*op), right)?;
            Ok(type_if(join_type(*op), both(one, other)))
        }
        Kind::Compare(_, left, right) => {
            let one = fits(within, Wanted::Integer, left)?;
            let other = fits(within, Wanted::Integer, right)?;
            Ok(type_if(ValueType::Bool, both(one, other)))
        }
        Kind::Lex(_, left, right) => {
            let one = fits(within, Wanted::List, left)?;
            let other = fits(within, Wanted::List, right)?;
            Ok(type_if(ValueType::Bool, both(one, other)))
        }
        Kind::InDomain(part, domain) => {
            let one = fits(within, Wanted::Integer, part)?;
            let other = domain_fits(within, domain)?;
            Ok(type_if(ValueType::Bool, both(one, other)))
        }
        Kind::InSet(part, set) => {
            let one = fits(within, Wanted::Integer, part)?;
            let other = fits(within, Wanted::Matrix, set)?;
            Ok(type_if(ValueType::Bool, both(one, other)))
        }
        Kind::Table(row, rows) => {
            let one = fits(within, Wanted::List, row)?;
            let other = fits(within, Wanted::Rows, rows)?;
            Ok(type_if(ValueType::Bool, both(one, other)))
        }
        // No other kind comes here.
        _ => Err(Memory),
    }
}

/// The type of an expression that counts values in a matrix.
#[cycle(judging)]
fn with_three_parts(within: Within<'_, '_>, e: &Expr) -> Result<Option<ValueType>, Memory>
    ensures { IfOk result (λ ty. ty ≡ type_at (context_in within.entry) (expr_tree e.now)) }
{
    match &e.kind {
        Kind::Gcc(part, values, counts) => {
            let one = fits(within, Wanted::Matrix, part)?;
            let other = fits(within, Wanted::List, values)?;
            let third = fits(within, Wanted::List, counts)?;
            Ok(type_if(ValueType::Bool, both(one, both(other, third))))
        }
        Kind::AtLeast(part, counts, values) => {
            let one = fits(within, Wanted::Matrix, part)?;
            let other = fits(within, Wanted::List, counts)?;
            let third = fits(within, Wanted::List, values)?;
            Ok(type_if(ValueType::Bool, both(one, both(other, third))))
        }
        Kind::AtMost(part, counts, values) => {
            let one = fits(within, Wanted::Matrix, part)?;
            let other = fits(within, Wanted::List, counts)?;
            let third = fits(within, Wanted::List, values)?;
            Ok(type_if(ValueType::Bool, both(one, both(other, third))))
        }
        // No other kind comes here.
        _ => Err(Memory),
    }
}

/// The type of an expression with a list of parts.
#[cycle(judging)]
fn with_parts(within: Within<'_, '_>, e: &Expr) -> Result<Option<ValueType>, Memory>
    ensures { IfOk result (λ ty. ty ≡ type_at (context_in within.entry) (expr_tree e.now)) }
{
    match &e.kind {
        Kind::Add(terms) => {
            let holds = terms_fit(within, terms)?;
            Ok(type_if(ValueType::Int, holds))
        }
        Kind::And(parts) => {
            let holds = parts_fit(within, parts)?;
            Ok(type_if(ValueType::Bool, holds))
        }
        Kind::Or(parts) => {
            let holds = parts_fit(within, parts)?;
            Ok(type_if(ValueType::Bool, holds))
        }
        Kind::Read(matrix, indices) => {
            let ty = type_of(within, matrix)?;
            let integer = indices_fit(within, indices)?;
            Ok(read_by(ty, integer, indices))
        }
        Kind::Literal(parts, domain) => {
            let types = types_of(within, parts)?;
            let scalar = index_scalar(within, domain)?;
            list_of(&types, scalar)
        }
        // No other kind comes here.
        _ => Err(Memory),
    }
}

/// Whether all of some expressions are Boolean, where each has a type.
#[cycle(judging)]
fn parts_fit(within: Within<'_, '_>, parts: &[Expr]) -> Result<Option<bool>, Memory>
    ensures { IfOk result (λ holds. holds
        ≡ all_pass Wanted.Boolean (judge_all (context_in within.entry) (expr_trees parts.now))) }
{
    let mut holds = Some(true);
    for part in parts {
        let one = fits(within, Wanted::Boolean, part)?;
        holds = both(holds, one);
    }
    Ok(holds)
}

/// Whether all terms of a chain are integer, where each has a type.
#[cycle(judging)]
fn terms_fit(within: Within<'_, '_>, terms: &[(bool, Expr)]) -> Result<Option<bool>, Memory>
    ensures { IfOk result (λ holds. holds
        ≡ all_pass Wanted.Integer (judge_terms (context_in within.entry) (terms_of terms.now))) }
{
    let mut holds = Some(true);
    for term in terms {
        let one = fits(within, Wanted::Integer, &term.1)?;
        holds = both(holds, one);
    }
    Ok(holds)
}

/// Whether an index that is stated is integer, where it has a type.
#[cycle(judging)]
fn index_fits(within: Within<'_, '_>, index: &Option<Expr>) -> Result<Option<bool>, Memory>
    ensures { IfOk result (λ holds. holds
        ≡ all_pass Wanted.Integer (judge_indices (context_in within.entry) (indices_of (index.now ∷ [])))) }
{
    match index {
        Some(e) => {
            let holds = fits(within, Wanted::Integer, e)?;
            Ok(holds)
        }
        None => Ok(Some(true)),
    }
}

/// Whether all stated indices of a read are integer, where each has a type.
#[cycle(judging)]
pub fn indices_fit(within: Within<'_, '_>, indices: &[Option<Expr>]) -> Result<Option<bool>, Memory>
    ensures { IfOk result (λ holds. holds
        ≡ all_pass Wanted.Integer (judge_indices (context_in within.entry) (indices_of indices.now))) }
{
    let mut holds = Some(true);
    for index in indices {
        match index {
            None => continue,
            Some(e) => {
                let one = fits(within, Wanted::Integer, e)?;
                holds = both(holds, one);
            }
        }
    }
    Ok(holds)
}

/// The types of some expressions, where each has one.
#[cycle(judging)]
fn types_of(within: Within<'_, '_>, parts: &[Expr]) -> Result<Option<Vec<ValueType>>, Memory>
    ensures { IfOk result (λ types. option_map (λ v. v.items) types
        ≡ all_typed (judge_all (context_in within.entry) (expr_trees parts.now))) }
{
    let mut types = Some(Vec::new(within.scope.alloc));
    for part in parts {
        let ty = type_of(within, part)?;
        types = with_type(types, ty)?;
    }
    Ok(types)
}

/// The type of a domain's values, where it has one.
#[cycle(judging)]
pub fn domain_type(within: Within<'_, '_>, d: &Domain) -> Result<Option<ValueType>, Memory>
    ensures { IfOk result (λ ty. ty ≡ domain_type_at (context_in within.entry) (domain_tree d.now)) }
{
    match &d.kind {
        DomainKind::Bool => Ok(Some(ValueType::Bool)),
        DomainKind::Int => Ok(Some(ValueType::Int)),
        DomainKind::Ranges(ranges) => {
            let holds = ranges_fit(within, ranges)?;
            Ok(type_if(ValueType::Int, holds))
        }
        DomainKind::Named(name) => Ok(domain_within(within, name)),
        DomainKind::Group(inner) => {
            let ty = domain_type(within, inner)?;
            Ok(ty)
        }
        DomainKind::Set(_, left, right) => {
            let one = domain_type(within, left)?;
            let other = domain_type(within, right)?;
            Ok(set_of_both(one, other))
        }
        DomainKind::Matrix(indices, elements) => {
            let element = domain_type(within, elements)?;
            let scalar = domains_fit(within, indices)?;
            matrix_over(element, scalar, indices.len())
        }
    }
}

/// Whether a domain is scalar, where it has a type.
#[cycle(judging)]
fn domain_fits(within: Within<'_, '_>, d: &Domain) -> Result<Option<bool>, Memory>
    ensures { IfOk result (λ holds. holds ≡ option_map (passes Wanted.Integer)
        (domain_type_at (context_in within.entry) (domain_tree d.now))) }
{
    let ty = domain_type(within, d)?;
    Ok(passing(Wanted::Integer, ty))
}

/// Whether all of some domains are scalar, where each has a type.
#[cycle(judging)]
fn domains_fit(within: Within<'_, '_>, domains: &[Domain]) -> Result<Option<bool>, Memory>
    ensures { IfOk result (λ holds. holds
        ≡ all_pass Wanted.Integer (judge_domains (context_in within.entry) (domains_of domains.now))) }
{
    let mut holds = Some(true);
    for domain in domains {
        let one = domain_fits(within, domain)?;
        holds = both(holds, one);
    }
    Ok(holds)
}

/// Whether the domain of a list's indices is scalar, where one is stated.
#[cycle(judging)]
fn index_scalar(
    within: Within<'_, '_>,
    domain: &Option<Box<Domain>>,
) -> Result<Option<bool>, Memory>
    ensures { IfOk result (λ holds. holds
        ≡ all_pass Wanted.Integer (judge_index (context_in within.entry) (index_at domain.now))) }
{
    match domain {
        Some(stated) => {
            let holds = domain_fits(within, stated)?;
            Ok(holds)
        }
        None => Ok(Some(true)),
    }
}

/// Whether the ends of a range are integer, where each that is there has a type.
#[cycle(judging)]
fn range_fits(within: Within<'_, '_>, range: &Range) -> Result<Option<bool>, Memory>
    ensures { IfOk result (λ holds. holds
        ≡ all_pass Wanted.Integer (judge_ranges (context_in within.entry) (alone range.now))) }
{
    match range {
        Range::One(e) => {
            let holds = fits(within, Wanted::Integer, e)?;
            Ok(holds)
        }
        Range::Span(low, high) => {
            let first = index_fits(within, low)?;
            let last = index_fits(within, high)?;
            Ok(both(first, last))
        }
    }
}

/// Whether the ends of all of some ranges are integer, where each that is there has a type.
#[cycle(judging)]
fn ranges_fit(within: Within<'_, '_>, ranges: &[Range]) -> Result<Option<bool>, Memory>
    ensures { IfOk result (λ holds. holds
        ≡ all_pass Wanted.Integer (judge_ranges (context_in within.entry) (ranges_of ranges.now))) }
{
    let mut holds = Some(true);
    for range in ranges {
        let one = range_fits(within, range)?;
        holds = both(holds, one);
    }
    Ok(holds)
}

/// The names of a quantifier or generator, each typed behind those before, where all readings of the domain are scalar.
#[cycle(judging)]
fn names_typed(
    within: Within<'_, '_>,
    names: &[Name],
    domain: &Domain,
) -> Result<Option<Vec<TypedName>>, Memory>
    ensures { IfOk result (λ typed. AreNamesTyped (option_map (λ v. v.items) typed)
        (context_of (env_in within.entry.scope))
        (all_pass Wanted.Integer (readings (context_in within.entry) names.now (domain_tree domain.now)))
        (inside_names (context_in within.entry) names.now (domain_tree domain.now))) }
{
    let mut typed = copy_names(within.scope.alloc, within.typed)?;
    for name in names {
        let inner = Within {
            scope: within.scope,
            typed: &typed,
        };
        let ty = domain_type(inner, domain)?;
        let Some(scalar) = name_scalar(ty) else {
            return Ok(None);
        };
        typed = with_name(within.scope.alloc, typed, name, scalar)?;
    }
    Ok(Some(typed))
}

/// The names of some generators, each typed behind those before, where all readings of their domains are scalar.
#[cycle(judging)]
fn generators_typed(
    within: Within<'_, '_>,
    generators: &[Generator],
) -> Result<Option<Vec<TypedName>>, Memory>
    ensures { IfOk result (λ typed. AreNamesTyped (option_map (λ v. v.items) typed)
        (context_of (env_in within.entry.scope))
        (all_pass Wanted.Integer (judge_generators (context_in within.entry) (generators_of generators.now)))
        (inside_all (generators_of generators.now) (context_in within.entry))) }
{
    let mut typed = copy_names(within.scope.alloc, within.typed)?;
    for generator in generators {
        let inner = Within {
            scope: within.scope,
            typed: &typed,
        };
        let read = names_typed(inner, &generator.names, &generator.domain)?;
        let Some(more) = read else {
            return Ok(None);
        };
        typed = more;
    }
    Ok(Some(typed))
}

/// The type of a quantifier.
#[cycle(judging)]
fn quantifier(within: Within<'_, '_>, e: &Expr) -> Result<Option<ValueType>, Memory>
    ensures { IfOk result (λ ty. ty ≡ type_at (context_in within.entry) (expr_tree e.now)) }
{
    match &e.kind {
        Kind::Quant(op, names, domain, body) => {
            let read = names_typed(within, names, domain)?;
            let Some(typed) = read else {
                return Ok(None);
            };
            let inner = Within {
                scope: within.scope,
                typed: &typed,
            };
            let holds = fits(inner, quantified_part(*op), body)?;
            Ok(type_if(quantified_type(*op), holds))
        }
        // No other kind comes here.
        _ => Err(Memory),
    }
}

/// The type of a comprehension.
#[cycle(judging)]
fn comprehension(within: Within<'_, '_>, e: &Expr) -> Result<Option<ValueType>, Memory>
    ensures { IfOk result (λ ty. ty ≡ type_at (context_in within.entry) (expr_tree e.now)) }
{
    match &e.kind {
        Kind::Comprehension(body, generators, conditions, domain) => {
            let index = index_scalar(within, domain)?;
            let read = generators_typed(within, generators)?;
            let Some(typed) = read else {
                return Ok(None);
            };
            let inner = Within {
                scope: within.scope,
                typed: &typed,
            };
            let truths = parts_fit(inner, conditions)?;
            let ty = type_of(inner, body)?;
            let types = with_type(Some(Vec::new(within.scope.alloc)), ty)?;
            list_of(&types, both(index, truths))
        }
        // No other kind comes here.
        _ => Err(Memory),
    }
}
