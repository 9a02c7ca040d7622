//! Copies of expressions and domains.

ghost use Rattle.std.specs.Prelude.{◌≡◌, IfOk, option_map};
ghost use Rattle.ep_copies.specs.Kinds.{IsAround, IsCount, IsOfMatrix, IsPair};
ghost use Rattle.ep_tree.specs.Views.{domain_tree, domains_of, end_of, expr_tree, expr_trees, generators_of, indices_of, ranges_of, terms_of, with_range};

use ep_base::{Memory, Name};
use ep_tree::{Domain, DomainKind, Expr, Generator, Kind, Range};
use std::alloc::Global;

/// The same expression once more. Linear in its nodes and names.
#[cycle(copying)]
#[tactic(auto, unfolding(ep_tree::specs::Views::kind_tree))]
pub fn copy_expr(alloc: Global, e: &Expr) -> Result<Expr, Memory>
    ensures { IfOk result (λ copy. expr_tree copy ≡ expr_tree e.now) }
{
    let place = e.place;
    match &e.kind {
        Kind::Number(n) => {
            let kind = Kind::Number(*n);
            Ok(Expr { place, kind })
        }
        Kind::Truth(truth) => {
            let kind = Kind::Truth(*truth);
            Ok(Expr { place, kind })
        }
        Kind::Named(name) => {
            let name = Name::new(alloc, name.text())?;
            let kind = Kind::Named(name);
            Ok(Expr { place, kind })
        }
        Kind::Add(terms) => {
            let terms = copy_terms(alloc, terms)?;
            let kind = Kind::Add(terms);
            Ok(Expr { place, kind })
        }
        Kind::And(parts) => {
            let parts = copy_parts(alloc, parts)?;
            let kind = Kind::And(parts);
            Ok(Expr { place, kind })
        }
        Kind::Or(parts) => {
            let parts = copy_parts(alloc, parts)?;
            let kind = Kind::Or(parts);
            Ok(Expr { place, kind })
        }
        Kind::Quant(op, names, d, part) => {
            let names = copy_names(alloc, names)?;
            let d = copy_boxed_domain(alloc, d)?;
            let part = copy_boxed(alloc, part)?;
            let kind = Kind::Quant(*op, names, d, part);
            Ok(Expr { place, kind })
        }
        Kind::Literal(_, _) | Kind::Comprehension(_, _, _, _) | Kind::Read(_, _) => {
            copy_matrix(alloc, e)
        }
        Kind::Gcc(_, _, _) | Kind::AtLeast(_, _, _) | Kind::AtMost(_, _, _) => {
            copy_counts(alloc, e)
        }
        Kind::Binary(_, _, _)
        | Kind::Compare(_, _, _)
        | Kind::Lex(_, _, _)
        | Kind::InDomain(_, _)
        | Kind::InSet(_, _)
        | Kind::Table(_, _) => copy_pair(alloc, e),
        Kind::Group(_)
        | Kind::Not(_)
        | Kind::Neg(_)
        | Kind::Abs(_)
        | Kind::ToInt(_)
        | Kind::Factorial(_)
        | Kind::Flatten(_)
        | Kind::Fold(_, _)
        | Kind::AllDiff(_) => copy_around(alloc, e),
    }
}

/// An expression around one other.
#[cycle(copying)]
#[tactic(auto, unfolding(ep_tree::specs::Views::kind_tree))]
fn copy_around(alloc: Global, e: &Expr) -> Result<Expr, Memory>
    requires { IsAround e.now.kind }
    ensures { IfOk result (λ copy. expr_tree copy ≡ expr_tree e.now) }
{
    let place = e.place;
    match &e.kind {
        Kind::Group(part) => {
            let part = copy_boxed(alloc, part)?;
            let kind = Kind::Group(part);
            Ok(Expr { place, kind })
        }
        Kind::Not(part) => {
            let part = copy_boxed(alloc, part)?;
            let kind = Kind::Not(part);
            Ok(Expr { place, kind })
        }
        Kind::Neg(part) => {
            let part = copy_boxed(alloc, part)?;
            let kind = Kind::Neg(part);
            Ok(Expr { place, kind })
        }
        Kind::Abs(part) => {
            let part = copy_boxed(alloc, part)?;
            let kind = Kind::Abs(part);
            Ok(Expr { place, kind })
        }
        Kind::ToInt(part) => {
            let part = copy_boxed(alloc, part)?;
            let kind = Kind::ToInt(part);
            Ok(Expr { place, kind })
        }
        Kind::Factorial(part) => {
            let part = copy_boxed(alloc, part)?;
            let kind = Kind::Factorial(part);
            Ok(Expr { place, kind })
        }
        Kind::Flatten(part) => {
            let part = copy_boxed(alloc, part)?;
            let kind = Kind::Flatten(part);
            Ok(Expr { place, kind })
        }
        Kind::Fold(op, part) => {
            let part = copy_boxed(alloc, part)?;
            let kind = Kind::Fold(*op, part);
            Ok(Expr { place, kind })
        }
        Kind::AllDiff(part) => {
            let part = copy_boxed(alloc, part)?;
            let kind = Kind::AllDiff(part);
            Ok(Expr { place, kind })
        }
        _ => unreachable!(),
    }
}

/// An expression of two parts.
#[cycle(copying)]
#[tactic(auto, unfolding(ep_tree::specs::Views::kind_tree))]
fn copy_pair(alloc: Global, e: &Expr) -> Result<Expr, Memory>
    requires { IsPair e.now.kind }
    ensures { IfOk result (λ copy. expr_tree copy ≡ expr_tree e.now) }
{
    let place = e.place;
    match &e.kind {
        Kind::Binary(op, a, b) => {
            let a = copy_boxed(alloc, a)?;
            let b = copy_boxed(alloc, b)?;
            let kind = Kind::Binary(*op, a, b);
            Ok(Expr { place, kind })
        }
        Kind::Compare(op, a, b) => {
            let a = copy_boxed(alloc, a)?;
            let b = copy_boxed(alloc, b)?;
            let kind = Kind::Compare(*op, a, b);
            Ok(Expr { place, kind })
        }
        Kind::Lex(op, a, b) => {
            let a = copy_boxed(alloc, a)?;
            let b = copy_boxed(alloc, b)?;
            let kind = Kind::Lex(*op, a, b);
            Ok(Expr { place, kind })
        }
        Kind::InDomain(a, d) => {
            let a = copy_boxed(alloc, a)?;
            let d = copy_boxed_domain(alloc, d)?;
            let kind = Kind::InDomain(a, d);
            Ok(Expr { place, kind })
        }
        Kind::InSet(a, b) => {
            let a = copy_boxed(alloc, a)?;
            let b = copy_boxed(alloc, b)?;
            let kind = Kind::InSet(a, b);
            Ok(Expr { place, kind })
        }
        Kind::Table(a, b) => {
            let a = copy_boxed(alloc, a)?;
            let b = copy_boxed(alloc, b)?;
            let kind = Kind::Table(a, b);
            Ok(Expr { place, kind })
        }
        _ => unreachable!(),
    }
}

/// An expression that counts the parts of a list.
#[cycle(copying)]
#[tactic(auto, unfolding(ep_tree::specs::Views::kind_tree))]
fn copy_counts(alloc: Global, e: &Expr) -> Result<Expr, Memory>
    requires { IsCount e.now.kind }
    ensures { IfOk result (λ copy. expr_tree copy ≡ expr_tree e.now) }
{
    let place = e.place;
    match &e.kind {
        Kind::Gcc(m, values, counts) => {
            let m = copy_boxed(alloc, m)?;
            let values = copy_boxed(alloc, values)?;
            let counts = copy_boxed(alloc, counts)?;
            let kind = Kind::Gcc(m, values, counts);
            Ok(Expr { place, kind })
        }
        Kind::AtLeast(m, counts, values) => {
            let m = copy_boxed(alloc, m)?;
            let counts = copy_boxed(alloc, counts)?;
            let values = copy_boxed(alloc, values)?;
            let kind = Kind::AtLeast(m, counts, values);
            Ok(Expr { place, kind })
        }
        Kind::AtMost(m, counts, values) => {
            let m = copy_boxed(alloc, m)?;
            let counts = copy_boxed(alloc, counts)?;
            let values = copy_boxed(alloc, values)?;
            let kind = Kind::AtMost(m, counts, values);
            Ok(Expr { place, kind })
        }
        _ => unreachable!(),
    }
}

/// An expression that makes a matrix or reads one.
#[cycle(copying)]
#[tactic(auto, unfolding(ep_tree::specs::Views::kind_tree))]
fn copy_matrix(alloc: Global, e: &Expr) -> Result<Expr, Memory>
    requires { IsOfMatrix e.now.kind }
    ensures { IfOk result (λ copy. expr_tree copy ≡ expr_tree e.now) }
{
    let place = e.place;
    match &e.kind {
        Kind::Literal(parts, d) => {
            let parts = copy_parts(alloc, parts)?;
            let d = copy_index_domain(alloc, d)?;
            let kind = Kind::Literal(parts, d);
            Ok(Expr { place, kind })
        }
        Kind::Comprehension(part, gens, conditions, d) => {
            let part = copy_boxed(alloc, part)?;
            let gens = copy_generators(alloc, gens)?;
            let conditions = copy_parts(alloc, conditions)?;
            let d = copy_index_domain(alloc, d)?;
            let kind = Kind::Comprehension(part, gens, conditions, d);
            Ok(Expr { place, kind })
        }
        Kind::Read(m, indices) => {
            let m = copy_boxed(alloc, m)?;
            let indices = copy_indices(alloc, indices)?;
            let kind = Kind::Read(m, indices);
            Ok(Expr { place, kind })
        }
        _ => unreachable!(),
    }
}

/// An expression for a place of its own.
#[cycle(copying)]
fn copy_boxed(alloc: Global, e: &Expr) -> Result<Box<Expr>, Memory>
    ensures { IfOk result (λ copy. expr_tree copy.value ≡ expr_tree e.now) }
{
    let copy = copy_expr(alloc, e)?;
    let boxed = Box::new(alloc, copy)?;
    Ok(boxed)
}

/// Expressions in their order.
#[cycle(copying)]
fn copy_parts(alloc: Global, parts: &[Expr]) -> Result<Vec<Expr>, Memory>
    ensures { IfOk result (λ copy. expr_trees copy.items ≡ expr_trees parts.now) }
{
    let mut copies = Vec::with_capacity(alloc, parts.len())?;
    for part in parts {
        let copy = copy_expr(alloc, part)?;
        copies.push(copy)?;
    }
    Ok(copies)
}

/// The terms of a chain.
#[cycle(copying)]
fn copy_terms(alloc: Global, terms: &[(bool, Expr)]) -> Result<Vec<(bool, Expr)>, Memory>
    ensures { IfOk result (λ copy. terms_of copy.items ≡ terms_of terms.now) }
{
    let mut copies = Vec::with_capacity(alloc, terms.len())?;
    for (plus, e) in terms {
        let copy = copy_expr(alloc, e)?;
        copies.push((*plus, copy))?;
    }
    Ok(copies)
}

/// The indices of a read.
#[cycle(copying)]
fn copy_indices(alloc: Global, indices: &[Option<Expr>]) -> Result<Vec<Option<Expr>>, Memory>
    ensures { IfOk result (λ copy. indices_of copy.items ≡ indices_of indices.now) }
{
    let mut copies = Vec::with_capacity(alloc, indices.len())?;
    for index in indices {
        match index {
            None => {
                copies.push(None)?;
                continue;
            }
            Some(e) => {
                let copy = copy_expr(alloc, e)?;
                copies.push(Some(copy))?;
            }
        }
    }
    Ok(copies)
}

/// An expression where there is one.
#[cycle(copying)]
fn copy_some(alloc: Global, e: &Option<Expr>) -> Result<Option<Expr>, Memory>
    ensures { IfOk result (λ copy. option_map expr_tree copy ≡ option_map expr_tree e.now) }
{
    match e {
        Some(e) => {
            let copy = copy_expr(alloc, e)?;
            Ok(Some(copy))
        }
        None => Ok(None),
    }
}

/// The generators of a comprehension.
#[cycle(copying)]
fn copy_generators(alloc: Global, gens: &[Generator]) -> Result<Vec<Generator>, Memory>
    ensures { IfOk result (λ copy. generators_of copy.items ≡ generators_of gens.now) }
{
    let mut copies = Vec::with_capacity(alloc, gens.len())?;
    for generator in gens {
        let names = copy_names(alloc, &generator.names)?;
        let domain = copy_domain(alloc, &generator.domain)?;
        copies.push(Generator { names, domain })?;
    }
    Ok(copies)
}

/// The domain of a list's indices, where there is one.
#[cycle(copying)]
fn copy_index_domain(alloc: Global, d: &Option<Box<Domain>>) -> Result<Option<Box<Domain>>, Memory>
    ensures { IfOk result (λ copy. option_map (λ one. domain_tree one.value) copy
        ≡ option_map (λ one. domain_tree one.value) d.now) }
{
    match d {
        Some(d) => {
            let copy = copy_boxed_domain(alloc, d)?;
            Ok(Some(copy))
        }
        None => Ok(None),
    }
}

/// A domain for a place of its own.
#[cycle(copying)]
fn copy_boxed_domain(alloc: Global, d: &Domain) -> Result<Box<Domain>, Memory>
    ensures { IfOk result (λ copy. domain_tree copy.value ≡ domain_tree d.now) }
{
    let copy = copy_domain(alloc, d)?;
    let boxed = Box::new(alloc, copy)?;
    Ok(boxed)
}

/// A domain.
#[cycle(copying)]
#[tactic(auto, unfolding(ep_tree::specs::Views::domain_kind_tree))]
fn copy_domain(alloc: Global, d: &Domain) -> Result<Domain, Memory>
    ensures { IfOk result (λ copy. domain_tree copy ≡ domain_tree d.now) }
{
    let place = d.place;
    match &d.kind {
        DomainKind::Bool => {
            let kind = DomainKind::Bool;
            Ok(Domain { place, kind })
        }
        DomainKind::Int => {
            let kind = DomainKind::Int;
            Ok(Domain { place, kind })
        }
        DomainKind::Ranges(ranges) => {
            let ranges = copy_ranges(alloc, ranges)?;
            let kind = DomainKind::Ranges(ranges);
            Ok(Domain { place, kind })
        }
        DomainKind::Named(name) => {
            let name = Name::new(alloc, name.text())?;
            let kind = DomainKind::Named(name);
            Ok(Domain { place, kind })
        }
        DomainKind::Group(part) => {
            let part = copy_boxed_domain(alloc, part)?;
            let kind = DomainKind::Group(part);
            Ok(Domain { place, kind })
        }
        DomainKind::Set(op, one, other) => {
            let one = copy_boxed_domain(alloc, one)?;
            let other = copy_boxed_domain(alloc, other)?;
            let kind = DomainKind::Set(*op, one, other);
            Ok(Domain { place, kind })
        }
        DomainKind::Matrix(indices, part) => {
            let indices = copy_domains(alloc, indices)?;
            let part = copy_boxed_domain(alloc, part)?;
            let kind = DomainKind::Matrix(indices, part);
            Ok(Domain { place, kind })
        }
    }
}

/// Domains in their order.
#[cycle(copying)]
fn copy_domains(alloc: Global, domains: &[Domain]) -> Result<Vec<Domain>, Memory>
    ensures { IfOk result (λ copy. domains_of copy.items ≡ domains_of domains.now) }
{
    let mut copies = Vec::with_capacity(alloc, domains.len())?;
    for domain in domains {
        let copy = copy_domain(alloc, domain)?;
        copies.push(copy)?;
    }
    Ok(copies)
}

/// The ranges of an `int` domain.
#[cycle(copying)]
fn copy_ranges(alloc: Global, ranges: &[Range]) -> Result<Vec<Range>, Memory>
    ensures { IfOk result (λ copy. ranges_of copy.items ≡ ranges_of ranges.now) }
{
    let mut copies = Vec::with_capacity(alloc, ranges.len())?;
    for range in ranges {
        let copy = copy_range(alloc, range)?;
        copies.push(copy)?;
    }
    Ok(copies)
}

/// A range of an `int` domain.
#[cycle(copying)]
fn copy_range(alloc: Global, range: &Range) -> Result<Range, Memory>
    ensures { IfOk result (λ copy. with_range copy ≡ with_range range.now) }
{
    match range {
        Range::One(e) => {
            let copy = copy_expr(alloc, e)?;
            Ok(Range::One(copy))
        }
        Range::Span(least, greatest) => {
            let least = copy_some(alloc, least)?;
            let greatest = copy_some(alloc, greatest)?;
            Ok(Range::Span(least, greatest))
        }
    }
}

/// Names in their order.
fn copy_names(alloc: Global, names: &[Name]) -> Result<Vec<Name>, Memory>
    ensures { IfOk result (λ copy. copy.items ≡ names.now) }
{
    let mut copies = Vec::with_capacity(alloc, names.len())?;
    for name in names {
        let copy = Name::new(alloc, name.text())?;
        copies.push(copy)?;
    }
    Ok(copies)
}
