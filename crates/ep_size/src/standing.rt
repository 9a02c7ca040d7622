//! Whether a decision variable stands in an expression, told from its text. Linear in the text.

ghost use Rattle.std.specs.Prelude.{◌≡◌, ◌&&◌, false, not, bytes_eq};
ghost use Rattle.std.specs.List.{list_any};
ghost use Rattle.ep_tree.specs.Environments as names;
ghost use Rattle.ep_tree.specs.Reach.{decisions_in, generator_names};
ghost use Rattle.ep_tree.specs.Views as views;
ghost use Rattle.ep_tree.specs.Views.{domain_tree, domains_of, end_of, expr_tree, expr_trees, indices_of, ranges_of, terms_of};
ghost use Rattle.ep_forms.specs.Forms.{index_at};
ghost use Rattle.ep_eval.specs.Ranges.{alone};
ghost use Rattle.ep_eval.specs.Scopes.{env_in, with_all};
ghost use Rattle.ep_size.specs.Free as free;
ghost use Rattle.ep_size.specs.Standings.{both, standing_of, standing_of_all, standing_of_indices, standing_of_terms, hidden_without};

use ep_base::Name;
use ep_eval::{Around, Scope};
use ep_tree::{Domain, DomainKind, Expr, Generator, Kind, Range};

/// Where decision variables stand.
#[derive(Clone, Copy, Debug, PartialEq, Eq)]
pub struct Standing {
    /// Whether one stands in the expression; domains and conditions aside.
    pub decided: bool,
    /// Whether none stands anywhere in it.
    pub free: bool,
}

/// The names that are quantified on the way to an expression.
#[derive(Clone, Copy)]
pub enum Hidden<'s> {
    /// There is none.
    Nothing,
    /// Those of the innermost quantifier, and those around it.
    Names(&'s Hidden<'s>, &'s [Name]),
    /// Those of the generators of the innermost comprehension, and those around it.
    Generators(&'s Hidden<'s>, &'s [Generator]),
}

/// None stands in what has no part.
const FREE: Standing = Standing {
    decided: false,
    free: true,
};

/// Where they stand in two parts together.
fn together(one: Standing, other: Standing) -> Standing
    ensures { result ≡ both one other }
{
    Standing {
        decided: one.decided || other.decided,
        free: one.free && other.free,
    }
}

/// Whether a name is one of some names.
fn is_one_of(name: &Name, names: &[Name]) -> bool
    ensures { result ≡ list_any (bytes_eq name.now) names.now }
{
    for own in names {
        if *name == *own {
            return true;
        }
    }
    false
}

/// Whether a name is one of some generators.
fn is_generated(name: &Name, generators: &[Generator]) -> bool
    ensures { result ≡ list_any (bytes_eq name.now) (generator_names (views.generators_of generators.now)) }
{
    for generator in generators {
        if is_one_of(name, &generator.names) {
            return true;
        }
    }
    false
}

/// Whether a quantified name is this one.
pub fn is_quantified(around: &Around, name: &Name) -> bool
    ensures decided { (env : names.Env) → decisions_in (with_all env around.now) name.now ≡ (not result && decisions_in env name.now) }
    ensures apart { (env : names.Env) → result ≡ false → with_all env around.now name.now ≡ env name.now }
{
    match around {
        Around::Nothing => false,
        Around::Number(outer, own, _, _) => {
            if *name == **own {
                return true;
            }
            is_quantified(outer, name)
        }
    }
}

/// Whether a name stands for a decision variable.
fn is_decision(scope: Scope<'_, '_>, name: &Name) -> bool
    ensures { result ≡ decisions_in (env_in scope.entry) name.now }
{
    if is_quantified(scope.around, name) {
        return false;
    }
    match scope.env.cells(name) {
        Some(_) => true,
        None => false,
    }
}

/// Whether a name that isn't hidden stands for a decision variable.
fn is_shown(scope: Scope<'_, '_>, hidden: &Hidden, name: &Name) -> bool
    ensures { result ≡ hidden_without (decisions_in (env_in scope.entry)) hidden.now name.now }
{
    match hidden {
        Hidden::Nothing => is_decision(scope, name),
        Hidden::Names(outer, names) => {
            if is_one_of(name, names) {
                return false;
            }
            is_shown(scope, outer, name)
        }
        Hidden::Generators(outer, generators) => {
            if is_generated(name, generators) {
                return false;
            }
            is_shown(scope, outer, name)
        }
    }
}

/// What a name alone says.
fn of_name(scope: Scope<'_, '_>, hidden: &Hidden, name: &Name) -> Standing
    ensures decided { result.decided ≡ hidden_without (decisions_in (env_in scope.entry)) hidden.now name.now }
    ensures free { result.free ≡ not (hidden_without (decisions_in (env_in scope.entry)) hidden.now name.now) }
{
    let decided = is_shown(scope, hidden, name);
    Standing {
        decided,
        free: !decided,
    }
}

/// Where they stand in an expression.
#[cycle(looking)]
pub fn standing_in(scope: Scope<'_, '_>, hidden: &Hidden, e: &Expr) -> Standing
    ensures { result ≡ standing_of (hidden_without (decisions_in (env_in scope.entry)) hidden.now) (expr_tree e.now) }
{
    match &e.kind {
        Kind::Number(_) => FREE,
        Kind::Truth(_) => FREE,
        Kind::Named(name) => of_name(scope, hidden, name),
        Kind::Group(part) => standing_in(scope, hidden, part),
        Kind::Not(part) => standing_in(scope, hidden, part),
        Kind::Neg(part) => standing_in(scope, hidden, part),
        Kind::Abs(part) => standing_in(scope, hidden, part),
        Kind::ToInt(part) => standing_in(scope, hidden, part),
        Kind::Factorial(part) => standing_in(scope, hidden, part),
        Kind::Flatten(part) => standing_in(scope, hidden, part),
        Kind::Fold(_, part) => standing_in(scope, hidden, part),
        Kind::AllDiff(part) => standing_in(scope, hidden, part),
        Kind::Binary(_, one, other) => together(
            standing_in(scope, hidden, one),
            standing_in(scope, hidden, other),
        ),
        Kind::Compare(_, one, other) => together(
            standing_in(scope, hidden, one),
            standing_in(scope, hidden, other),
        ),
        Kind::Lex(_, one, other) => together(
            standing_in(scope, hidden, one),
            standing_in(scope, hidden, other),
        ),
        Kind::InSet(one, other) => together(
            standing_in(scope, hidden, one),
            standing_in(scope, hidden, other),
        ),
        Kind::Table(one, other) => together(
            standing_in(scope, hidden, one),
            standing_in(scope, hidden, other),
        ),
        Kind::Gcc(one, other, third) => {
            let front = together(
                standing_in(scope, hidden, one),
                standing_in(scope, hidden, other),
            );
            together(front, standing_in(scope, hidden, third))
        }
        Kind::AtLeast(one, other, third) => {
            let front = together(
                standing_in(scope, hidden, one),
                standing_in(scope, hidden, other),
            );
            together(front, standing_in(scope, hidden, third))
        }
        Kind::AtMost(one, other, third) => {
            let front = together(
                standing_in(scope, hidden, one),
                standing_in(scope, hidden, other),
            );
            together(front, standing_in(scope, hidden, third))
        }
        Kind::Add(terms) => of_terms(scope, hidden, terms),
        Kind::And(parts) => of_all(scope, hidden, parts),
        Kind::Or(parts) => of_all(scope, hidden, parts),
        Kind::Read(matrix, indices) => {
            together(
                standing_in(scope, hidden, matrix),
                of_indices(scope, hidden, indices),
            )
        }
        Kind::InDomain(part, domain) => {
            let own = standing_in(scope, hidden, part);
            with_free(own, is_free_domain(scope, hidden, domain))
        }
        Kind::Quant(_, names, domain, body) => {
            let free = is_free_domain(scope, hidden, domain);
            let inner = Hidden::Names(&*hidden, names);
            behind(free, standing_in(scope, &inner, body))
        }
        Kind::Literal(parts, domain) => {
            let own = of_all(scope, hidden, parts);
            with_free(own, is_free_index(scope, hidden, domain))
        }
        Kind::Comprehension(part, generators, conditions, domain) => {
            let inner = Hidden::Generators(&*hidden, generators);
            let domains = are_free_generators(scope, hidden, generators);
            let tests = of_all(scope, &inner, conditions);
            let front = are_both(domains, tests.free);
            let body = standing_in(scope, &inner, part);
            let index = is_free_index(scope, hidden, domain);
            let listed = with_free(body, index);
            behind(front, listed)
        }
    }
}

/// The same with a domain beside it.
fn with_free(own: Standing, free: bool) -> Standing
    ensures decided { result.decided ≡ own.decided }
    ensures free { result.free ≡ (own.free && free) }
{
    Standing {
        decided: own.decided,
        free: own.free && free,
    }
}

/// The same with a domain in front of it.
fn behind(free: bool, own: Standing) -> Standing
    ensures decided { result.decided ≡ own.decided }
    ensures free { result.free ≡ (free && own.free) }
{
    Standing {
        decided: own.decided,
        free: free && own.free,
    }
}

/// Whether two parts are free, by what each is.
pub fn are_both(one: bool, other: bool) -> bool
    ensures { result ≡ (one && other) }
{
    one && other
}

/// Where they stand in some expressions.
#[cycle(looking)]
fn of_all(scope: Scope<'_, '_>, hidden: &Hidden, parts: &[Expr]) -> Standing
    ensures { result ≡ standing_of_all (hidden_without (decisions_in (env_in scope.entry)) hidden.now) (expr_trees parts.now) }
{
    let mut all = FREE;
    for part in parts {
        all = together(all, standing_in(scope, hidden, part));
    }
    all
}

/// Where they stand in the terms of a chain.
#[cycle(looking)]
fn of_terms(scope: Scope<'_, '_>, hidden: &Hidden, terms: &[(bool, Expr)]) -> Standing
    ensures { result ≡ standing_of_terms (hidden_without (decisions_in (env_in scope.entry)) hidden.now) (terms_of terms.now) }
{
    let mut all = FREE;
    for term in terms {
        all = together(all, standing_in(scope, hidden, &term.1));
    }
    all
}

/// Where they stand in the indices of a read.
#[cycle(looking)]
fn of_indices(scope: Scope<'_, '_>, hidden: &Hidden, indices: &[Option<Expr>]) -> Standing
    ensures { result ≡ standing_of_indices (hidden_without (decisions_in (env_in scope.entry)) hidden.now) (indices_of indices.now) }
{
    let mut all = FREE;
    for index in indices {
        match index {
            Some(e) => all = together(all, standing_in(scope, hidden, e)),
            None => continue,
        }
    }
    all
}

/// Whether no decision variable stands in a domain.
#[cycle(looking)]
pub fn is_free_domain(scope: Scope<'_, '_>, hidden: &Hidden, d: &Domain) -> bool
    ensures { result ≡ free.is_free_domain (hidden_without (decisions_in (env_in scope.entry)) hidden.now) (domain_tree d.now) }
{
    match &d.kind {
        DomainKind::Bool => true,
        DomainKind::Int => true,
        DomainKind::Ranges(ranges) => are_free_ranges(scope, hidden, ranges),
        DomainKind::Named(_) => true,
        DomainKind::Group(inner) => is_free_domain(scope, hidden, inner),
        DomainKind::Set(_, one, other) => are_both(
            is_free_domain(scope, hidden, one),
            is_free_domain(scope, hidden, other),
        ),
        DomainKind::Matrix(indices, element) => are_both(
            are_free_domains(scope, hidden, indices),
            is_free_domain(scope, hidden, element),
        ),
    }
}

/// Whether none stands at an end of a range.
#[cycle(looking)]
fn is_free_end(scope: Scope<'_, '_>, hidden: &Hidden, end: &Option<Expr>) -> bool
    ensures { result ≡ free.is_free_end (hidden_without (decisions_in (env_in scope.entry)) hidden.now) (end_of end.now) }
{
    match end {
        Some(e) => standing_in(scope, hidden, e).free,
        None => true,
    }
}

/// Whether none stands in a range.
#[cycle(looking)]
fn is_free_range(scope: Scope<'_, '_>, hidden: &Hidden, range: &Range) -> bool
    ensures { result ≡ free.are_free_ranges (hidden_without (decisions_in (env_in scope.entry)) hidden.now) (alone range.now) }
{
    match range {
        Range::One(e) => standing_in(scope, hidden, e).free,
        Range::Span(low, high) => are_both(
            is_free_end(scope, hidden, low),
            is_free_end(scope, hidden, high),
        ),
    }
}

/// Whether none stands in some ranges.
#[cycle(looking)]
fn are_free_ranges(scope: Scope<'_, '_>, hidden: &Hidden, ranges: &[Range]) -> bool
    ensures { result ≡ free.are_free_ranges (hidden_without (decisions_in (env_in scope.entry)) hidden.now) (ranges_of ranges.now) }
{
    let mut all = true;
    for range in ranges {
        all = are_both(all, is_free_range(scope, hidden, range));
    }
    all
}

/// Whether none stands in some domains.
#[cycle(looking)]
fn are_free_domains(scope: Scope<'_, '_>, hidden: &Hidden, domains: &[Domain]) -> bool
    ensures { result ≡ free.are_free_domains (hidden_without (decisions_in (env_in scope.entry)) hidden.now) (domains_of domains.now) }
{
    let mut all = true;
    for domain in domains {
        all = are_both(all, is_free_domain(scope, hidden, domain));
    }
    all
}

/// Whether none stands in the domains of some generators.
#[cycle(looking)]
fn are_free_generators(scope: Scope<'_, '_>, hidden: &Hidden, generators: &[Generator]) -> bool
    ensures { result ≡ free.are_free_generators (hidden_without (decisions_in (env_in scope.entry)) hidden.now) (views.generators_of generators.now) }
{
    let mut all = true;
    for generator in generators {
        all = are_both(all, is_free_domain(scope, hidden, &generator.domain));
    }
    all
}

/// Whether none stands in the domain of a list's indices.
#[cycle(looking)]
fn is_free_index(scope: Scope<'_, '_>, hidden: &Hidden, domain: &Option<Box<Domain>>) -> bool
    ensures { result ≡ free.is_free_index (hidden_without (decisions_in (env_in scope.entry)) hidden.now) (index_at domain.now) }
{
    match domain {
        Some(own) => is_free_domain(scope, hidden, own),
        None => true,
    }
}
