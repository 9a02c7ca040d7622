//! Expressions as terms over cells.

ghost use Rattle.std.specs.Prelude.{◌≡◌, ◌∷◌, true, List, Some, IfOk, map, option_map};
ghost use Rattle.std.specs.List.{All};
ghost use Rattle.ep_base.specs.declared.places.Place.{Place};
ghost use Rattle.ep_forms.specs.Forms.{counts_node, one_node, quantified_tree, two_node};
ghost use Rattle.ep_ground.specs.Nodes.{GroundNode};
ghost use Rattle.ep_tree.specs.Evaluation.{domain_values};
ghost use Rattle.ep_tree.specs.Reach.{decisions_in};
ghost use Rattle.ep_tree.specs.Trees.{read};
ghost use Rattle.ep_tree.specs.Views.{domain_tree, expr_tree, expr_trees, generators_of, indices_of, terms_of};
ghost use Rattle.ep_eval.specs.Generating.{lists_joined, part_value, parts_at, parts_of, ranging_over};
ghost use Rattle.ep_eval.specs.Scopes.{env_in, mode_in};
ghost use Rattle.ep_size.specs.Free as free;
ghost use Rattle.ep_unroll.specs.Firsts.{numbering_of};
ghost use Rattle.ep_unroll.specs.Kinds.{IsName};
ghost use Rattle.ep_unroll.specs.Meanings.{AreInstancesOf, AreNumbersOf, IsNumberOf, IsTermOf, Means};
ghost use Rattle.ep_unroll.specs.Picks.{IsFreeIndex, SlotMeans, SlotsMean};
ghost use Rattle.ep_unroll.specs.PartLists.{ArePartsOf, ListsTerms, parts_in};
ghost use Rattle.ep_unroll.specs.Readings.{Numbering};
ghost use Rattle.ep_unroll.specs.Scalars.{AreScalarsOf};
ghost use Rattle.ep_unroll.specs.Signed.{AreSigned};

use super::choices::read_with;
use super::comprehensions::{comprehension_matrix, conditions_hold, with_one_more};
use super::firsts::CellTable;
use super::fixed::{fixed_numbers, fixed_value, is_fixed};
use super::fixed_lists::{fixed_rows, fixed_scalars};
use super::flattening::flattened;
use super::forms::{comparison, finish_all, finish_binary, magnitude, negated, negation};
use super::list_forms::{at_least_term, at_most_term, counts_term, lex_term, table_term};
use super::literals::made_matrix;
use super::matrices::{different_term, folded_term};
use super::members::member_term;
use super::named::named_cells;
use super::numbers::{number_term, taken_term};
use super::quantifiers::{finish_quantifier, without_domain};
use super::reads::read_of;
use super::scalars::taken_scalars;
use super::sets::{chosen_member, listed_member};
use super::slots::{Slot, are_decided, fixed_slot};
use super::sums::{chain_term, sign_of};
use super::unrolled::Unrolled;
use ep_base::{Memory, Name, Runs};
use ep_eval::{Around, Ranging, Scope, next_number, scalar_of, walk_of};
use ep_forms::{CountOp, Form, Listing, OneOp, Quantifier, TwoOp, form_of};
use ep_ground::{Arena, Term};
use ep_tree::{Expr, Generator, Kind};

/// What an expression without decision variables is unrolled to.
fn fixed<'a>(scope: Scope<'_, 'a>, e: &Expr) -> Result<Unrolled<'a>, Memory>
    requires { free.is_free (decisions_in (env_in scope)) (expr_tree e.now) ≡ true }
    ensures { (n : Numbering) → (nodes : List GroundNode) → n.mode ≡ mode_in scope.entry
        → IfOk result (Means n (env_in scope.entry) nodes nodes (expr_tree e.now)) }
{
    let seen = fixed_value(scope, e)?;
    Ok(Unrolled::Fixed(seen))
}

/// What an expression is unrolled to.
#[cycle(unrolling)]
pub fn unrolled<'a>(
    scope: Scope<'_, 'a>,
    table: &CellTable,
    arena: &mut Arena,
    e: &Expr,
) -> Result<Unrolled<'a>, Memory>
    ensures { IfOk result (Means (numbering_of (mode_in scope.entry) table.now) (env_in scope.entry) arena.old arena.new (expr_tree e.now)) }
{
    if is_fixed(scope, e) {
        let known = fixed(scope, e)?;
        return Ok(known);
    }
    match form_of(&e.kind) {
        // A number and a truth value hold no decision variable.
        Form::Number(_) => Err(Memory),
        Form::Truth(_) => Err(Memory),
        Form::Named(name) => {
            let known = named_cells(scope, table, name)?;
            Ok(known)
        }
        Form::One(op, part) => {
            let known = one_unrolled(scope, table, arena, op, part)?;
            Ok(known)
        }
        Form::Two(op, left, right) => {
            let term = two_term(scope, table, arena, op, left, right)?;
            Ok(Unrolled::Number(term))
        }
        Form::Counts(op, list, one, other) => {
            let term = counted_term(scope, table, arena, op, list, one, other)?;
            Ok(Unrolled::Number(term))
        }
        Form::Truths(every, parts) => {
            let terms = terms_of_all(scope, table, arena, parts)?;
            let term = finish_all(scope, arena, table.count, every, terms)?;
            Ok(Unrolled::Number(term))
        }
        Form::Chain(terms) => {
            let parts = signed_terms(scope, table, arena, terms)?;
            let term = chain_term(arena, parts)?;
            Ok(Unrolled::Number(term))
        }
        Form::InDomain(part, domain) => {
            let own = term_of(scope, table, arena, part)?;
            let numbers = fixed_numbers(scope, domain)?;
            let term = member_term(scope, arena, table.count, own, numbers)?;
            Ok(Unrolled::Number(term))
        }
        Form::Quant(quantifier, names) => {
            let known = quantified(scope, table, arena, quantifier, names)?;
            Ok(known)
        }
        Form::Literal(parts, domain) => {
            let own = parts_of_all(scope, table, arena, parts)?;
            let known = made_matrix(scope, domain, own)?;
            Ok(known)
        }
        Form::Comprehension(listing, generators, domain) => {
            let none = Some(Vec::new(scope.alloc));
            let parts = generated(scope, table, arena, listing, generators, none)?;
            let known = comprehension_matrix(scope, domain, parts)?;
            Ok(known)
        }
        Form::Read(matrix, indices) => {
            let known = read_unrolled(scope, table, arena, e, matrix, indices)?;
            Ok(known)
        }
    }
}

/// What is made of one part.
#[cycle(unrolling)]
fn one_unrolled<'a>(
    scope: Scope<'_, 'a>,
    table: &CellTable,
    arena: &mut Arena,
    op: OneOp,
    part: &Expr,
) -> Result<Unrolled<'a>, Memory>
    ensures { IfOk result (λ known. (p : Place) → Means (numbering_of (mode_in scope.entry) table.now) (env_in scope.entry) arena.old arena.new
        (one_node p op (expr_tree part.now)) known) }
{
    match op {
        OneOp::Group => {
            let known = unrolled(scope, table, arena, part)?;
            Ok(known)
        }
        OneOp::ToInt => {
            let known = unrolled(scope, table, arena, part)?;
            Ok(known)
        }
        OneOp::Flatten => {
            let own = unrolled(scope, table, arena, part)?;
            let known = flattened(scope.alloc, own)?;
            Ok(known)
        }
        OneOp::Not => {
            let own = term_of(scope, table, arena, part)?;
            let term = negation(scope, arena, table.count, own)?;
            Ok(Unrolled::Number(term))
        }
        OneOp::Neg => {
            let own = term_of(scope, table, arena, part)?;
            let term = negated(scope.alloc, arena, own)?;
            Ok(Unrolled::Number(term))
        }
        OneOp::Abs => {
            let own = term_of(scope, table, arena, part)?;
            let term = magnitude(arena, own)?;
            Ok(Unrolled::Number(term))
        }
        OneOp::AllDiff => {
            let terms = scalars_of(scope, table, arena, part)?;
            let term = different_term(scope, arena, table.count, terms)?;
            Ok(Unrolled::Number(term))
        }
        OneOp::Fold(fold) => {
            let own = unrolled(scope, table, arena, part)?;
            let term = folded_term(scope, arena, table.count, fold, own)?;
            Ok(Unrolled::Number(term))
        }
        // No decision variable may stand in it.
        OneOp::Factorial => Err(Memory),
    }
}

/// The term of what is made of two parts.
#[cycle(unrolling)]
fn two_term(
    scope: Scope<'_, '_>,
    table: &CellTable,
    arena: &mut Arena,
    op: TwoOp,
    left: &Expr,
    right: &Expr,
) -> Result<Term, Memory>
    ensures { IfOk result (λ term. (p : Place) → IsTermOf (numbering_of (mode_in scope.entry) table.now) (env_in scope.entry) arena.old arena.new
        (two_node p op (expr_tree left.now) (expr_tree right.now)) term) }
{
    match op {
        TwoOp::Binary(operator) => {
            let one = term_of(scope, table, arena, left)?;
            let other = term_of(scope, table, arena, right)?;
            let term = finish_binary(scope, arena, table.count, operator, one, other)?;
            Ok(term)
        }
        TwoOp::Compare(operator) => {
            let one = term_of(scope, table, arena, left)?;
            let other = term_of(scope, table, arena, right)?;
            let term = comparison(scope, arena, table.count, operator, one, other)?;
            Ok(term)
        }
        TwoOp::InSet => {
            let own = term_of(scope, table, arena, left)?;
            if is_fixed(scope, right) {
                let numbers = fixed_scalars(scope, right)?;
                let term = listed_member(scope, arena, table.count, own, numbers)?;
                return Ok(term);
            }
            let terms = scalars_of(scope, table, arena, right)?;
            let term = chosen_member(scope, arena, table.count, own, &terms)?;
            Ok(term)
        }
        TwoOp::Lex(operator) => {
            let terms = scalars_of(scope, table, arena, left)?;
            let others = scalars_of(scope, table, arena, right)?;
            let term = lex_term(scope, arena, table.count, operator, terms, others)?;
            Ok(term)
        }
        TwoOp::Table => {
            let terms = scalars_of(scope, table, arena, left)?;
            let rows = fixed_rows(scope, right)?;
            let term = table_term(scope, arena, table.count, terms, rows)?;
            Ok(term)
        }
    }
}

/// The term of how often numbers stand in a matrix, with two lists in the order of the text.
#[cycle(unrolling)]
fn counted_term(
    scope: Scope<'_, '_>,
    table: &CellTable,
    arena: &mut Arena,
    op: CountOp,
    list: &Expr,
    one: &Expr,
    other: &Expr,
) -> Result<Term, Memory>
    ensures { IfOk result (λ term. (p : Place) → IsTermOf (numbering_of (mode_in scope.entry) table.now) (env_in scope.entry) arena.old arena.new
        (counts_node p op (expr_tree list.now) (expr_tree one.now) (expr_tree other.now)) term) }
{
    match op {
        CountOp::Gcc => {
            let terms = scalars_of(scope, table, arena, list)?;
            let values = fixed_scalars(scope, one)?;
            let counts = scalars_of(scope, table, arena, other)?;
            let term = counts_term(scope, arena, table.count, terms, values, counts)?;
            Ok(term)
        }
        CountOp::AtLeast => {
            let terms = scalars_of(scope, table, arena, list)?;
            let bounds = fixed_scalars(scope, one)?;
            let values = fixed_scalars(scope, other)?;
            let term = at_least_term(scope, arena, table.count, terms, bounds, values)?;
            Ok(term)
        }
        CountOp::AtMost => {
            let terms = scalars_of(scope, table, arena, list)?;
            let bounds = fixed_scalars(scope, one)?;
            let values = fixed_scalars(scope, other)?;
            let term = at_most_term(scope, arena, table.count, terms, bounds, values)?;
            Ok(term)
        }
    }
}

/// The term of an expression's number.
#[cycle(unrolling)]
pub fn term_of(
    scope: Scope<'_, '_>,
    table: &CellTable,
    arena: &mut Arena,
    e: &Expr,
) -> Result<Term, Memory>
    ensures { IfOk result (IsNumberOf (numbering_of (mode_in scope.entry) table.now) (env_in scope.entry) arena.old arena.new (expr_tree e.now)) }
{
    let known = unrolled(scope, table, arena, e)?;
    number_term(arena, &known)
}

/// Whether an expression is a name.
fn is_named(e: &Expr) -> bool
    ensures { result ≡ true → IsName e.now.kind }
{
    match &e.kind {
        Kind::Named(_) => true,
        _ => false,
    }
}

/// The terms of some expressions.
#[cycle(unrolling)]
fn terms_of_all(
    scope: Scope<'_, '_>,
    table: &CellTable,
    arena: &mut Arena,
    parts: &[Expr],
) -> Result<Vec<Term>, Memory>
    ensures { IfOk result (λ ts. AreNumbersOf (numbering_of (mode_in scope.entry) table.now) (env_in scope.entry) arena.old arena.new (expr_trees parts.now) ts.items) }
{
    let mut terms = Vec::new(scope.alloc);
    for part in parts {
        let term = term_of(scope, table, arena, part)?;
        terms.push(term)?;
    }
    Ok(terms)
}

/// The terms of a chain, each with its sign as a coefficient.
#[cycle(unrolling)]
fn signed_terms(
    scope: Scope<'_, '_>,
    table: &CellTable,
    arena: &mut Arena,
    terms: &[(bool, Expr)],
) -> Result<Vec<(i64, Term)>, Memory>
    ensures { IfOk result (λ ps. AreSigned (numbering_of (mode_in scope.entry) table.now) (env_in scope.entry) arena.old arena.new (terms_of terms.now) ps.items) }
{
    let mut parts = Vec::new(scope.alloc);
    for term in terms {
        let part = term_of(scope, table, arena, &term.1)?;
        parts.push((sign_of(term.0), part))?;
    }
    Ok(parts)
}

/// A quantifier over these names; without any name it is its body.
#[cycle(unrolling)]
fn quantified<'a>(
    scope: Scope<'_, 'a>,
    table: &CellTable,
    arena: &mut Arena,
    quantifier: Quantifier<'_>,
    names: &[Name],
) -> Result<Unrolled<'a>, Memory>
    ensures { IfOk result (λ known. (p : Place) → Means (numbering_of (mode_in scope.entry) table.now) (env_in scope.entry) arena.old arena.new
        (quantified_tree p quantifier.entry names.now) known) }
{
    match names.split_first() {
        Some((name, rest)) => {
            let term = over_domain(scope, table, arena, quantifier, name, rest)?;
            Ok(Unrolled::Number(term))
        }
        None => {
            let known = unrolled(scope, table, arena, quantifier.body)?;
            Ok(known)
        }
    }
}

/// The term of a quantifier over a name and others.
#[cycle(unrolling)]
fn over_domain(
    scope: Scope<'_, '_>,
    table: &CellTable,
    arena: &mut Arena,
    quantifier: Quantifier<'_>,
    name: &Name,
    rest: &[Name],
) -> Result<Term, Memory>
    ensures { (p : Place) → IfOk result (IsTermOf (numbering_of (mode_in scope.entry) table.now) (env_in scope.entry) arena.old arena.new
        (quantified_tree p quantifier.entry (name.now ∷ rest.now))) }
{
    let numbers = fixed_numbers(scope, quantifier.domain)?;
    match numbers {
        Some(set) => {
            let terms = instances(scope, table, arena, quantifier, name, rest, &set)?;
            finish_quantifier(scope, arena, table.count, quantifier.op, terms)
        }
        None => without_domain(scope, arena, quantifier.op),
    }
}

/// The terms of the instances of a quantifier, one for each number of its domain.
#[cycle(unrolling)]
fn instances(
    scope: Scope<'_, '_>,
    table: &CellTable,
    arena: &mut Arena,
    quantifier: Quantifier<'_>,
    name: &Name,
    rest: &[Name],
    set: &Runs,
) -> Result<Vec<Term>, Memory>
    requires { domain_values (mode_in scope) (env_in scope) (domain_tree quantifier.domain.now) ≡ Some set.now }
    ensures { (p : Place) → IfOk result (λ ts. AreInstancesOf (numbering_of (mode_in scope.entry) table.now) (env_in scope.entry) arena.old arena.new
        p quantifier.entry name.now rest.now set.now ts.items) }
{
    let scalar = scalar_of(scope, quantifier.domain);
    let mut terms = Vec::new(scope.alloc);
    let mut walk = walk_of(set.runs());
    while let Some((number, behind)) = next_number(walk) {
        let around = Around::Number(scope.around, name, scalar, number);
        let inner = Scope {
            alloc: scope.alloc,
            env: scope.env,
            around: &around,
        };
        let instance = quantified(inner, table, arena, quantifier, rest)?;
        let term = taken_term(arena, instance)?;
        terms.push(term)?;
        walk = behind;
    }
    Ok(terms)
}

/// What an index of a read is; nothing where it has no number.
#[cycle(unrolling)]
fn slot_of(
    scope: Scope<'_, '_>,
    table: &CellTable,
    arena: &mut Arena,
    index: &Option<Expr>,
) -> Result<Option<Slot>, Memory>
    ensures { IfOk result (SlotMeans (numbering_of (mode_in scope.entry) table.now) (env_in scope.entry) arena.old arena.new index.now) }
{
    match index {
        Some(stated) => {
            if is_fixed(scope, stated) {
                return fixed_slot(scope, stated);
            }
            let term = term_of(scope, table, arena, stated)?;
            Ok(Some(Slot::Open(term)))
        }
        None => Ok(Some(Slot::Every)),
    }
}

/// What the indices of a read are; nothing where one has no number.
#[cycle(unrolling)]
fn slots_of(
    scope: Scope<'_, '_>,
    table: &CellTable,
    arena: &mut Arena,
    indices: &[Option<Expr>],
) -> Result<Option<Vec<Slot>>, Memory>
    ensures { IfOk result (λ found. SlotsMean (numbering_of (mode_in scope.entry) table.now) (env_in scope.entry) arena.old arena.new indices.now (option_map (λ v. v.items) found)) }
{
    let mut slots = Vec::new(scope.alloc);
    for index in indices {
        let one = slot_of(scope, table, arena, index)?;
        match one {
            Some(slot) => slots.push(slot)?,
            None => return Ok(None),
        }
    }
    Ok(Some(slots))
}

/// A read of a matrix.
#[cycle(unrolling)]
fn read_unrolled<'a>(
    scope: Scope<'_, 'a>,
    table: &CellTable,
    arena: &mut Arena,
    e: &Expr,
    matrix: &Expr,
    indices: &[Option<Expr>],
) -> Result<Unrolled<'a>, Memory>
    requires { expr_tree e.now ≡ read e.now.place (expr_tree matrix.now) (indices_of indices.now) }
    ensures { IfOk result (Means (numbering_of (mode_in scope.entry) table.now) (env_in scope.entry) arena.old arena.new (expr_tree e.now)) }
{
    if reads_cells(scope, matrix, indices) {
        return read_of(scope, table, e, matrix, indices);
    }
    let known = unrolled(scope, table, arena, matrix)?;
    let slots = slots_of(scope, table, arena, indices)?;
    read_with(scope, table, arena, e, known, slots)
}

/// Whether a name is read at indices in which no decision variable stands. Linear in their text.
fn reads_cells(scope: Scope<'_, '_>, matrix: &Expr, indices: &[Option<Expr>]) -> bool
    ensures name { result ≡ true → IsName matrix.now.kind }
    ensures indices { result ≡ true → All (IsFreeIndex (decisions_in (env_in scope.entry))) indices.now }
{
    is_named(matrix) && are_decided(scope, indices)
}

/// What some expressions are unrolled to.
#[cycle(unrolling)]
fn parts_of_all<'a>(
    scope: Scope<'_, 'a>,
    table: &CellTable,
    arena: &mut Arena,
    parts: &[Expr],
) -> Result<Vec<Unrolled<'a>>, Memory>
    ensures { IfOk result (λ xs. ArePartsOf (numbering_of (mode_in scope.entry) table.now) (env_in scope.entry) arena.old arena.new (expr_trees parts.now) xs.items) }
{
    let mut known = Vec::new(scope.alloc);
    for part in parts {
        let own = unrolled(scope, table, arena, part)?;
        known.push(own)?;
    }
    Ok(known)
}

/// Some parts and those that generators lead to behind them, where there are any.
#[cycle(unrolling)]
fn generated<'a>(
    scope: Scope<'_, 'a>,
    table: &CellTable,
    arena: &mut Arena,
    listing: Listing<'_>,
    generators: &[Generator],
    parts: Option<Vec<Unrolled<'a>>>,
) -> Result<Option<Vec<Unrolled<'a>>>, Memory>
    ensures { IfOk result (λ more. ListsTerms (numbering_of (mode_in scope.entry) table.now) (env_in scope.entry) arena.old arena.new (parts_in parts.entry) (parts_in more)
        (parts_of (mode_in scope.entry) listing.entry (generators_of generators.now))) }
{
    match generators.split_first() {
        Some((first, later)) => {
            let ranging = Ranging {
                listing,
                domain: &first.domain,
                later,
            };
            let more = over_names(scope, table, arena, ranging, &first.names, parts)?;
            Ok(more)
        }
        None => {
            let more = with_part(scope, table, arena, listing, parts)?;
            Ok(more)
        }
    }
}

/// Some parts and those that names over a domain and the generators behind them lead to.
#[cycle(unrolling)]
fn over_names<'a>(
    scope: Scope<'_, 'a>,
    table: &CellTable,
    arena: &mut Arena,
    ranging: Ranging<'_>,
    names: &[Name],
    parts: Option<Vec<Unrolled<'a>>>,
) -> Result<Option<Vec<Unrolled<'a>>>, Memory>
    ensures { IfOk result (λ more. ListsTerms (numbering_of (mode_in scope.entry) table.now) (env_in scope.entry) arena.old arena.new (parts_in parts.entry) (parts_in more)
        (parts_of (mode_in scope.entry) ranging.entry.listing (ranging_over ranging.entry names.now))) }
{
    match names.split_first() {
        Some((name, rest)) => {
            let numbers = fixed_numbers(scope, ranging.domain)?;
            match numbers {
                Some(set) => {
                    let more = over_numbers(scope, table, arena, ranging, name, rest, &set, parts)?;
                    Ok(more)
                }
                None => Ok(None),
            }
        }
        None => {
            let more = generated(scope, table, arena, ranging.listing, ranging.later, parts)?;
            Ok(more)
        }
    }
}

/// The same where the first name stands for each number of a set in turn.
#[cycle(unrolling)]
fn over_numbers<'a>(
    scope: Scope<'_, 'a>,
    table: &CellTable,
    arena: &mut Arena,
    ranging: Ranging<'_>,
    name: &Name,
    rest: &[Name],
    set: &Runs,
    parts: Option<Vec<Unrolled<'a>>>,
) -> Result<Option<Vec<Unrolled<'a>>>, Memory>
    requires { domain_values (mode_in scope) (env_in scope) (domain_tree ranging.domain.now) ≡ Some set.now }
    ensures { IfOk result (λ more. ListsTerms (numbering_of (mode_in scope.entry) table.now) (env_in scope.entry) arena.old arena.new (parts_in parts.entry) (parts_in more)
        (λ env. lists_joined (map (parts_at (mode_in scope.entry) env ranging.entry name.now rest.now) set.now))) }
{
    let scalar = scalar_of(scope, ranging.domain);
    let mut more = parts;
    let mut walk = walk_of(set.runs());
    while let Some((number, behind)) = next_number(walk) {
        let around = Around::Number(scope.around, name, scalar, number);
        let inner = Scope {
            alloc: scope.alloc,
            env: scope.env,
            around: &around,
        };
        more = over_names(inner, table, arena, ranging, rest, more)?;
        walk = behind;
    }
    Ok(more)
}

/// Some parts and the one behind them, where the conditions hold.
#[cycle(unrolling)]
fn with_part<'a>(
    scope: Scope<'_, 'a>,
    table: &CellTable,
    arena: &mut Arena,
    listing: Listing<'_>,
    parts: Option<Vec<Unrolled<'a>>>,
) -> Result<Option<Vec<Unrolled<'a>>>, Memory>
    ensures { IfOk result (λ more. ListsTerms (numbering_of (mode_in scope.entry) table.now) (env_in scope.entry) arena.old arena.new (parts_in parts.entry) (parts_in more)
        (part_value (mode_in scope.entry) (expr_tree listing.entry.body.now) (expr_trees listing.entry.conditions.now))) }
{
    let truth = conditions_hold(scope, listing.conditions)?;
    match truth {
        Some(true) => {
            let part = unrolled(scope, table, arena, listing.body)?;
            let more = with_one_more(parts, part)?;
            Ok(more)
        }
        Some(false) => Ok(parts),
        None => Ok(None),
    }
}

/// The terms of the scalars of an expression's value.
#[cycle(unrolling)]
fn scalars_of(
    scope: Scope<'_, '_>,
    table: &CellTable,
    arena: &mut Arena,
    e: &Expr,
) -> Result<Vec<Term>, Memory>
    ensures { IfOk result (λ ts. AreScalarsOf (numbering_of (mode_in scope.entry) table.now) (env_in scope.entry) arena.old arena.new (expr_tree e.now) ts.items) }
{
    let known = unrolled(scope, table, arena, e)?;
    taken_scalars(scope.alloc, arena, known)
}
