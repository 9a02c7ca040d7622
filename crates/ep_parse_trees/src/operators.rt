//! Reads operators, from the tightest to the loosest.

ghost use Rattle.std.specs.Prelude.{◌≡◌, codes, false, nat_lt, option_map, true};
ghost use Rattle.ep_parse_below.specs.Chains.{another_part, operator_behind};
ghost use Rattle.ep_parse_parts.specs.Founds.{Finds, Measured, Shows, lower};
ghost use Rattle.ep_parse_parts.specs.Gathered.{PartsCount, TermsCount};
ghost use Rattle.ep_parse_trees.specs.Junctions.{AddsPart, AddsTerm, GivesParts, GivesTerms, goes_on, more_parts, more_terms, sign_comes};
ghost use Rattle.ep_parse_below.specs.Lowers.{Ready};
ghost use Rattle.ep_parse_parts.specs.Openings.{comparison_of, level_of, right_of, words_of};
ghost use Rattle.ep_parse_parts.specs.OperatorReaders.{of_set, another_binary, at_level, chain_from, compared_with, comparison_behind, comparison_from, comparison_words, conjunction_from, disjunction_from, implication_from, part_from, parts_behind, power_from, product_from, sign_words, term_from, terms_behind, unary_from};
ghost use Rattle.ep_parse_parts.specs.OperandReaders.{call_from, if_low};
ghost use Rattle.ep_parse_parts.specs.Readers.{behind, grown, next_in};
ghost use Rattle.ep_tree.specs.Heights.{height};
ghost use Rattle.ep_tree.specs.Spelling.{comparisons, conjunctions, is_called};
ghost use Rattle.ep_tree.specs.Trees as trees;
ghost use Rattle.ep_tree.specs.Trees.{all_of, any_of};
ghost use Rattle.ep_tree.specs.Views.{expr_tree, expr_trees, terms_of};

use crate::reads::unary;
use ep_base::Place;
use ep_parse_below::Below;
use ep_parse_parts::{
    Chain, Comparison, Cursor, DomainLevel, Found, FoundDomain, Level, Parts, Stop, Terms, above,
    find_comparison, find_sign, in_domain, in_set, joined, lex_compared,
};
use ep_tree::{BinaryOp, Expr, Kind};

/// An expression where a level is asked for.
#[tactic(auto, unfolding(ep_parse_parts::specs::OperatorReaders::at_level))]
pub(crate) fn at_level<
    E: Fn(&mut Cursor<'_>, Level) -> Result<Found, Stop>,
    D: Fn(&mut Cursor<'_>, DomainLevel) -> Result<FoundDomain, Stop>,
>(below: &Below<E, D>, cursor: &mut Cursor<'_>, level: Level) -> Result<Found, Stop>
    requires ready { Ready E.Fn D.Fn below.now }
    ensures read { Finds result cursor.new (at_level below.now.most (lower below.now.most) (level_of level) cursor.old) }
{
    match level {
        Level::Implications => implication(below, cursor),
        Level::Disjunctions => disjunction(below, cursor),
        Level::Conjunctions => conjunction(below, cursor),
        Level::Comparisons => comparison(below, cursor),
        Level::Sums => sums(below, cursor),
        Level::Products => product(below, cursor),
        Level::Powers => power(below, cursor),
        Level::Unaries => unary(below, cursor),
    }
}

/// Any expression.
#[tactic(auto, unfolding(ep_parse_parts::specs::OperatorReaders::implication_from))]
fn implication<
    E: Fn(&mut Cursor<'_>, Level) -> Result<Found, Stop>,
    D: Fn(&mut Cursor<'_>, DomainLevel) -> Result<FoundDomain, Stop>,
>(below: &Below<E, D>, cursor: &mut Cursor<'_>) -> Result<Found, Stop>
    requires ready { Ready E.Fn D.Fn below.now }
    ensures read { Finds result cursor.new (implication_from below.now.most (lower below.now.most) cursor.old) }
{
    let first = disjunction(below, cursor)?;
    chain(below, cursor, Chain::Arrows, first)
}

/// A conjunction, or a disjunction.
#[tactic(auto, unfolding(ep_parse_parts::specs::OperatorReaders::disjunction_from))]
fn disjunction<
    E: Fn(&mut Cursor<'_>, Level) -> Result<Found, Stop>,
    D: Fn(&mut Cursor<'_>, DomainLevel) -> Result<FoundDomain, Stop>,
>(below: &Below<E, D>, cursor: &mut Cursor<'_>) -> Result<Found, Stop>
    requires ready { Ready E.Fn D.Fn below.now }
    ensures read { Finds result cursor.new (disjunction_from below.now.most (lower below.now.most) cursor.old) }
{
    let first = conjunction(below, cursor)?;
    disjoined(below, cursor, first)
}

/// A comparison, or a conjunction.
#[tactic(auto, unfolding(ep_parse_parts::specs::OperatorReaders::conjunction_from))]
fn conjunction<
    E: Fn(&mut Cursor<'_>, Level) -> Result<Found, Stop>,
    D: Fn(&mut Cursor<'_>, DomainLevel) -> Result<FoundDomain, Stop>,
>(below: &Below<E, D>, cursor: &mut Cursor<'_>) -> Result<Found, Stop>
    requires ready { Ready E.Fn D.Fn below.now }
    ensures read { Finds result cursor.new (conjunction_from below.now.most (lower below.now.most) cursor.old) }
{
    let first = comparison(below, cursor)?;
    conjoined(below, cursor, first)
}

/// A chain of sums, or a comparison.
#[tactic(auto, unfolding(ep_parse_parts::specs::OperatorReaders::comparison_from))]
fn comparison<
    E: Fn(&mut Cursor<'_>, Level) -> Result<Found, Stop>,
    D: Fn(&mut Cursor<'_>, DomainLevel) -> Result<FoundDomain, Stop>,
>(below: &Below<E, D>, cursor: &mut Cursor<'_>) -> Result<Found, Stop>
    requires ready { Ready E.Fn D.Fn below.now }
    ensures read { Finds result cursor.new (comparison_from below.now.most (lower below.now.most) cursor.old) }
{
    let one = sums(below, cursor)?;
    comparison_behind(below, cursor, one)
}

/// What was read, or a comparison of it.
fn comparison_behind<
    E: Fn(&mut Cursor<'_>, Level) -> Result<Found, Stop>,
    D: Fn(&mut Cursor<'_>, DomainLevel) -> Result<FoundDomain, Stop>,
>(below: &Below<E, D>, cursor: &mut Cursor<'_>, one: Found) -> Result<Found, Stop>
    requires ready { Ready E.Fn D.Fn below.now }
    requires one { Measured one }
    ensures read { Finds result cursor.new (comparison_behind below.now.most (lower below.now.most) (expr_tree one.expr) cursor.old) }
{
    match comparison_next(cursor, &one) {
        Some(op) => compared(below, cursor, one, op),
        None => Ok(one),
    }
}

/// A comparison, with its operator next.
fn compared<
    E: Fn(&mut Cursor<'_>, Level) -> Result<Found, Stop>,
    D: Fn(&mut Cursor<'_>, DomainLevel) -> Result<FoundDomain, Stop>,
>(below: &Below<E, D>, cursor: &mut Cursor<'_>, one: Found, op: Comparison) -> Result<Found, Stop>
    requires ready { Ready E.Fn D.Fn below.now }
    requires one { Measured one }
    ensures read { Finds result cursor.new (if_low (nat_lt (height (expr_tree one.expr)) below.now.most) (λ all. compared_with (lower below.now.most) (expr_tree one.expr) (comparison_of op) (behind all)) cursor.old) }
{
    if !one.is_below(below.most) {
        return Err(Stop::TooHigh);
    }
    cursor.pass();
    compared_with(below, cursor, one, op)
}

/// A comparison behind its operator.
#[tactic(auto, unfolding(ep_parse_parts::specs::OperatorReaders::compared_with, ep_parse_parts::specs::OperandReaders::call_from, ep_parse_parts::specs::Cursors::passing), using(ep_parse_parts::proofs::Finding::finds_made))]
fn compared_with<
    E: Fn(&mut Cursor<'_>, Level) -> Result<Found, Stop>,
    D: Fn(&mut Cursor<'_>, DomainLevel) -> Result<FoundDomain, Stop>,
>(below: &Below<E, D>, cursor: &mut Cursor<'_>, one: Found, op: Comparison) -> Result<Found, Stop>
    requires ready { Ready E.Fn D.Fn below.now }
    requires one { Measured one }
    ensures read { Finds result cursor.new (compared_with (lower below.now.most) (expr_tree one.expr) (comparison_of op) cursor.old) }
{
    match op {
        Comparison::Numbers(op) => {
            let right = below.expr(cursor, Level::Sums)?;
            ep_parse_parts::compared(below.alloc, op, one, right)
        }
        Comparison::Lists(op) => {
            let other = below.expr(cursor, Level::Sums)?;
            lex_compared(below.alloc, op, one, other)
        }
        Comparison::Set => in_set_behind(below, cursor, one),
    }
}

/// `in` and what stands behind it.
#[tactic(auto, unfolding(ep_parse_parts::specs::OperatorReaders::compared_with, ep_parse_parts::specs::OperandReaders::call_from, ep_parse_parts::specs::Cursors::passing), using(ep_parse_parts::proofs::Finding::finds_made))]
fn in_set_behind<
    E: Fn(&mut Cursor<'_>, Level) -> Result<Found, Stop>,
    D: Fn(&mut Cursor<'_>, DomainLevel) -> Result<FoundDomain, Stop>,
>(below: &Below<E, D>, cursor: &mut Cursor<'_>, one: Found) -> Result<Found, Stop>
    requires ready { Ready E.Fn D.Fn below.now }
    requires one { Measured one }
    ensures read { Finds result cursor.new (compared_with (lower below.now.most) (expr_tree one.expr) of_set cursor.old) }
{
    if !cursor.passes(b"toSet") {
        let domain = below.domain(cursor, DomainLevel::SetOperations)?;
        return in_domain(below.alloc, one, domain);
    }
    cursor.word(b"(")?;
    let matrix = below.expr(cursor, Level::Implications)?;
    cursor.word(b")")?;
    in_set(below.alloc, one, matrix)
}

/// An operand, or a chain of sums.
#[tactic(auto, unfolding(ep_parse_parts::specs::OperatorReaders::chain_from))]
fn sums<
    E: Fn(&mut Cursor<'_>, Level) -> Result<Found, Stop>,
    D: Fn(&mut Cursor<'_>, DomainLevel) -> Result<FoundDomain, Stop>,
>(below: &Below<E, D>, cursor: &mut Cursor<'_>) -> Result<Found, Stop>
    requires ready { Ready E.Fn D.Fn below.now }
    ensures read { Finds result cursor.new (chain_from below.now.most (lower below.now.most) cursor.old) }
{
    let first = product(below, cursor)?;
    terms_behind(below, cursor, first)
}

/// A chain of products.
#[tactic(auto, unfolding(ep_parse_parts::specs::OperatorReaders::product_from))]
fn product<
    E: Fn(&mut Cursor<'_>, Level) -> Result<Found, Stop>,
    D: Fn(&mut Cursor<'_>, DomainLevel) -> Result<FoundDomain, Stop>,
>(below: &Below<E, D>, cursor: &mut Cursor<'_>) -> Result<Found, Stop>
    requires ready { Ready E.Fn D.Fn below.now }
    ensures read { Finds result cursor.new (product_from below.now.most (lower below.now.most) cursor.old) }
{
    let first = power(below, cursor)?;
    chain(below, cursor, Chain::Products, first)
}

/// A chain of powers.
#[tactic(auto, unfolding(ep_parse_parts::specs::OperatorReaders::power_from))]
fn power<
    E: Fn(&mut Cursor<'_>, Level) -> Result<Found, Stop>,
    D: Fn(&mut Cursor<'_>, DomainLevel) -> Result<FoundDomain, Stop>,
>(below: &Below<E, D>, cursor: &mut Cursor<'_>) -> Result<Found, Stop>
    requires ready { Ready E.Fn D.Fn below.now }
    ensures read { Finds result cursor.new (power_from below.now.most (lower below.now.most) cursor.old) }
{
    let first = unary(below, cursor)?;
    chain(below, cursor, Chain::Powers, first)
}

/// A chain of operators of two parts behind its first part.
fn chain<
    E: Fn(&mut Cursor<'_>, Level) -> Result<Found, Stop>,
    D: Fn(&mut Cursor<'_>, DomainLevel) -> Result<FoundDomain, Stop>,
>(below: &Below<E, D>, cursor: &mut Cursor<'_>, chain: Chain, first: Found) -> Result<Found, Stop>
    requires ready { Ready E.Fn D.Fn below.now }
    requires first { Measured first }
    ensures read { Finds result cursor.new (grown (another_binary below.now.most (lower below.now.most) (words_of chain) (right_of chain)) (expr_tree first.expr) cursor.old) }
{
    let mut left = first;
    while let Some(op) = operator_behind(cursor, chain, &left) {
        left = another_part(below, cursor, chain, op, left)?;
    }
    Ok(left)
}

/// One more part of a chain, with its operator before it.
#[tactic(auto, unfolding(ep_parse_below::specs::Chains::another_part), using(ep_parse_parts::proofs::Finding::finds_made))]
fn another_part<
    E: Fn(&mut Cursor<'_>, Level) -> Result<Found, Stop>,
    D: Fn(&mut Cursor<'_>, DomainLevel) -> Result<FoundDomain, Stop>,
>(
    below: &Below<E, D>,
    cursor: &mut Cursor<'_>,
    chain: Chain,
    op: BinaryOp,
    left: Found,
) -> Result<Found, Stop>
    requires ready { Ready E.Fn D.Fn below.now }
    requires not_called { is_called op ≡ false }
    requires left { Measured left }
    ensures read { Finds result cursor.new (another_part below.now.most (lower below.now.most) (right_of chain) (expr_tree left.expr) op cursor.old) }
{
    if !left.is_below(below.most) {
        return Err(Stop::TooHigh);
    }
    cursor.pass();
    let right = below.expr(cursor, chain.right())?;
    joined(below.alloc, op, left, right)
}

/// A chain of sums behind its first part.
fn terms_behind<
    E: Fn(&mut Cursor<'_>, Level) -> Result<Found, Stop>,
    D: Fn(&mut Cursor<'_>, DomainLevel) -> Result<FoundDomain, Stop>,
>(below: &Below<E, D>, cursor: &mut Cursor<'_>, first: Found) -> Result<Found, Stop>
    requires ready { Ready E.Fn D.Fn below.now }
    requires first { Measured first }
    ensures read { Finds result cursor.new (terms_behind below.now.most (lower below.now.most) (expr_tree first.expr) cursor.old) }
{
    if !sign_comes(cursor, first.ends_open) {
        return Ok(first);
    }
    let place = first.expr.place;
    let terms = terms(below, cursor, first)?;
    Ok(sum(place, terms))
}

/// The terms of a chain of sums.
fn terms<
    E: Fn(&mut Cursor<'_>, Level) -> Result<Found, Stop>,
    D: Fn(&mut Cursor<'_>, DomainLevel) -> Result<FoundDomain, Stop>,
>(below: &Below<E, D>, cursor: &mut Cursor<'_>, first: Found) -> Result<Terms, Stop>
    requires ready { Ready E.Fn D.Fn below.now }
    requires first { Measured first }
    ensures read { GivesTerms result (true, expr_tree first.expr) cursor.new (if_low (nat_lt (height (expr_tree first.expr)) below.now.most) (more_terms (lower below.now.most) (true, expr_tree first.expr)) cursor.old) }
{
    if !first.is_below(below.most) {
        return Err(Stop::TooHigh);
    }
    let mut terms = Terms::new(below.alloc);
    terms.push(true, first)?;
    'more: while sign_comes(cursor, terms.ends_open) {
        push_term(below, cursor, &mut terms)?;
    }
    Ok(terms)
}

/// One more term, behind its sign.
fn push_term<
    E: Fn(&mut Cursor<'_>, Level) -> Result<Found, Stop>,
    D: Fn(&mut Cursor<'_>, DomainLevel) -> Result<FoundDomain, Stop>,
>(below: &Below<E, D>, cursor: &mut Cursor<'_>, terms: &mut Terms) -> Result<(), Stop>
    requires ready { Ready E.Fn D.Fn below.now }
    requires counted { TermsCount terms.old }
    ensures read { AddsTerm result terms.old terms.new cursor.new (term_from (lower below.now.most) cursor.old) }
{
    let Some(plus) = sign_next(cursor) else {
        return Err(Stop::Wrong);
    };
    cursor.pass();
    let term = below.expr(cursor, Level::Products)?;
    terms.push(plus, term)
}

/// A conjunction behind its first part.
fn conjoined<
    E: Fn(&mut Cursor<'_>, Level) -> Result<Found, Stop>,
    D: Fn(&mut Cursor<'_>, DomainLevel) -> Result<FoundDomain, Stop>,
>(below: &Below<E, D>, cursor: &mut Cursor<'_>, first: Found) -> Result<Found, Stop>
    requires ready { Ready E.Fn D.Fn below.now }
    requires first { Measured first }
    ensures read { Finds result cursor.new (parts_behind below.now.most (lower below.now.most) (codes "/\\") comparisons all_of (expr_tree first.expr) cursor.old) }
{
    if !goes_on(cursor, b"/\\", first.ends_open) {
        return Ok(first);
    }
    let place = first.expr.place;
    let parts = parts(below, cursor, b"/\\", Level::Comparisons, first)?;
    Ok(conjunction_of(place, parts))
}

/// A disjunction behind its first part.
fn disjoined<
    E: Fn(&mut Cursor<'_>, Level) -> Result<Found, Stop>,
    D: Fn(&mut Cursor<'_>, DomainLevel) -> Result<FoundDomain, Stop>,
>(below: &Below<E, D>, cursor: &mut Cursor<'_>, first: Found) -> Result<Found, Stop>
    requires ready { Ready E.Fn D.Fn below.now }
    requires first { Measured first }
    ensures read { Finds result cursor.new (parts_behind below.now.most (lower below.now.most) (codes "\\/") conjunctions any_of (expr_tree first.expr) cursor.old) }
{
    if !goes_on(cursor, b"\\/", first.ends_open) {
        return Ok(first);
    }
    let place = first.expr.place;
    let parts = parts(below, cursor, b"\\/", Level::Conjunctions, first)?;
    Ok(disjunction_of(place, parts))
}

/// The parts of a chain with a word between any two.
fn parts<
    E: Fn(&mut Cursor<'_>, Level) -> Result<Found, Stop>,
    D: Fn(&mut Cursor<'_>, DomainLevel) -> Result<FoundDomain, Stop>,
>(
    below: &Below<E, D>,
    cursor: &mut Cursor<'_>,
    word: &[u8],
    level: Level,
    first: Found,
) -> Result<Parts, Stop>
    requires ready { Ready E.Fn D.Fn below.now }
    requires first { Measured first }
    ensures read { GivesParts result (expr_tree first.expr) cursor.new (if_low (nat_lt (height (expr_tree first.expr)) below.now.most) (more_parts (lower below.now.most) word.now (level_of level) (expr_tree first.expr)) cursor.old) }
{
    if !first.is_below(below.most) {
        return Err(Stop::TooHigh);
    }
    let mut parts = Parts::new(below.alloc);
    parts.push(first)?;
    'more: while goes_on(cursor, word, parts.ends_open) {
        push_part(below, cursor, word, level, &mut parts)?;
    }
    Ok(parts)
}

/// One more part, behind the chain's word.
#[tactic(auto, unfolding(ep_parse_parts::specs::OperatorReaders::part_from))]
fn push_part<
    E: Fn(&mut Cursor<'_>, Level) -> Result<Found, Stop>,
    D: Fn(&mut Cursor<'_>, DomainLevel) -> Result<FoundDomain, Stop>,
>(
    below: &Below<E, D>,
    cursor: &mut Cursor<'_>,
    word: &[u8],
    level: Level,
    parts: &mut Parts,
) -> Result<(), Stop>
    requires ready { Ready E.Fn D.Fn below.now }
    requires counted { PartsCount parts.old }
    ensures read { AddsPart result parts.old parts.new cursor.new (part_from (lower below.now.most) word.now (level_of level) cursor.old) }
{
    cursor.word(word)?;
    let part = below.expr(cursor, level)?;
    parts.push(part)
}

/// Whether a chain's word comes behind a part, and the part may be followed.
fn goes_on(cursor: &Cursor<'_>, word: &[u8], ends_open: bool) -> bool
    ensures next { result ≡ goes_on ends_open word.now cursor.now }
{
    if ends_open {
        return false;
    }
    cursor.is_at(word)
}

/// Whether a sign comes behind a part, and the part may be followed.
fn sign_comes(cursor: &Cursor<'_>, ends_open: bool) -> bool
    ensures next { result ≡ sign_comes ends_open cursor.now }
{
    if ends_open {
        return false;
    }
    sign_next(cursor).is_some()
}

/// Whether the sign that is next adds, where one is.
fn sign_next(cursor: &Cursor<'_>) -> Option<bool>
    ensures next { result ≡ next_in sign_words cursor.now }
{
    let Some(word) = cursor.word_next() else {
        return None;
    };
    find_sign(word)
}

/// A chain of sums.
fn sum(place: Place, terms: Terms) -> Found
    requires terms { TermsCount terms }
    ensures made { Shows result (trees.chain place (terms_of terms.items.items)) }
{
    let height = above(terms.highest);
    Found {
        expr: Expr {
            place,
            kind: Kind::Add(terms.items),
        },
        height,
        ends_open: terms.ends_open,
        takes_group: false,
    }
}

/// A conjunction.
fn conjunction_of(place: Place, parts: Parts) -> Found
    requires parts { PartsCount parts }
    ensures made { Shows result (all_of place (expr_trees parts.items.items)) }
{
    let height = above(parts.highest);
    Found {
        expr: Expr {
            place,
            kind: Kind::And(parts.items),
        },
        height,
        ends_open: parts.ends_open,
        takes_group: false,
    }
}

/// A disjunction.
fn disjunction_of(place: Place, parts: Parts) -> Found
    requires parts { PartsCount parts }
    ensures made { Shows result (any_of place (expr_trees parts.items.items)) }
{
    let height = above(parts.highest);
    Found {
        expr: Expr {
            place,
            kind: Kind::Or(parts.items),
        },
        height,
        ends_open: parts.ends_open,
        takes_group: false,
    }
}

/// The operator of comparisons that stands behind an expression, if one may and is next.
fn comparison_next(cursor: &Cursor<'_>, left: &Found) -> Option<Comparison>
    requires left { Measured left.now }
    ensures next { option_map comparison_of result ≡ operator_behind comparison_words (expr_tree left.now.expr) cursor.now }
{
    if left.ends_open {
        return None;
    }
    let Some(word) = cursor.word_next() else {
        return None;
    };
    find_comparison(word)
}

/// The operator of a chain that stands behind an expression, if one may and is next.
fn operator_behind(cursor: &Cursor<'_>, chain: Chain, left: &Found) -> Option<BinaryOp>
    requires left { Measured left.now }
    ensures next { result ≡ operator_behind (words_of chain) (expr_tree left.now.expr) cursor.now }
{
    if left.ends_open {
        return None;
    }
    let Some(word) = cursor.word_next() else {
        return None;
    };
    chain.operator(word)
}
