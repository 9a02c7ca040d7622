//! Puts expressions and domains out, word by word.

ghost use Rattle.std.specs.Prelude.{◌≡◌, ◌++◌, ◌∷◌, [], codes, map, OnOk, false};
ghost use Rattle.ep_tree.specs.Views.{expr_tree, domain_tree, expr_trees, terms_of, indices_of, generators_of, domains_of, ranges_of, end_of};
ghost use Rattle.ep_print.specs.Putting.{words_spaced, continued, chain_from, held_range_words, index_tree};
ghost use Rattle.ep_print.specs.Words.{expr_words, domain_words, all_words, index_words, range_words, end_words, all_domain_words, generator_words, index_domain_words};

use crate::operators::{
    binary_word, compare_word, fold_word, is_called, lex_word, quantifier_word, set_word,
    sign_word, truth_word,
};
use crate::spaced::{push_between, push_names, push_number, push_word, push_words};
use ep_tree::{Domain, DomainKind, Expr, Generator, Kind, Range};
use std::alloc::AllocError;

/// What stands between two indices of a read: all of them share one pair of brackets.
const BETWEEN_INDICES: &str = ",";

/// An expression.
#[cycle(putting)]
#[tactic(auto, unfolding(crate::specs::Words::expr_words, crate::specs::Words::binary_words, crate::specs::Joining::with_between, ep_tree::specs::Views::kind_tree))]
pub(crate) fn push_expr(text: &mut Vec<u8>, e: &Expr) -> Result<(), AllocError>
    ensures { OnOk result (text.new.items ≡ text.old.items ++ words_spaced (expr_words (expr_tree e.now))) }
{
    match &e.kind {
        Kind::Number(n) => push_number(text, *n),
        Kind::Truth(truth) => push_word(text, truth_word(*truth)),
        Kind::Named(name) => push_word(text, name.text()),
        Kind::Group(e) => push_around(text, &["("], e, &[")"]),
        Kind::Not(e) => push_around(text, &["!"], e, &[]),
        Kind::Neg(e) => push_around(text, &["-"], e, &[]),
        Kind::Abs(e) => push_around(text, &["|"], e, &["|"]),
        Kind::ToInt(e) => push_around(text, &["toInt", "("], e, &[")"]),
        Kind::Factorial(e) => push_around(text, &["factorial", "("], e, &[")"]),
        Kind::Flatten(m) => push_around(text, &["flatten", "("], m, &[")"]),
        Kind::Fold(op, m) => push_around(text, &[fold_word(*op), "("], m, &[")"]),
        Kind::AllDiff(m) => push_around(text, &["allDiff", "("], m, &[")"]),
        Kind::Add(terms) => push_chain(text, terms),
        Kind::And(parts) => push_parts(text, "/\\", false, parts),
        Kind::Or(parts) => push_parts(text, "\\/", false, parts),
        Kind::Quant(op, names, d, e) => {
            push_word(text, quantifier_word(*op))?;
            push_names(text, names)?;
            push_domain_around(text, &[":"], d, &["."])?;
            push_expr(text, e)
        }
        Kind::Binary(_, _, _) | Kind::Compare(_, _, _) | Kind::Lex(_, _, _) => push_pair(text, e),
        Kind::InDomain(_, _) | Kind::InSet(_, _) | Kind::Table(_, _) => push_pair(text, e),
        Kind::Gcc(_, _, _) => push_counts(text, e),
        Kind::AtLeast(_, _, _) | Kind::AtMost(_, _, _) => push_counts(text, e),
        Kind::Literal(_, _) | Kind::Comprehension(_, _, _, _) => push_matrix(text, e),
        Kind::Read(_, _) => push_matrix(text, e),
    }
}

/// An expression of two parts. No other kind comes to it.
#[cycle(putting)]
#[tactic(auto, unfolding(crate::specs::Words::expr_words, crate::specs::Words::binary_words, crate::specs::Joining::with_between, ep_tree::specs::Views::kind_tree))]
fn push_pair(text: &mut Vec<u8>, e: &Expr) -> Result<(), AllocError>
    ensures { OnOk result (text.new.items ≡ text.old.items ++ words_spaced (expr_words (expr_tree e.now))) }
{
    match &e.kind {
        Kind::Binary(op, a, b) => {
            if is_called(*op) {
                push_around(text, &[binary_word(*op), "("], a, &[","])?;
                return push_around(text, &[], b, &[")"]);
            }
            push_around(text, &[], a, &[binary_word(*op)])?;
            push_expr(text, b)
        }
        Kind::Compare(op, a, b) => {
            push_around(text, &[], a, &[compare_word(*op)])?;
            push_expr(text, b)
        }
        Kind::Lex(op, a, b) => {
            push_around(text, &[], a, &[lex_word(*op)])?;
            push_expr(text, b)
        }
        Kind::InDomain(e, d) => {
            push_around(text, &[], e, &["in"])?;
            push_domain(text, d)
        }
        Kind::InSet(e, m) => {
            push_around(text, &[], e, &["in", "toSet", "("])?;
            push_around(text, &[], m, &[")"])
        }
        Kind::Table(row, rows) => {
            push_around(text, &["table", "("], row, &[","])?;
            push_around(text, &[], rows, &[")"])
        }
        _ => Err(AllocError),
    }
}

/// An expression that counts the parts of a list. No other kind comes to it.
#[cycle(putting)]
#[tactic(auto, unfolding(crate::specs::Words::expr_words, crate::specs::Words::binary_words, crate::specs::Joining::with_between, ep_tree::specs::Views::kind_tree))]
fn push_counts(text: &mut Vec<u8>, e: &Expr) -> Result<(), AllocError>
    ensures { OnOk result (text.new.items ≡ text.old.items ++ words_spaced (expr_words (expr_tree e.now))) }
{
    match &e.kind {
        Kind::Gcc(m, values, counts) => {
            push_around(text, &["gcc", "("], m, &[","])?;
            push_around(text, &[], values, &[","])?;
            push_around(text, &[], counts, &[")"])
        }
        Kind::AtLeast(m, counts, values) => {
            push_around(text, &["atleast", "("], m, &[","])?;
            push_around(text, &[], counts, &[","])?;
            push_around(text, &[], values, &[")"])
        }
        Kind::AtMost(m, counts, values) => {
            push_around(text, &["atmost", "("], m, &[","])?;
            push_around(text, &[], counts, &[","])?;
            push_around(text, &[], values, &[")"])
        }
        _ => Err(AllocError),
    }
}

/// An expression that makes a matrix or reads one. No other kind comes to it.
#[cycle(putting)]
#[tactic(auto, unfolding(crate::specs::Words::expr_words, crate::specs::Words::binary_words, crate::specs::Joining::with_between, ep_tree::specs::Views::kind_tree))]
fn push_matrix(text: &mut Vec<u8>, e: &Expr) -> Result<(), AllocError>
    ensures { OnOk result (text.new.items ≡ text.old.items ++ words_spaced (expr_words (expr_tree e.now))) }
{
    match &e.kind {
        Kind::Literal(parts, d) => {
            push_word(text, "[")?;
            push_parts(text, ",", false, parts)?;
            push_index_domain(text, d)
        }
        Kind::Comprehension(e, gens, conditions, d) => {
            push_around(text, &["["], e, &["|"])?;
            push_generators(text, gens)?;
            push_parts(text, ",", !gens.is_empty(), conditions)?;
            push_index_domain(text, d)
        }
        Kind::Read(m, indices) => {
            push_around(text, &[], m, &["["])?;
            push_indices(text, indices)
        }
        _ => Err(AllocError),
    }
}

/// An expression between words.
#[cycle(putting)]
fn push_around(
    text: &mut Vec<u8>,
    before: &[&str],
    e: &Expr,
    after: &[&str],
) -> Result<(), AllocError>
    ensures { OnOk result (text.new.items ≡ text.old.items
        ++ words_spaced (map (λ word. word.now) before.now
        ++ (expr_words (expr_tree e.now) ++ map (λ word. word.now) after.now))) }
{
    push_words(text, before)?;
    push_expr(text, e)?;
    push_words(text, after)?;
    Ok(())
}

/// A domain between words.
#[cycle(putting)]
fn push_domain_around(
    text: &mut Vec<u8>,
    before: &[&str],
    d: &Domain,
    after: &[&str],
) -> Result<(), AllocError>
    ensures { OnOk result (text.new.items ≡ text.old.items
        ++ words_spaced (map (λ word. word.now) before.now
        ++ (domain_words (domain_tree d.now) ++ map (λ word. word.now) after.now))) }
{
    push_words(text, before)?;
    push_domain(text, d)?;
    push_words(text, after)?;
    Ok(())
}

/// Expressions with a word between any two, and before the first where something stands there.
#[cycle(putting)]
fn push_parts(
    text: &mut Vec<u8>,
    between: &str,
    after: bool,
    parts: &[Expr],
) -> Result<(), AllocError>
    ensures { OnOk result (text.new.items ≡ text.old.items
        ++ words_spaced (continued (between.now ∷ []) after (all_words (expr_trees parts.now)))) }
{
    let mut started = after;
    for part in parts {
        push_between(text, started, between)?;
        push_expr(text, part)?;
        started = true;
    }
    Ok(())
}

/// The terms of a chain, the first without its sign.
#[cycle(putting)]
fn push_chain(text: &mut Vec<u8>, terms: &[(bool, Expr)]) -> Result<(), AllocError>
    ensures { OnOk result (text.new.items
        ≡ text.old.items ++ words_spaced (chain_from false (terms_of terms.now))) }
{
    let mut started = false;
    for (plus, e) in terms {
        push_between(text, started, sign_word(*plus))?;
        push_expr(text, e)?;
        started = true;
    }
    Ok(())
}

/// The indices of a read, with the bracket behind them.
#[cycle(putting)]
fn push_indices(text: &mut Vec<u8>, indices: &[Option<Expr>]) -> Result<(), AllocError>
    ensures { OnOk result (text.new.items ≡ text.old.items
        ++ words_spaced (continued (codes "," ∷ []) false (index_words (indices_of indices.now)) ++ codes "]" ∷ [])) }
{
    let mut started = false;
    for index in indices {
        push_between(text, started, BETWEEN_INDICES)?;
        match index {
            Some(e) => push_expr(text, e)?,
            None => push_word(text, "..")?,
        }
        started = true;
    }
    push_word(text, "]")?;
    Ok(())
}

/// The generators of a comprehension.
#[cycle(putting)]
fn push_generators(text: &mut Vec<u8>, gens: &[Generator]) -> Result<(), AllocError>
    ensures { OnOk result (text.new.items ≡ text.old.items
        ++ words_spaced (continued (codes "," ∷ []) false (generator_words (generators_of gens.now)))) }
{
    let mut started = false;
    for generator in gens {
        push_between(text, started, ",")?;
        push_names(text, &generator.names)?;
        push_word(text, ":")?;
        push_domain(text, &generator.domain)?;
        started = true;
    }
    Ok(())
}

/// The domain of a list's indices, where there is one, and the bracket behind it.
#[cycle(putting)]
#[tactic(auto, unfolding(crate::specs::Words::expr_words, crate::specs::Putting::index_tree))]
fn push_index_domain(text: &mut Vec<u8>, d: &Option<Box<Domain>>) -> Result<(), AllocError>
    ensures { OnOk result (text.new.items
        ≡ text.old.items ++ words_spaced (index_domain_words (index_tree d.now) ++ codes "]" ∷ [])) }
{
    match d {
        Some(d) => push_domain_around(text, &[";"], d, &["]"]),
        None => push_word(text, "]"),
    }
}

/// A domain.
#[cycle(putting)]
#[tactic(auto, unfolding(crate::specs::Words::domain_words, ep_tree::specs::Views::domain_kind_tree))]
pub(crate) fn push_domain(text: &mut Vec<u8>, d: &Domain) -> Result<(), AllocError>
    ensures { OnOk result (text.new.items
        ≡ text.old.items ++ words_spaced (domain_words (domain_tree d.now))) }
{
    match &d.kind {
        DomainKind::Bool => push_word(text, "bool"),
        DomainKind::Int => push_word(text, "int"),
        DomainKind::Ranges(ranges) => push_ranges(text, ranges),
        DomainKind::Named(name) => push_word(text, name.text()),
        DomainKind::Group(d) => push_domain_around(text, &["("], d, &[")"]),
        DomainKind::Set(op, c, d) => {
            push_domain_around(text, &[], c, &[set_word(*op)])?;
            push_domain(text, d)
        }
        DomainKind::Matrix(indices, d) => {
            push_words(text, &["matrix", "indexed", "by", "["])?;
            push_domains(text, indices)?;
            push_domain_around(text, &["]", "of"], d, &[])
        }
    }
}

/// Domains with commas between them.
#[cycle(putting)]
fn push_domains(text: &mut Vec<u8>, domains: &[Domain]) -> Result<(), AllocError>
    ensures { OnOk result (text.new.items ≡ text.old.items
        ++ words_spaced (continued (codes "," ∷ []) false (all_domain_words (domains_of domains.now)))) }
{
    let mut started = false;
    for domain in domains {
        push_between(text, started, ",")?;
        push_domain(text, domain)?;
        started = true;
    }
    Ok(())
}

/// Ranges in the brackets of an `int` domain.
#[cycle(putting)]
fn push_ranges(text: &mut Vec<u8>, ranges: &[Range]) -> Result<(), AllocError>
    ensures { OnOk result (text.new.items ≡ text.old.items
        ++ words_spaced (codes "int" ∷ codes "("
        ∷ (continued (codes "," ∷ []) false (range_words (ranges_of ranges.now)) ++ codes ")" ∷ []))) }
{
    push_words(text, &["int", "("])?;
    let mut started = false;
    for range in ranges {
        push_between(text, started, ",")?;
        push_range(text, range)?;
        started = true;
    }
    push_word(text, ")")?;
    Ok(())
}

/// A range of an `int` domain.
#[cycle(putting)]
#[tactic(auto, unfolding(crate::specs::Putting::held_range_words))]
fn push_range(text: &mut Vec<u8>, range: &Range) -> Result<(), AllocError>
    ensures { OnOk result (text.new.items ≡ text.old.items ++ words_spaced (held_range_words range.now)) }
{
    match range {
        Range::One(e) => push_expr(text, e),
        Range::Span(least, greatest) => {
            push_end(text, least)?;
            push_word(text, "..")?;
            push_end(text, greatest)
        }
    }
}

/// An end of a range, where it is stated.
#[cycle(putting)]
#[tactic(auto, unfolding(crate::specs::Words::expr_words, ep_tree::specs::Views::end_of))]
fn push_end(text: &mut Vec<u8>, end: &Option<Expr>) -> Result<(), AllocError>
    ensures { OnOk result (text.new.items
        ≡ text.old.items ++ words_spaced (end_words (end_of end.now))) }
{
    match end {
        Some(e) => push_expr(text, e),
        None => push_words(text, &[]),
    }
}
