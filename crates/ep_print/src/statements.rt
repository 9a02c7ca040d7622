//! Puts statements out, each on a line of its own.

ghost use Rattle.std.specs.Prelude.{◌≡◌, ◌++◌, ◌∷◌, [], codes, map, OnOk, false};
ghost use Rattle.std.specs.List.{flat_map};
ghost use Rattle.std.specs.Option.{option_map};
ghost use Rattle.ep_tree.specs.Views.{domain_tree, expr_tree, group_of, statement_tree};
ghost use Rattle.ep_print.specs.Models.{statement_text};
ghost use Rattle.ep_print.specs.Putting.{words_spaced, continued};
ghost use Rattle.ep_print.specs.Words.{expr_words, group_words, stated_words, statement_words};

use crate::expressions::{push_domain, push_expr};
use crate::operators::sense_word;
use crate::spaced::{end_line, push_between, push_placed, push_word, push_words};
use ep_tree::{Declared, Domain, Expr, Statement, StatementKind};
use std::alloc::AllocError;

/// The lines of statements.
pub(crate) fn push_statements(
    text: &mut Vec<u8>,
    statements: &[Statement],
) -> Result<(), AllocError>
    ensures { OnOk result (text.new.items
        ≡ text.old.items ++ flat_map statement_text (map statement_tree statements.now)) }
{
    for statement in statements {
        push_statement(text, statement)?;
    }
    Ok(())
}

/// The line of a statement.
fn push_statement(text: &mut Vec<u8>, statement: &Statement) -> Result<(), AllocError>
    ensures { OnOk result (text.new.items
        ≡ text.old.items ++ statement_text (statement_tree statement.now)) }
{
    push_statement_words(text, statement)?;
    end_line(text)?;
    Ok(())
}

/// The words of a statement.
#[tactic(auto, unfolding(crate::specs::Words::statement_words, ep_tree::specs::Views::statement_kind_tree))]
fn push_statement_words(text: &mut Vec<u8>, statement: &Statement) -> Result<(), AllocError>
    ensures { OnOk result (text.new.items
        ≡ text.old.items ++ words_spaced (statement_words (statement_tree statement.now))) }
{
    match &statement.kind {
        StatementKind::Given(groups) => push_groups(text, "given", groups),
        StatementKind::Find(groups) => push_groups(text, "find", groups),
        StatementKind::Letting(name, _, d, e) => {
            push_words(text, &["letting", name.text()])?;
            push_stated(text, d)?;
            push_word(text, "be")?;
            push_expr(text, e)
        }
        StatementKind::LettingDomain(name, _, d) => {
            push_words(text, &["letting", name.text(), "be", "domain"])?;
            push_domain(text, d)
        }
        StatementKind::Where(clauses) => push_clauses(text, &["where"], clauses),
        StatementKind::SuchThat(clauses) => push_clauses(text, &["such", "that"], clauses),
        StatementKind::Objective(sense, e) => {
            push_word(text, sense_word(*sense))?;
            push_expr(text, e)
        }
        StatementKind::Branching(names) => {
            push_words(text, &["branching", "on", "["])?;
            push_placed(text, names)?;
            push_word(text, "]")
        }
        StatementKind::Heuristic(name) => push_words(text, &["heuristic", name.text()]),
    }
}

/// Names that are declared together, with their domains.
fn push_groups(text: &mut Vec<u8>, word: &str, groups: &[Declared]) -> Result<(), AllocError>
    ensures { OnOk result (text.new.items ≡ text.old.items
        ++ words_spaced (word.now ∷ continued (codes "," ∷ []) false (map group_words (map group_of groups.now)))) }
{
    push_word(text, word)?;
    let mut started = false;
    for group in groups {
        push_between(text, started, ",")?;
        push_placed(text, &group.names)?;
        push_word(text, ":")?;
        push_domain(text, &group.domain)?;
        started = true;
    }
    Ok(())
}

/// The domain that a letting states, if there is one.
fn push_stated(text: &mut Vec<u8>, d: &Option<Domain>) -> Result<(), AllocError>
    ensures { OnOk result (text.new.items
        ≡ text.old.items ++ words_spaced (stated_words (option_map domain_tree d.now))) }
{
    if let Some(d) = d {
        push_word(text, ":")?;
        push_domain(text, d)?;
    }
    Ok(())
}

/// Clauses behind their words.
fn push_clauses(text: &mut Vec<u8>, words: &[&str], clauses: &[Expr]) -> Result<(), AllocError>
    ensures { OnOk result (text.new.items ≡ text.old.items
        ++ words_spaced (map (λ word. word.now) words.now
        ++ continued (codes "," ∷ []) false (map expr_words (map expr_tree clauses.now)))) }
{
    push_words(text, words)?;
    let mut started = false;
    for clause in clauses {
        push_between(text, started, ",")?;
        push_expr(text, clause)?;
        started = true;
    }
    Ok(())
}
