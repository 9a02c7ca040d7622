//! Statements: what they ask for, and what they declare.

ghost use Rattle.std.specs.Prelude.{◌≡◌, Some, is_some, map, option_map};
ghost use Rattle.ep_tree.specs.Faults.{Fault, lettings_of, redeclared, unknown_name};
ghost use Rattle.ep_tree.specs.Names.{nothing_known};
ghost use Rattle.ep_tree.specs.StatementSpelling.{is_letting};
ghost use Rattle.ep_tree.specs.Views.{domain_tree, expr_tree, group_of, statement_tree};
ghost use Rattle.ep_types_rules.specs.Concluding.{SaysOfCheck, unless_fault};
ghost use Rattle.ep_types_rules.specs.Named.{IsUnknown, fault_of};
ghost use Rattle.ep_types.specs.Declaring.{declares};
ghost use Rattle.ep_types.specs.Checking as checking;
ghost use Rattle.ep_types.specs.Checking.{check_declared};
ghost use Rattle.ep_types.specs.Meanings.{known_by, meaning_of};

use crate::expressions::{domain_type, type_of};
use crate::names::{Meaning, Names};
use ep_base::{Memory, Name, Place};
use ep_tree::{Declared, Domain, Expr, Statement, StatementKind, ValueType};
use ep_types_rules as rules;
use ep_types_rules::StaticError;
use indexmap::IndexMap;
use std::alloc::Global;

/// The error of a name that is declared before.
#[tactic(auto, unfolding(ep_types_rules::specs::Named::fault_of))]
fn declared_before(alloc: Global, place: Place, name: &Name) -> StaticError
    ensures { (fault : Fault) → fault_of result ≡ Some fault → redeclared place name.now ≡ fault }
{
    match Name::new(alloc, name.text()) {
        Ok(name) => StaticError::Redeclared(place, name),
        Err(Memory) => StaticError::Memory,
    }
}

/// The error of a name that isn't declared.
#[tactic(auto, unfolding(ep_types_rules::specs::Named::fault_of))]
fn not_declared(alloc: Global, place: Place, name: &Name) -> StaticError
    ensures { IsUnknown place name.now result }
{
    match Name::new(alloc, name.text()) {
        Ok(name) => StaticError::UnknownName(place, name),
        Err(Memory) => StaticError::Memory,
    }
}

/// What a declared name stands for.
fn meaning(declared: &IndexMap<&str, Meaning>, name: &Name) -> Option<Meaning>
    ensures { option_map meaning_of result ≡ known_by declared.now.entries name.now }
{
    declared.get(name.text()).copied()
}

/// Declares a name that isn't declared before.
#[tactic(auto, using(ep_types_rules::proofs::Said::memory_says))]
fn declare<'a>(
    alloc: Global,
    declared: &mut IndexMap<&'a str, Meaning>,
    name: &'a Name,
    place: Place,
    standing_for: Meaning,
) -> Result<(), StaticError>
    ensures { SaysOfCheck (λ _. known_by declared.new.entries) result
        (declares (meaning_of standing_for) (known_by declared.old.entries) name.now place) }
{
    match meaning(declared, name) {
        Some(_) => Err(declared_before(alloc, place, name)),
        None => {
            declared.insert(name.text(), standing_for)?;
            Ok(())
        }
    }
}

/// Declares names with this meaning.
fn declare_all<'a>(
    alloc: Global,
    declared: &mut IndexMap<&'a str, Meaning>,
    names: &'a [(Name, Place)],
    standing_for: Meaning,
) -> Result<(), StaticError>
    ensures { SaysOfCheck (λ _. known_by declared.new.entries) result
        (check_declared (meaning_of standing_for) (known_by declared.old.entries) names.now) }
{
    for name in names {
        declare(alloc, declared, &name.0, name.1, standing_for)?;
    }
    Ok(())
}

/// The type of a domain of a statement.
fn stated_domain<'a>(
    alloc: Global,
    declared: &'a IndexMap<&'a str, Meaning>,
    may_open: bool,
    domain: &'a Domain,
) -> Result<ValueType, StaticError>
    ensures { SaysOfCheck (λ t. t) result
        (checking.check_domain (known_by declared.now.entries) may_open (domain_tree domain.now)) }
{
    let mut names = Names::new(alloc, declared);
    domain_type(&mut names, may_open, domain)
}

/// The type of an expression of a statement.
fn stated_type<'a>(
    alloc: Global,
    declared: &'a IndexMap<&'a str, Meaning>,
    decisions: bool,
    e: &'a Expr,
) -> Result<ValueType, StaticError>
    ensures { SaysOfCheck (λ t. t) result
        (checking.check (known_by declared.now.entries) decisions (expr_tree e.now)) }
{
    let mut names = Names::new(alloc, declared);
    type_of(&mut names, decisions, e)
}

/// Checks a clause, which is Boolean.
fn check_clause<'a>(
    alloc: Global,
    declared: &'a IndexMap<&'a str, Meaning>,
    decisions: bool,
    e: &'a Expr,
) -> Result<ValueType, StaticError>
    ensures { SaysOfCheck (λ t. t) result
        (checking.check_clause (known_by declared.now.entries) decisions (expr_tree e.now)) }
{
    let ty = stated_type(alloc, declared, decisions, e)?;
    rules::gives(e.place, ty, rules::is_boolean(ty))
}

/// Checks an objective, which is integer.
fn check_goal<'a>(
    alloc: Global,
    declared: &'a IndexMap<&'a str, Meaning>,
    e: &'a Expr,
) -> Result<ValueType, StaticError>
    ensures { SaysOfCheck (λ t. t) result
        (checking.check_goal (known_by declared.now.entries) (expr_tree e.now)) }
{
    let ty = stated_type(alloc, declared, true, e)?;
    rules::gives(e.place, ty, rules::is_integer(ty))
}

/// Checks clauses.
fn check_clauses<'a>(
    alloc: Global,
    declared: &'a IndexMap<&'a str, Meaning>,
    decisions: bool,
    clauses: &'a [Expr],
) -> Result<(), StaticError>
    ensures { SaysOfCheck (λ _. tt) result
        (checking.check_clauses (known_by declared.now.entries) decisions (map expr_tree clauses.now)) }
{
    for clause in clauses {
        check_clause(alloc, declared, decisions, clause)?;
    }
    Ok(())
}

/// Declares groups, each at its end.
fn check_groups<'a>(
    alloc: Global,
    declared: &mut IndexMap<&'a str, Meaning>,
    decisions: bool,
    may_open: bool,
    groups: &'a [Declared],
) -> Result<(), StaticError>
    ensures { SaysOfCheck (λ _. known_by declared.new.entries) result (checking.check_groups decisions
        may_open (known_by declared.old.entries) (map group_of groups.now)) }
{
    for group in groups {
        let ty = stated_domain(alloc, declared, may_open, &group.domain)?;
        declare_all(alloc, declared, &group.names, Meaning::Value(ty, decisions))?;
    }
    Ok(())
}

/// The type of the domain that a letting states, if it states one.
fn stated<'a>(
    alloc: Global,
    declared: &'a IndexMap<&'a str, Meaning>,
    domain: &'a Option<Domain>,
) -> Result<Option<ValueType>, StaticError>
    ensures { SaysOfCheck (λ t. t) result (checking.check_stated (known_by declared.now.entries)
        (option_map domain_tree domain.now)) }
{
    match domain {
        None => Ok(None),
        Some(domain) => {
            let ty = stated_domain(alloc, declared, false, domain)?;
            Ok(Some(ty))
        }
    }
}

/// Checks that a name of `branching on` is declared.
fn check_known(
    alloc: Global,
    declared: &IndexMap<&str, Meaning>,
    name: &Name,
    place: Place,
) -> Result<(), StaticError>
    ensures { SaysOfCheck (λ _. tt) result (unless_fault (is_some (known_by declared.now.entries name.now))
        (unknown_name place name.now)) }
{
    match meaning(declared, name) {
        Some(_) => Ok(()),
        None => Err(not_declared(alloc, place, name)),
    }
}

/// Checks that the names of `branching on` are declared.
fn check_branching(
    alloc: Global,
    declared: &IndexMap<&str, Meaning>,
    names: &[(Name, Place)],
) -> Result<(), StaticError>
    ensures { SaysOfCheck (λ _. tt) result (checking.check_branching (known_by declared.now.entries) names.now) }
{
    for name in names {
        check_known(alloc, declared, &name.0, name.1)?;
    }
    Ok(())
}

/// Checks a statement, and declares what it declares.
#[tactic(auto, using(ep_types_rules::proofs::Said::passed_on, ep_types_rules::proofs::Said::memory_says, crate::proofs::StatementSteps::declared_alone), unfolding(crate::specs::Checking::check_statement, ep_tree::specs::Views::statement_kind_tree, crate::specs::Meanings::meaning_of))]
pub(crate) fn check_statement<'a>(
    alloc: Global,
    declared: &mut IndexMap<&'a str, Meaning>,
    statement: &'a Statement,
) -> Result<(), StaticError>
    ensures { SaysOfCheck (λ _. known_by declared.new.entries) result (checking.check_statement
        (known_by declared.old.entries) (statement_tree statement.now)) }
{
    match &statement.kind {
        StatementKind::Given(groups) => check_groups(alloc, declared, false, true, groups),
        StatementKind::Find(groups) => check_groups(alloc, declared, true, false, groups),
        StatementKind::Letting(name, place, domain, e) => {
            let of_domain = stated(alloc, declared, domain)?;
            let of_value = stated_type(alloc, declared, false, e)?;
            let ty = of_domain.unwrap_or(of_value);
            declare(alloc, declared, name, *place, Meaning::Value(ty, false))
        }
        StatementKind::LettingDomain(name, place, domain) => {
            let ty = stated_domain(alloc, declared, false, domain)?;
            declare(alloc, declared, name, *place, Meaning::Domain(ty))
        }
        StatementKind::Where(clauses) => check_clauses(alloc, declared, false, clauses),
        StatementKind::SuchThat(clauses) => check_clauses(alloc, declared, true, clauses),
        StatementKind::Objective(_, e) => {
            check_goal(alloc, declared, e)?;
            Ok(())
        }
        StatementKind::Branching(names) => check_branching(alloc, declared, names),
        StatementKind::Heuristic(_) => Ok(()),
    }
}

/// Checks the statements of a text.
pub(crate) fn check_statements<'a>(
    alloc: Global,
    statements: &'a [Statement],
) -> Result<(), StaticError>
    ensures { SaysOfCheck (λ _. tt) result
        (checking.check_text nothing_known (map statement_tree statements.now)) }
{
    let mut declared = IndexMap::new(alloc);
    for statement in statements {
        check_statement(alloc, &mut declared, statement)?;
    }
    Ok(())
}

/// Whether a statement is a letting.
#[tactic(auto, unfolding(ep_tree::specs::Views::statement_kind_tree, ep_tree::specs::StatementSpelling::is_letting))]
fn is_letting(statement: &Statement) -> bool
    ensures { result ≡ is_letting (statement_tree statement.now) }
{
    match &statement.kind {
        StatementKind::Letting(_, _, _, _) => true,
        StatementKind::LettingDomain(_, _, _) => true,
        StatementKind::Given(_) => false,
        StatementKind::Find(_) => false,
        StatementKind::Where(_) => false,
        StatementKind::SuchThat(_) => false,
        StatementKind::Objective(_, _) => false,
        StatementKind::Branching(_) => false,
        StatementKind::Heuristic(_) => false,
    }
}

/// Checks the lettings of a text.
pub(crate) fn check_lettings<'a>(
    alloc: Global,
    statements: &'a [Statement],
) -> Result<(), StaticError>
    ensures { SaysOfCheck (λ _. tt) result
        (checking.check_text nothing_known (lettings_of (map statement_tree statements.now))) }
{
    let mut declared = IndexMap::new(alloc);
    for statement in statements {
        if !is_letting(statement) {
            continue;
        }
        check_statement(alloc, &mut declared, statement)?;
    }
    Ok(())
}
