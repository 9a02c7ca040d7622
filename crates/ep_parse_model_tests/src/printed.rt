//! Trees as texts with brackets.
//!
//! A node is its word and its parts in round brackets, a pair of brackets of the text is a pair of braces, and
//! each part of a sum has its sign in front.

use ep_base::{CompareOp, LexOp, Name, Place, Sense};
use ep_tree::{
    BinaryOp, Declared, Domain, DomainKind, Expr, FoldOp, Generator, Kind, QuantOp, Range, SetOp,
    Statement, StatementKind,
};
use std::alloc::Global;

/// What is written so far. Where memory is refused it is not whole.
#[derive(Drop)]
pub(crate) struct Printed {
    alloc: Global,
    text: Vec<u8>,
    is_whole: bool,
    shows_places: bool,
}

impl Printed {
    /// Nothing. What is written then has its column in front, or hasn't.
    pub(crate) fn new(alloc: Global, shows_places: bool) -> Printed {
        Printed {
            alloc,
            text: Vec::new(alloc),
            is_whole: true,
            shows_places,
        }
    }

    /// Whether it is this text.
    pub(crate) fn is(&self, wanted: &Printed) -> bool {
        self.is_whole && wanted.is_whole && self.text.as_slice() == wanted.text.as_slice()
    }

    /// Writes a text.
    pub(crate) fn put(&mut self, text: &str) {
        if self.text.extend_from_slice(text.as_bytes()).is_err() {
            self.is_whole = false;
        }
    }

    /// Writes a number.
    fn put_number(&mut self, number: i64) {
        match format!(in self.alloc; "{number}") {
            Ok(text) => self.put(text.as_str()),
            Err(_) => self.is_whole = false,
        }
    }

    /// Writes the column of a place where columns are shown.
    fn put_place(&mut self, place: Place) {
        if !self.shows_places {
            return;
        }
        let column = place.column;
        match format!(in self.alloc; "{column}'") {
            Ok(text) => self.put(text.as_str()),
            Err(_) => self.is_whole = false,
        }
    }

    /// Writes names, each behind a blank.
    fn put_names(&mut self, names: &[Name]) {
        for name in names {
            self.put(" ");
            self.put(name.text());
        }
    }

    /// Writes names that have places.
    fn put_placed(&mut self, names: &[(Name, Place)]) {
        for name in names {
            self.put(" ");
            self.put_place(name.1);
            self.put(name.0.text());
        }
    }
}

/// The word of an operator that takes two parts.
fn of_binary(op: BinaryOp) -> &'static str {
    match op {
        BinaryOp::Mul => "*",
        BinaryOp::Div => "/",
        BinaryOp::Mod => "%",
        BinaryOp::Pow => "**",
        BinaryOp::Min => "min",
        BinaryOp::Max => "max",
        BinaryOp::Implies => "->",
        BinaryOp::Iff => "<->",
    }
}

/// The word of a comparison.
fn of_compare(op: CompareOp) -> &'static str {
    match op {
        CompareOp::Equal => "=",
        CompareOp::NotEqual => "!=",
        CompareOp::Less => "<",
        CompareOp::AtMost => "<=",
        CompareOp::Greater => ">",
        CompareOp::AtLeast => ">=",
    }
}

/// The word of a lexicographic comparison.
fn of_lex(op: LexOp) -> &'static str {
    match op {
        LexOp::Less => "<lex",
        LexOp::AtMost => "<=lex",
        LexOp::Greater => ">lex",
        LexOp::AtLeast => ">=lex",
    }
}

/// The word of a quantifier.
fn of_quantifier(op: QuantOp) -> &'static str {
    match op {
        QuantOp::ForAll => "forAll",
        QuantOp::Exists => "exists",
        QuantOp::Sum => "sum",
    }
}

/// The word of a function that folds a matrix.
fn of_fold(op: FoldOp) -> &'static str {
    match op {
        FoldOp::Sum => "sum",
        FoldOp::Product => "product",
        FoldOp::And => "and",
        FoldOp::Or => "or",
        FoldOp::Min => "min",
        FoldOp::Max => "max",
    }
}

/// The word of an operation on domains.
fn of_set(op: SetOp) -> &'static str {
    match op {
        SetOp::Union => "union",
        SetOp::Intersect => "intersect",
        SetOp::Minus => "-",
    }
}

/// The word of a node that has one.
fn word_of(kind: &Kind) -> &'static str {
    match kind {
        Kind::Not(_) => "!",
        Kind::Neg(_) => "neg",
        Kind::Abs(_) => "abs",
        Kind::ToInt(_) => "toInt",
        Kind::Factorial(_) => "factorial",
        Kind::Flatten(_) => "flatten",
        Kind::Fold(op, _) => of_fold(*op),
        Kind::AllDiff(_) => "allDiff",
        Kind::Binary(op, _, _) => of_binary(*op),
        Kind::Compare(op, _, _) => of_compare(*op),
        Kind::Lex(op, _, _) => of_lex(*op),
        Kind::InSet(_, _) => "inSet",
        Kind::InDomain(_, _) => "in",
        Kind::Table(_, _) => "table",
        Kind::Gcc(_, _, _) => "gcc",
        Kind::AtLeast(_, _, _) => "atleast",
        Kind::AtMost(_, _, _) => "atmost",
        Kind::Add(_) => "+",
        Kind::And(_) => "/\\",
        Kind::Or(_) => "\\/",
        Kind::Read(_, _) => "read",
        Kind::Quant(op, _, _, _) => of_quantifier(*op),
        _ => "",
    }
}

/// Writes an expression.
#[cycle(printing)]
fn put_expr(out: &mut Printed, e: &Expr) {
    out.put_place(e.place);
    match &e.kind {
        Kind::Number(number) => out.put_number(*number),
        Kind::Truth(true) => out.put("true"),
        Kind::Truth(false) => out.put("false"),
        Kind::Named(name) => out.put(name.text()),
        Kind::Group(e) => {
            out.put("{");
            put_expr(out, e);
            out.put("}");
        }
        Kind::Literal(_, _) | Kind::Comprehension(_, _, _, _) => {
            out.put("[");
            put_list(out, e);
            out.put("]");
        }
        _ => {
            out.put("(");
            out.put(word_of(&e.kind));
            put_inside(out, e);
            out.put(")");
        }
    }
}

/// Writes an expression behind a blank.
#[cycle(printing)]
fn put_part(out: &mut Printed, e: &Expr) {
    out.put(" ");
    put_expr(out, e);
}

/// Writes the parts of a node.
#[cycle(printing)]
fn put_inside(out: &mut Printed, e: &Expr) {
    match &e.kind {
        Kind::Not(a)
        | Kind::Neg(a)
        | Kind::Abs(a)
        | Kind::ToInt(a)
        | Kind::Factorial(a)
        | Kind::Flatten(a)
        | Kind::Fold(_, a)
        | Kind::AllDiff(a) => put_part(out, a),
        Kind::Binary(_, a, b)
        | Kind::Compare(_, a, b)
        | Kind::Lex(_, a, b)
        | Kind::InSet(a, b)
        | Kind::Table(a, b) => {
            put_part(out, a);
            put_part(out, b);
        }
        Kind::Gcc(a, b, c) | Kind::AtLeast(a, b, c) | Kind::AtMost(a, b, c) => {
            put_part(out, a);
            put_part(out, b);
            put_part(out, c);
        }
        _ => put_many(out, e),
    }
}

/// Writes the parts of a node that may have any number of them, or has a domain.
#[cycle(printing)]
fn put_many(out: &mut Printed, e: &Expr) {
    match &e.kind {
        Kind::Add(terms) => put_terms(out, terms),
        Kind::And(parts) | Kind::Or(parts) => put_parts(out, parts),
        Kind::Read(base, indices) => {
            put_part(out, base);
            put_indices(out, indices);
        }
        Kind::InDomain(e, domain) => {
            put_part(out, e);
            put_domain(out, domain);
        }
        Kind::Quant(_, names, domain, body) => {
            out.put_names(names);
            out.put(" :");
            put_domain(out, domain);
            out.put(" .");
            put_part(out, body);
        }
        _ => (),
    }
}

/// Writes what stands in square brackets.
#[cycle(printing)]
fn put_list(out: &mut Printed, e: &Expr) {
    match &e.kind {
        Kind::Literal(parts, index) => {
            put_parts(out, parts);
            if let Some(domain) = index {
                out.put(" ;");
                put_domain(out, domain);
            }
        }
        Kind::Comprehension(e, generators, conditions, index) => {
            put_part(out, e);
            out.put(" |");
            put_generators(out, generators);
            out.put(" ?");
            put_parts(out, conditions);
            if let Some(domain) = index {
                out.put(" ;");
                put_domain(out, domain);
            }
        }
        _ => (),
    }
}

/// Writes some expressions.
#[cycle(printing)]
fn put_parts(out: &mut Printed, parts: &[Expr]) {
    for part in parts {
        put_part(out, part);
    }
}

/// Writes the parts of a sum with their signs.
#[cycle(printing)]
fn put_terms(out: &mut Printed, terms: &[(bool, Expr)]) {
    for term in terms {
        out.put(if term.0 { " +" } else { " -" });
        put_expr(out, &term.1);
    }
}

/// Writes the indices of a read.
#[cycle(printing)]
fn put_indices(out: &mut Printed, indices: &[Option<Expr>]) {
    for index in indices {
        match index {
            Some(e) => put_part(out, e),
            None => out.put(" .."),
        }
    }
}

/// Writes generators.
#[cycle(printing)]
fn put_generators(out: &mut Printed, generators: &[Generator]) {
    for generator in generators {
        out.put_names(&generator.names);
        out.put(" :");
        put_domain(out, &generator.domain);
    }
}

/// Writes a domain behind a blank.
#[cycle(printing)]
fn put_domain(out: &mut Printed, domain: &Domain) {
    out.put(" ");
    out.put_place(domain.place);
    match &domain.kind {
        DomainKind::Bool => out.put("bool"),
        DomainKind::Int => out.put("int"),
        DomainKind::Named(name) => out.put(name.text()),
        DomainKind::Ranges(ranges) => {
            out.put("int(");
            put_ranges(out, ranges);
            out.put(")");
        }
        DomainKind::Group(domain) => {
            out.put("{");
            put_domain(out, domain);
            out.put("}");
        }
        DomainKind::Set(op, a, b) => {
            out.put("(");
            out.put(of_set(*op));
            put_domain(out, a);
            put_domain(out, b);
            out.put(")");
        }
        DomainKind::Matrix(indices, domain) => {
            out.put("(matrix");
            put_domains(out, indices);
            out.put(" of");
            put_domain(out, domain);
            out.put(")");
        }
    }
}

/// Writes some domains.
#[cycle(printing)]
fn put_domains(out: &mut Printed, domains: &[Domain]) {
    for domain in domains {
        put_domain(out, domain);
    }
}

/// Writes an end of a range, where there is one.
#[cycle(printing)]
fn put_end(out: &mut Printed, end: &Option<Expr>) {
    if let Some(e) = end {
        put_expr(out, e);
    }
}

/// Writes the parts of an `int` domain.
#[cycle(printing)]
fn put_ranges(out: &mut Printed, ranges: &[Range]) {
    for range in ranges {
        match range {
            Range::One(e) => put_part(out, e),
            Range::Span(low, high) => {
                out.put(" ");
                put_end(out, low);
                out.put("..");
                put_end(out, high);
            }
        }
    }
}

/// Writes groups of names with their domains.
fn put_groups(out: &mut Printed, groups: &[Declared]) {
    for group in groups {
        out.put(" [");
        out.put_placed(&group.names);
        out.put(" :");
        put_domain(out, &group.domain);
        out.put("]");
    }
}

/// Writes what stands behind a statement's word.
fn put_statement(out: &mut Printed, kind: &StatementKind) {
    match kind {
        StatementKind::Given(groups) | StatementKind::Find(groups) => put_groups(out, groups),
        StatementKind::Letting(name, place, stated, e) => {
            out.put(" ");
            out.put_place(*place);
            out.put(name.text());
            if let Some(domain) = stated {
                out.put(" :");
                put_domain(out, domain);
            }
            out.put(" =");
            put_part(out, e);
        }
        StatementKind::LettingDomain(name, place, domain) => {
            out.put(" ");
            out.put_place(*place);
            out.put(name.text());
            out.put(" domain");
            put_domain(out, domain);
        }
        StatementKind::Where(parts) | StatementKind::SuchThat(parts) => put_parts(out, parts),
        StatementKind::Objective(_, e) => put_part(out, e),
        StatementKind::Branching(names) => out.put_placed(names),
        StatementKind::Heuristic(name) => {
            out.put(" ");
            out.put(name.text());
        }
    }
}

/// The word of a statement.
fn of_statement(kind: &StatementKind) -> &'static str {
    match kind {
        StatementKind::Given(_) => "given",
        StatementKind::Find(_) => "find",
        StatementKind::Letting(_, _, _, _) | StatementKind::LettingDomain(_, _, _) => "letting",
        StatementKind::Where(_) => "where",
        StatementKind::SuchThat(_) => "such",
        StatementKind::Objective(Sense::Minimising, _) => "minimising",
        StatementKind::Objective(Sense::Maximising, _) => "maximising",
        StatementKind::Branching(_) => "branching",
        StatementKind::Heuristic(_) => "heuristic",
    }
}

/// Writes statements, each in brackets.
pub(crate) fn put_statements(out: &mut Printed, statements: &[Statement]) {
    for statement in statements {
        out.put(" ");
        out.put_place(statement.place);
        out.put("(");
        out.put(of_statement(&statement.kind));
        put_statement(out, &statement.kind);
        out.put(")");
    }
}
