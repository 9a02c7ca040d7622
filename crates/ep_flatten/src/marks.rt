//! Which terms of a ground have to be true, and which need variables.

ghost use Rattle.std.specs.Prelude.{List, ◌≡◌, ◌+◌, ◌<◌, ◌++◌, ◌∷◌, length, map, false, true, slice_index_or, slice_set, option_map, option_to_list, IfOk};
ghost use Rattle.std.specs.List.{All};
ghost use Rattle.ep_flatten.specs.Building.{AreMarks};
ghost use Rattle.ep_flatten.specs.Forms.{HaveForms, TermForm, form_parts, own};
ghost use Rattle.ep_flatten.specs.FormViews.{plain_form, plain_forms};
ghost use Rattle.ep_flatten.specs.Marking.{AreMarksFrom, marked};
ghost use Rattle.ep_flatten.specs.Tops.{asserts_of, needs_by, needs_of};
ghost use Rattle.ep_ground.specs.Grounds.{IsWellFormed};
ghost use Rattle.ep_ground.specs.GroundViews.{plain_ground};
ghost use Rattle.ep_ground.specs.NodeViews.{plain_node};
ghost use Rattle.ep_ground.specs.Nodes.{parts_of};

use crate::forms::{Form, form_at};
use crate::kinds::is_test;
use ep_base::{Memory, Sense};
use ep_ground::{Ground, Node, Term};
use std::alloc::Global;

/// For each term whether it has to be true, and whether it needs a variable.
#[derive(Drop)]
pub struct Marks {
    /// Which terms have to be true.
    pub asserted: Vec<bool>,
    /// Which terms need variables.
    pub marked: Vec<bool>,
}

/// Marks the terms that have to be true for the clauses, and those that need variables for these
/// and for the objective. One pass from the last term to the first, since the parts of a node stand
/// before it.
pub fn marks_of(alloc: Global, g: &Ground, forms: &[Form]) -> Result<Marks, Memory>
    requires well_formed { IsWellFormed (plain_ground g.now) }
    requires forms { HaveForms (plain_ground g.now).nodes (length (plain_ground g.now).nodes) (plain_forms forms.now) }
    ensures { IfOk result (λ marks. AreMarks (plain_ground g.now) (plain_forms forms.now) marks.asserted.items marks.marked.items) }
{
    let mut marks = named_marks(alloc, g)?;
    let mut term = g.arena.len();
    while term > 0 {
        term -= 1;
        assert_node(&mut marks, g, forms, Term::new(term as u32));
        mark_node(&mut marks, g, forms, Term::new(term as u32));
    }
    Ok(marks)
}

/// Marks what a term needs where it has to be true.
fn assert_node(marks: &mut Marks, g: &Ground, forms: &[Form], term: Term)
    requires term { term < length (plain_ground g.now).nodes }
    requires forms { HaveForms (plain_ground g.now).nodes (length (plain_ground g.now).nodes) (plain_forms forms.now) }
    requires marks { AreMarksFrom (plain_ground g.now) (plain_forms forms.now) (term + 1) (term + 1) marks.old.asserted.items marks.old.marked.items }
    ensures { AreMarksFrom (plain_ground g.now) (plain_forms forms.now) term (term + 1) marks.new.asserted.items marks.new.marked.items }
{
    if is_marked(&marks.asserted, term) {
        mark_tops(marks, term, g.arena.node(term), form_at(forms, term));
    }
}

/// Marks the parts of a term's node, where the term is marked.
fn mark_node(marks: &mut Marks, g: &Ground, forms: &[Form], term: Term)
    requires term { term < length (plain_ground g.now).nodes }
    requires forms { HaveForms (plain_ground g.now).nodes (length (plain_ground g.now).nodes) (plain_forms forms.now) }
    requires marks { AreMarksFrom (plain_ground g.now) (plain_forms forms.now) term (term + 1) marks.old.asserted.items marks.old.marked.items }
    ensures { AreMarksFrom (plain_ground g.now) (plain_forms forms.now) term term marks.new.asserted.items marks.new.marked.items }
{
    if is_marked(&marks.marked, term) {
        mark_form(&mut marks.marked, g.arena.node(term), form_at(forms, term));
    }
}

/// Whether a term is marked.
pub fn is_marked(marks: &[bool], term: Term) -> bool
    ensures { result ≡ slice_index_or marks.now term false }
{
    let place = term.number() as usize;
    if place < marks.len() {
        marks[place]
    } else {
        false
    }
}

/// Marks the terms that the ground names: its clauses have to be true, and the objective's term
/// needs a variable.
fn named_marks(alloc: Global, g: &Ground) -> Result<Marks, Memory>
    requires { IsWellFormed (plain_ground g.now) }
    ensures { IfOk result (λ marks. (forms : List TermForm) →
        AreMarksFrom (plain_ground g.now) forms (length (plain_ground g.now).nodes) (length (plain_ground g.now).nodes) marks.asserted.items marks.marked.items) }
{
    let mut asserted = vec![in alloc; false; g.arena.len() as usize]?;
    let mut marked = vec![in alloc; false; g.arena.len() as usize]?;
    mark_all(&mut asserted, &g.clauses);
    mark_goal(&mut marked, &g.objective);
    Ok(Marks { asserted, marked })
}

/// Marks what a term with this node needs where it has to be true: for a conjunction its parts have
/// to be true, for another truth value its parts need variables, and for a number it does.
#[tactic(auto, unfolding(crate::specs::Marking::marked, crate::specs::Tops::asserts_of, crate::specs::Tops::needs_of, crate::specs::Tops::is_all))]
fn mark_tops(marks: &mut Marks, term: Term, node: &Node, form: &Form)
    ensures asserted { marks.new.asserted.items ≡ marked marks.old.asserted.items (asserts_of (plain_node node.now)) }
    ensures marked { marks.new.marked.items ≡ marked marks.old.marked.items (needs_of term (plain_node node.now) (plain_form form.now)) }
{
    if let Node::And(parts) = node {
        mark_all(&mut marks.asserted, parts);
        return;
    }
    mark_needs(&mut marks.marked, term, node, form);
}

/// Marks the terms that need variables where a term with this node, which is no conjunction, and
/// this form has to be true.
#[tactic(auto, unfolding(crate::specs::Marking::marked, crate::specs::Tops::needs_by))]
fn mark_needs(marks: &mut Vec<bool>, term: Term, node: &Node, form: &Form)
    ensures { marks.new.items ≡ marked marks.old.items (needs_by term (plain_node node.now) (plain_form form.now)) }
{
    match form {
        Form::Own => mark_own(marks, term, node),
        Form::Sum(_, _) => mark(marks, term),
        Form::Compare(_, parts, _) => mark_weighed(marks, parts),
    }
}

/// The same of a term that constraints speak of by its node.
#[tactic(auto, unfolding(crate::specs::Marking::marked, crate::specs::Tops::needs_by))]
fn mark_own(marks: &mut Vec<bool>, term: Term, node: &Node)
    ensures { marks.new.items ≡ marked marks.old.items (needs_by term (plain_node node.now) own) }
{
    if is_test(node) {
        mark_parts(marks, node);
        return;
    }
    mark(marks, term);
}

/// Marks the parts of a form.
#[tactic(auto, unfolding(crate::specs::Forms::form_parts))]
fn mark_form(marks: &mut Vec<bool>, node: &Node, form: &Form)
    ensures { marks.new.items ≡ marked marks.old.items (form_parts (plain_node node.now) (plain_form form.now)) }
{
    match form {
        Form::Own => mark_parts(marks, node),
        Form::Sum(_, parts) => mark_weighed(marks, parts),
        Form::Compare(_, parts, _) => mark_weighed(marks, parts),
    }
}

/// Marks the objective's term, where there is one.
#[tactic(auto, unfolding(crate::specs::Marking::marked))]
fn mark_goal(marks: &mut Vec<bool>, objective: &Option<(Sense, Term)>)
    ensures { marks.new.items
        ≡ marked marks.old.items (option_to_list (option_map (λ goal. goal.1) objective.now)) }
{
    if let Some((_, goal)) = objective {
        mark(marks, *goal);
    }
}

/// Marks the parts of a node.
#[tactic(auto, unfolding(crate::specs::Marking::marked, ep_ground::specs::Nodes::parts_of))]
fn mark_parts(marks: &mut Vec<bool>, node: &Node)
    ensures { marks.new.items ≡ marked marks.old.items (parts_of (plain_node node.now)) }
{
    match node {
        Node::Const(_) | Node::Undefined | Node::Cell(_) => {}
        Node::Add(_, parts) => mark_weighed(marks, parts),
        Node::Mul(one, other)
        | Node::Div(one, other)
        | Node::Mod(one, other)
        | Node::SafeDiv(one, other)
        | Node::SafeMod(one, other)
        | Node::Compare(_, one, other)
        | Node::Iff(one, other) => mark_two(marks, *one, *other),
        Node::Pow(part, _) | Node::Abs(part) | Node::Member(part, _) | Node::Not(part) => {
            mark(marks, *part);
        }
        Node::Min(parts)
        | Node::Max(parts)
        | Node::And(parts)
        | Node::Or(parts)
        | Node::AllDiff(parts)
        | Node::AtLeast(parts, _, _)
        | Node::AtMost(parts, _, _)
        | Node::Table(parts, _) => mark_all(marks, parts),
        Node::Whole(part, others) => mark_more(marks, *part, others),
        Node::Pick(parts, _, others)
        | Node::SafePick(parts, _, others)
        | Node::Lex(_, parts, others)
        | Node::Gcc(parts, _, others) => mark_both(marks, parts, others),
    }
}

/// Marks a term.
#[tactic(auto, unfolding(crate::specs::Marking::marked))]
fn mark(marks: &mut Vec<bool>, term: Term)
    ensures { marks.new.items ≡ slice_set marks.old.items term true }
{
    let place = term.number() as usize;
    if place < marks.len() {
        marks[place] = true;
    }
}

/// Marks two terms.
fn mark_two(marks: &mut Vec<bool>, one: Term, other: Term)
    ensures { marks.new.items ≡ slice_set (slice_set marks.old.items one true) other true }
{
    mark(marks, one);
    mark(marks, other);
}

/// Marks a term and others.
#[tactic(auto, unfolding(crate::specs::Marking::marked))]
fn mark_more(marks: &mut Vec<bool>, one: Term, others: &[Term])
    ensures { marks.new.items ≡ marked marks.old.items (one ∷ others.now) }
{
    mark(marks, one);
    mark_all(marks, others);
}

/// Marks the terms of two lists.
fn mark_both(marks: &mut Vec<bool>, terms: &[Term], others: &[Term])
    ensures { marks.new.items ≡ marked marks.old.items (terms.now ++ others.now) }
{
    mark_all(marks, terms);
    mark_all(marks, others);
}

/// Marks terms.
fn mark_all(marks: &mut Vec<bool>, terms: &[Term])
    ensures { marks.new.items ≡ marked marks.old.items terms.now }
{
    for term in terms {
        mark(marks, *term);
    }
}

/// Marks the terms of a sum's parts.
fn mark_weighed(marks: &mut Vec<bool>, parts: &[(i64, Term)])
    ensures { marks.new.items ≡ marked marks.old.items (map (λ p. p.1) parts.now) }
{
    for part in parts {
        mark(marks, part.1);
    }
}
