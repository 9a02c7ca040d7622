//! Learning: from a falsified clause back to the literals that made it false.

ghost use Rattle.std.specs.Prelude.{◌≡◌, ◌⊎◌, ℕ, ◌+◌, ◌<◌, ◌≤◌, [], ◌∷◌, ◌++◌, length, take, All, Bool, true, false, Some, None, IfOk, OnOk, IsSome, IfSome, slice_index_or, slice_set, vec_len, IsOk};
ghost use Rattle.std.specs.Option.{option_map, option_map_or, ForSome};
ghost use Rattle.cnf_core.specs.Literal.{Literal, negation, IsOrdered};
ghost use Rattle.sat_state.specs.Trail.{literals, trail_value, entry_of, NamesFalsified};
ghost use Rattle.sat_search.specs.Analysis.{IsKnown, is_marked, MarksClause, IsTraced, IsDecisionAt, IsUnmarkedBetween, IsCut, KeepsMore, KeepsMarked, HasLast, IsExplained, count_marked, CountsMarks};

use crate::levels::level_in;
use crate::marks::Marks;
use crate::met::Met;
use crate::minimal::{Seen, reason_of, removal};
use crate::order::Order;
use crate::places::Places;
use cnf_core::Lit;
use ep_base::Memory;
use sat_state::{ShortLit, State};
use std::alloc::Global;

/// What explaining a conflict writes on, kept from one conflict to the next: the variables that were met, marked and in a list,
/// how many of them were not yet looked at of the last level, and whether the conflict is explained by decisions alone.
#[derive(Debug, Drop)]
pub struct Analysis {
    marks: Marks,
    met: Met,
    last: u64,
    by_decisions: bool,
    seen: Seen,
    places: Places,
}

impl Analysis {
    /// Nothing was met.
    pub fn new(alloc: Global) -> Analysis {
        Analysis {
            marks: Marks::new(alloc),
            met: Met::new(alloc),
            last: 0,
            by_decisions: false,
            seen: Seen::new(alloc),
            places: Places::new(alloc),
        }
    }

    /// Has conflicts explained by decisions alone, or else by fewer literals of the last level, of which one is left.
    pub fn explain_by_decisions(&mut self, by_decisions: bool) {
        self.by_decisions = by_decisions;
    }

    // Whether the last level may be cut at the literal that is looked at: it is the only one of the level that is left.
    fn may_cut(&self) -> bool {
        self.last == 1 && !self.by_decisions
    }

    /// Keeps in mind that so many literals of the trail are left.
    pub fn forget(&mut self, left: usize) {
        self.places.forget(left);
    }
}

// Begins with a conflict over the variables up to this number.
fn begin(state: &State, analysis: &mut Analysis, vars: u64) -> Result<(), Memory>
    ensures room { OnOk result (vars < length analysis.new.marks) }
    ensures unmarked { OnOk result ((v : ℕ) → is_marked analysis.new.marks v ≡ false) }
{
    analysis.marks.grow(vars)?;
    analysis.marks.clear();
    analysis.met.clear();
    analysis.last = 0;
    analysis.places.begin(vars, state.trail())?;
    analysis.seen.begin(vars)
}

// Marks a variable, and counts it if it wasn't marked, also as one of the last level where it is so.
fn meet(state: &State, analysis: &mut Analysis, level: u64, var: u64) -> Result<(), Memory>
    ensures marks { OnOk result (analysis.new.marks ≡ slice_set analysis.old.marks var true) }
    ensures counts { OnOk result (CountsMarks (literals state.now.trail) analysis.old.marks analysis.new.marks analysis.old.met analysis.new.met) }
{
    let _trail = state.trail();
    if analysis.marks.is_marked(var) {
        return Ok(());
    }
    let is_last = level_in(state, var) == level;
    analysis.last = analysis.last.saturating_add(u64::from(is_last));
    analysis.met.push(var)?;
    analysis.marks.mark(var);
    Ok(())
}

// Marks the variables of a clause, and counts those that weren't marked before.
fn mark(state: &State, analysis: &mut Analysis, lits: &[ShortLit]) -> Result<(), Memory>
    requires { All (λ l. l.var < length analysis.old.marks) lits.now }
    ensures room { OnOk result (length analysis.new.marks ≡ length analysis.old.marks) }
    ensures marks { OnOk result (MarksClause analysis.old.marks analysis.new.marks lits.now) }
    ensures counts { OnOk result (CountsMarks (literals state.now.trail) analysis.old.marks analysis.new.marks analysis.old.met analysis.new.met) }
{
    let level = state.level();
    for lit in lits {
        meet(state, analysis, level, lit.var())?;
    }
    Ok(())
}

// Makes the clause of this number a hint, and marks its variables.
fn resolve(
    state: &State,
    number: u64,
    analysis: &mut Analysis,
    hints: &mut Vec<u64>,
) -> Result<(), Memory>
    requires there { number < length state.now.clauses }
    requires room { All (λ l. l.var < length analysis.old.marks) (slice_index_or state.now.clauses number []) }
    ensures hints { OnOk result (hints.new.items ≡ hints.old.items ++ number ∷ []) }
    ensures ordered { OnOk result (IsOrdered (slice_index_or state.now.clauses number [])) }
    ensures room { OnOk result (length analysis.new.marks ≡ length analysis.old.marks) }
    ensures marks { OnOk result (MarksClause analysis.old.marks analysis.new.marks (slice_index_or state.now.clauses number [])) }
    ensures counts { OnOk result (CountsMarks (literals state.now.trail) analysis.old.marks analysis.new.marks analysis.old.met analysis.new.met) }
{
    hints.push(number)?;
    mark(state, analysis, state.literals(number))
}

// The place of the last decision below a place, where nothing between is marked.
fn decision_below(state: &State, marks: &Marks, place: usize) -> Option<usize>
    requires { place ≤ length (literals state.now.trail) }
    ensures below { IfSome result (λ decision. decision < place) }
    ensures decision { IfSome result (IsDecisionAt state.now.clauses (literals state.now.trail)) }
    ensures alone { IfSome result (λ decision. IsUnmarkedBetween (literals state.now.trail) marks.now decision place) }
{
    let trail = state.trail();
    let mut below = place;
    while below > 0 {
        below -= 1;
        let lit = trail[below];
        if marks.is_marked(lit.var()) {
            return None;
        }
        match state.reason(lit.var()) {
            None => return Some(below),
            Some(_) => {}
        }
    }
    None
}

/// Where a level is cut: at its one marked literal. Its decision stands there or below.
#[derive(Clone, Copy)]
struct Cut {
    place: usize,
    decision: usize,
}

// The cut at a marked literal, where it may be cut, if it is the last one that is marked of its level.
fn cut_at(state: &State, marks: &Marks, place: usize, may_cut: bool) -> Option<Cut>
    requires within { place < length (literals state.now.trail) }
    requires marked { (d : Literal) → is_marked marks.now (slice_index_or (literals state.now.trail) place d).var ≡ true }
    requires free { (d : Literal) → trail_value (take place (literals state.now.trail)) (slice_index_or (literals state.now.trail) place d).var ≡ None }
    ensures { IfSome result (λ cut. (cut.place ≡ place) × IsCut state.now.clauses (literals state.now.trail) marks.now place cut.decision) }
{
    if !may_cut {
        return None;
    }
    let decision = decision_below(state, marks, place)?;
    Some(Cut { place, decision })
}

// Resolves what is marked from the end of the trail down to the cut of the last level, or to the start where there is no decision.
fn resolve_level(
    state: &State,
    vars: u64,
    analysis: &mut Analysis,
    hints: &mut Vec<u64>,
) -> Result<Option<Cut>, Memory>
    requires known { IsKnown vars state.now }
    requires room { vars < length analysis.old.marks }
    requires traced { IsTraced state.now.clauses (literals state.now.trail) analysis.old.marks [] hints.old.items (length (literals state.now.trail)) }
    requires counted { count_marked (literals state.now.trail) analysis.old.marks (length (literals state.now.trail)) ≤ analysis.old.met }
    ensures room { IsOk result → vars < length analysis.new.marks }
    ensures traced { IfOk result (λ cut. IsTraced state.now.clauses (literals state.now.trail) analysis.new.marks [] hints.new.items (option_map_or (λ c. c.place + 1) cut 0)) }
    ensures counted { IfOk result (λ cut. count_marked (literals state.now.trail) analysis.new.marks (option_map_or (λ c. c.place + 1) cut 0) ≤ analysis.new.met) }
    ensures cut { IfOk result (λ cut. IfSome cut (λ c. IsCut state.now.clauses (literals state.now.trail) analysis.new.marks c.place c.decision)) }
{
    let trail = state.trail();
    let mut place = trail.len();
    while place > 0 {
        place -= 1;
        let lit = trail[place];
        if analysis.marks.is_marked(lit.var()) {
            match state.reason(lit.var()) {
                None => {
                    return Ok(Some(Cut {
                        place,
                        decision: place,
                    }));
                }
                Some(number) => {
                    let may_cut = analysis.may_cut();
                    if let Some(cut) = cut_at(state, &analysis.marks, place, may_cut) {
                        return Ok(Some(cut));
                    }
                    analysis.met.pass();
                    analysis.last = analysis.last.saturating_sub(1);
                    resolve(state, number, analysis, hints)?;
                }
            }
        }
    }
    Ok(None)
}

// Keeps the negations of the marked literals before this place.
fn keep_marked(state: &State, marks: &Marks, from: usize, lits: &mut Vec<Lit>) -> Result<(), Memory>
    requires { from ≤ length (literals state.now.trail) }
    ensures { OnOk result (KeepsMarked (take from (literals state.now.trail)) marks.now lits.old.items lits.new.items) }
{
    let trail = state.trail();
    for place in 0..from {
        let found = trail[place];
        if marks.is_marked(found.var()) {
            lits.push(found.negated().lit())?;
        }
    }
    Ok(())
}

// Goes on from the decision at this place down the trail, as long as there is something marked: it is resolved where it can be
// left out, and else its negation is kept. What the table of places misses, of which nothing is promised, is kept.
fn keep_below(
    state: &State,
    vars: u64,
    from: usize,
    analysis: &mut Analysis,
    lits: &mut Vec<Lit>,
    hints: &mut Vec<u64>,
) -> Result<(), Memory>
    requires known { IsKnown vars state.now }
    requires room { vars < length analysis.old.marks }
    requires within { from ≤ length (literals state.now.trail) }
    requires traced { IsTraced state.now.clauses (literals state.now.trail) analysis.old.marks lits.old.items hints.old.items from }
    requires counted { count_marked (literals state.now.trail) analysis.old.marks from ≤ analysis.old.met }
    ensures traced { OnOk result (IsTraced state.now.clauses (literals state.now.trail) analysis.new.marks lits.new.items hints.new.items 0) }
    ensures keeps { OnOk result (KeepsMore (take from (literals state.now.trail)) lits.old.items lits.new.items) }
{
    let trail = state.trail();
    let mut place = from;
    while place > 0 && analysis.met.left() > 0 {
        place = analysis.places.next_below(analysis.met.all(), place);
        let lit = trail[place];
        if analysis.marks.is_marked(lit.var()) {
            analysis.met.pass();
            let all = analysis.by_decisions;
            match removal(state, &analysis.marks, &mut analysis.seen, lit, all) {
                Some(number) => resolve(state, number, analysis, hints)?,
                None => lits.push(lit.negated().lit())?,
            }
        }
    }
    if analysis.met.left() == 0 {
        return Ok(());
    }
    keep_marked(state, &analysis.marks, from, lits)
}

// The literals that are kept from the cut on, none where there is no cut.
fn keep(
    alloc: Global,
    state: &State,
    vars: u64,
    cut: Option<Cut>,
    analysis: &mut Analysis,
    hints: &mut Vec<u64>,
) -> Result<Vec<Lit>, Memory>
    requires known { IsKnown vars state.now }
    requires room { vars < length analysis.old.marks }
    requires traced { IsTraced state.now.clauses (literals state.now.trail) analysis.old.marks [] hints.old.items (option_map_or (λ c. c.place + 1) cut 0) }
    requires counted { count_marked (literals state.now.trail) analysis.old.marks (option_map_or (λ c. c.place + 1) cut 0) ≤ analysis.old.met }
    requires cut { ForSome cut (λ c. IsCut state.now.clauses (literals state.now.trail) analysis.old.marks c.place c.decision) }
    ensures traced { IfOk result (λ lits. IsTraced state.now.clauses (literals state.now.trail) analysis.new.marks lits.items hints.new.items 0) }
    ensures last { IfOk result (λ lits. (lits.items ≡ []) ⊎ HasLast state.now.clauses lits.items) }
{
    let mut lits = Vec::new(alloc);
    match cut {
        None => Ok(lits),
        Some(at) => {
            analysis.met.pass();
            lits.push(state.trail()[at.place].negated().lit())?;
            keep_below(state, vars, at.decision, analysis, &mut lits, hints)?;
            Ok(lits)
        }
    }
}

/// A clause that follows from a conflict, and the numbers of the clauses that show it, in the order in which they are read.
#[derive(Drop)]
pub struct Explanation {
    /// The literals of the clause, none where there was no decision.
    pub lits: Vec<Lit>,
    /// The numbers of the clauses that show it.
    pub hints: Vec<u64>,
}

// Brings the variables forward that the reasons of a learnt clause's literals name and the conflict didn't meet.
fn name_reasons(state: &State, order: &mut Order, analysis: &mut Analysis, lits: &[Lit]) {
    for lit in lits {
        if let Some(number) = reason_of(state, lit.var()) {
            for other in state.literals(number) {
                let var = other.var();
                if !analysis.marks.is_marked(var) && level_in(state, var) > 0 {
                    analysis.marks.mark(var);
                    order.raise(var);
                }
            }
        }
    }
}

/// Explains a falsified clause by the decisions, and brings the variables that it met down to the cut forward in the order, or all that
/// it met where it is explained by decisions alone.
pub fn explain(
    alloc: Global,
    state: &State,
    order: &mut Order,
    analysis: &mut Analysis,
    vars: u64,
    number: u64,
) -> Result<Explanation, Memory>
    requires known { IsKnown vars state.now }
    requires falsified { NamesFalsified state.now.clauses state.now.trail number }
    ensures { IfOk result (λ found. IsExplained state.now.clauses found.lits.items found.hints.items) }
{
    let mut hints = Vec::new(alloc);
    begin(state, analysis, vars)?;
    resolve(state, number, analysis, &mut hints)?;
    let cut = resolve_level(state, vars, analysis, &mut hints)?;
    let last = analysis.met.all().len();
    let lits = keep(alloc, state, vars, cut, analysis, &mut hints)?;
    let named = if analysis.by_decisions {
        analysis.met.all().len()
    } else {
        last
    };
    order.name(analysis.met.all(), named);
    name_reasons(state, order, analysis, lits.as_slice());
    order.advance_step();
    hints.reverse();
    Ok(Explanation { lits, hints })
}
