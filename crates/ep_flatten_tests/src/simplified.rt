//! What stands for the nodes of grounds once numbers and intervals have decided what they decide.
//!
//! A row has the text of a term that is minimised, that of a clause, and the ground that they come to: its nodes in order, each with
//! the places of its parts, and behind a colon the place of the term that is minimised and those of the clauses. The first node is a 0,
//! which comes with what makes partial functions total.

use crate::grounds::ground_of;
use ep_base::CompareOp;
use ep_defined::remove_undefined;
use ep_ground::{Arena, Ground, Node, Term};
use ep_reach::is_well_formed;
use ep_simplify::simplify;
use std::alloc::{AllocError, Global};
use std::test::Fail;

/// The ground that a ground without partial nodes is simplified to.
fn simplified(alloc: Global, ground: Ground) -> Result<Ground, Fail> {
    if ground.arena.len() > ep_defined::MOST_NODES {
        return Err(Fail::new("a ground with too many nodes"));
    }
    if !is_well_formed(&ground) {
        return Err(Fail::new("a ground with unknown terms"));
    }
    let defined = remove_undefined(alloc, ground)?;
    Ok(simplify(alloc, defined)?)
}

/// A comparison in signs.
fn sign(op: CompareOp) -> &'static str {
    match op {
        CompareOp::Equal => "=",
        CompareOp::NotEqual => "!=",
        CompareOp::Less => "<",
        CompareOp::AtMost => "<=",
        CompareOp::Greater => ">",
        CompareOp::AtLeast => ">=",
    }
}

/// Adds a sign and the places of some terms.
fn push_terms(
    alloc: Global,
    said: &mut String,
    sign: &str,
    terms: &[Term],
) -> Result<(), AllocError> {
    said.push_str(sign)?;
    for term in terms {
        let place = format!(in alloc; ",{}", term.number())?;
        said.push_str(place.as_str())?;
    }
    Ok(())
}

/// Adds a node, in signs; of sums only how many parts they have.
fn push_node(alloc: Global, said: &mut String, node: &Node) -> Result<(), AllocError> {
    let one = match node {
        Node::Const(number) => format!(in alloc; "{number}")?,
        Node::Cell(0) => format!(in alloc; "x")?,
        Node::Cell(_) => format!(in alloc; "y")?,
        Node::Add(number, parts) => format!(in alloc; "{number}+{}", parts.len())?,
        Node::Compare(op, a, b) => {
            format!(in alloc; "{}{}{}", a.number(), sign(*op), b.number())?
        }
        Node::Not(a) => format!(in alloc; "!{}", a.number())?,
        Node::Iff(a, b) => format!(in alloc; "{}=={}", a.number(), b.number())?,
        Node::And(parts) => return push_terms(alloc, said, "&", parts),
        Node::Or(parts) => return push_terms(alloc, said, "|", parts),
        _ => format!(in alloc; "*")?,
    };
    said.push_str(one.as_str())
}

/// The nodes of an arena.
fn push_nodes(alloc: Global, said: &mut String, arena: &Arena) -> Result<(), Fail> {
    for place in 0..arena.len() {
        said.push_str(" ")?;
        push_node(alloc, said, arena.node(Term::new(place as u32)))?;
    }
    Ok(())
}

/// What a ground comes to.
fn said_of(alloc: Global, goal: &str, clause: &str) -> Result<String, Fail> {
    let ground = simplified(alloc, ground_of(alloc, goal, clause)?)?;
    let mut said = String::new(alloc);
    push_nodes(alloc, &mut said, &ground.arena)?;
    said.push_str(" :")?;
    if let Some((_, term)) = ground.objective {
        let place = format!(in alloc; " {}", term.number())?;
        said.push_str(place.as_str())?;
    }
    push_terms(alloc, &mut said, "", &ground.clauses)?;
    Ok(said)
}

/// The first row of a table of which something else is said, with that.
fn first_wrong(alloc: Global, table: &str) -> Result<String, Fail> {
    for row in table.lines() {
        let (goal, rest) = row.split_once('#').unwrap_or((row, ""));
        let (clause, want) = rest.split_once('#').unwrap_or((rest, ""));
        let said = said_of(alloc, goal, clause)?;
        if said.as_str() != want {
            return Ok(format!(in alloc; "{row} BUT {}", said.as_str())?);
        }
    }
    Ok(String::new(alloc))
}

const DECIDED: &str = "\
#x2<# 0 x 2 1<=2 :,3
#x4<# 0 x 4 1 :,3
#x0<# 0 x :,0
#xx<# 0 x 1 :,2
#34<# 0 3 4 1 :,3
#43<# 0 4 3 :,0
#xy<# 0 x y 1<=2 :,3
#x0*1<# 0 x 1 :,2
33<## 0 3 1 : 2";

const JOINED: &str = "\
#x2<1&# 0 x 2 1<=2 1 :,3
#x2<0&# 0 x 2 1<=2 :,0
#x2<1|# 0 x 2 1<=2 1 :,4
#x2<0|# 0 x 2 1<=2 :,3
#x2<y1<&# 0 x 2 1<=2 y 1 4<=5 &,3,6 :,7
#x2<1=# 0 x 2 1<=2 1 :,3
#x2<0=# 0 x 2 1<=2 1>2 :,4
#x2<!# 0 x 2 1<=2 1>2 :,4
#x2<!!# 0 x 2 1<=2 1>2 :,3
#x2<y1<&!!# 0 x 2 1<=2 y 1 4<=5 &,3,6 !7 :,7";

#[test]
fn comparisons_are_decided_and_truths_joined(rt: HostRuntime) -> Result<(), Fail> {
    for table in [DECIDED, JOINED] {
        let wrong = first_wrong(rt.alloc(), table)?;
        assert_eq!(rt; wrong.as_str(), "");
    }
    Ok(())
}

#[test]
fn a_hundred_thousand_nodes_come_to_one(rt: HostRuntime) -> Result<(), Fail> {
    let mut clause = String::new(rt.alloc());
    clause.push_str("x2<")?;
    for _ in 0..100_000 {
        clause.push_str("1&")?;
    }
    let ground = simplified(rt.alloc(), ground_of(rt.alloc(), "", clause.as_str())?)?;
    assert_eq!(rt; ground.arena.len(), 5);
    let Some(only) = ground.clauses.first() else {
        return Err(Fail::new("no clause"));
    };
    assert_eq!(rt; only.number(), 3);
    Ok(())
}
