//! How many additions grounds of sums ask for before and after sharing.
//!
//! A row has sums, each a word of cells (from `a` to `j`, each from 0 to 3; a capital letter is twice its cell), of each of which a
//! clause says that it is at least 5. Behind a colon stands how many additions they ask for, and how many when they were shared.

ghost use Rattle.std.specs.Prelude.{◌≡◌, ◌<◌, true, length, map};
ghost use Rattle.std.specs.List.{All};

use ep_base::{CompareOp, Key, Name, Run, Runs};
use ep_defined::remove_undefined;
use ep_ground::{Arena, Cell, Ground, Node, Term};
use ep_reach::{is_bounded, is_well_formed};
use ep_share::share;
use std::alloc::Global;
use std::test::Fail;

/// The cells `a` to `j`.
fn cells(alloc: Global) -> Result<Vec<Cell>, Fail> {
    let mut cells = Vec::new(alloc);
    for name in "a b c d e f g h i j".split(' ') {
        let runs = vec![in alloc; Run { lo: 0, hi: 3 }]?;
        cells.push(Cell {
            name: Name::new(alloc, name)?,
            indices: Key::new(Vec::new(alloc)),
            truth: false,
            values: Runs::new(alloc, runs)?,
        })?;
    }
    Ok(cells)
}

/// The part of a sum that a letter stands for, over an arena that begins with the cells.
fn part(letter: u8) -> (i64, Term) {
    if letter < b'a' {
        return (2, Term::new(u32::from(letter.saturating_sub(b'A'))));
    }
    (1, Term::new(u32::from(letter.saturating_sub(b'a'))))
}

/// Whether each part of a sum is there.
fn are_there(arena: &Arena, parts: &[(i64, Term)]) -> bool
    ensures { result ≡ true → All (λ p. p.1 < length arena.now) parts.now }
{
    for part in parts {
        if u64::from(part.1.number()) >= arena.len() {
            return false;
        }
    }
    true
}

/// Adds a sum.
#[tactic(auto, unfolding(ep_ground::specs::Nodes::parts_of))]
fn add_sum(alloc: Global, arena: &mut Arena, word: &str) -> Result<Term, Fail> {
    let mut parts = Vec::new(alloc);
    for letter in word.bytes() {
        parts.push(part(letter))?;
    }
    if !are_there(arena, &parts) {
        return Err(Fail::new("a part that isn't there"));
    }
    Ok(arena.intern(Node::Add(0, parts))?)
}

/// Adds that a term is at least another.
#[tactic(auto, unfolding(ep_ground::specs::Nodes::parts_of))]
fn add_bound(arena: &mut Arena, sum: Term, least: Term) -> Result<Term, Fail> {
    if u64::from(sum.number()) >= arena.len() || u64::from(least.number()) >= arena.len() {
        return Err(Fail::new("a sum that isn't there"));
    }
    Ok(arena.intern(Node::Compare(CompareOp::AtLeast, sum, least))?)
}

/// Adds a cell or a number.
#[tactic(auto, unfolding(ep_ground::specs::Nodes::parts_of))]
fn add_leaf(arena: &mut Arena, place: usize) -> Result<Term, Fail> {
    if place < 10 {
        return Ok(arena.intern(Node::Cell(place as u64))?);
    }
    Ok(arena.intern(Node::Const(5))?)
}

/// The ground of some sums.
fn ground_of(alloc: Global, sums: &str) -> Result<Ground, Fail> {
    let mut arena = Arena::new(alloc);
    let mut least = Term::new(0);
    for place in 0..=10 {
        least = add_leaf(&mut arena, place)?;
    }
    let mut clauses = Vec::new(alloc);
    for word in sums.split(' ') {
        let sum = add_sum(alloc, &mut arena, word)?;
        clauses.push(add_bound(&mut arena, sum, least)?)?;
    }
    Ok(Ground {
        arena,
        cells: cells(alloc)?,
        clauses,
        objective: None,
    })
}

/// A ground whose sums share their common parts.
fn shared(alloc: Global, ground: Ground) -> Result<Ground, Fail> {
    if !is_well_formed(&ground) || ground.arena.len() > ep_defined::MOST_NODES {
        return Err(Fail::new("a ground that isn't well formed"));
    }
    let defined = remove_undefined(alloc, ground)?;
    if !is_bounded(alloc, &defined)? {
        return Err(Fail::new("a ground that isn't bounded"));
    }
    Ok(share(alloc, defined)?)
}

/// How many additions a node asks for.
fn additions_of(node: &Node) -> usize {
    match node {
        Node::Add(_, parts) => parts.len().saturating_sub(1),
        _ => 0,
    }
}

/// How many additions the nodes of a ground ask for.
fn additions(ground: &Ground) -> usize {
    let mut count: usize = 0;
    for place in 0..ground.arena.len() {
        count = count.saturating_add(additions_of(ground.arena.node(Term::new(place as u32))));
    }
    count
}

/// How many additions some sums ask for, and how many when they were shared.
fn said_of(alloc: Global, sums: &str) -> Result<String, Fail> {
    let ground = ground_of(alloc, sums)?;
    let before = additions(&ground);
    let after = additions(&shared(alloc, ground)?);
    Ok(format!(in alloc; "{before} {after}")?)
}

/// The first row of a table of which something else is said, with that.
fn first_wrong(alloc: Global, table: &str) -> Result<String, Fail> {
    for row in table.lines() {
        let (sums, want) = row.split_once(':').unwrap_or((row, ""));
        let said = said_of(alloc, sums)?;
        if said.as_str() != want {
            return Ok(format!(in alloc; "{row} BUT {}", said.as_str())?);
        }
    }
    Ok(String::new(alloc))
}

const SHARED: &str = "\
abc abd:4 3
abc bac:4 2
abc cab bca:6 2
aBc aBd:4 3
ab abc abcd:6 3
abcd abce abcf:9 5
abcdefgh abcdefgi:14 8";

#[test]
fn common_parts_are_added_once(rt: HostRuntime) -> Result<(), Fail> {
    let wrong = first_wrong(rt.alloc(), SHARED)?;
    assert_eq!(rt; wrong.as_str(), "");
    Ok(())
}

const LEFT: &str = "\
ab:1 1
abc:2 2
abc def:4 4
abc ade:4 4
abc Abd:4 4
abcdefghi abcdefghj:16 16";

#[test]
fn nothing_else_is_changed(rt: HostRuntime) -> Result<(), Fail> {
    let wrong = first_wrong(rt.alloc(), LEFT)?;
    assert_eq!(rt; wrong.as_str(), "");
    Ok(())
}
