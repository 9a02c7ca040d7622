//! Grounds just within bounds and just outside.

use ep_ground::{Arena, Ground, Node, Term};
use ep_reach::{is_bounded, is_well_formed};
use std::alloc::Global;
use std::test::Fail;

/// The ground of a power of 3, with one clause.
#[tactic(auto, unfolding(ep_ground::specs::Nodes::parts_of))]
fn power_of_three(alloc: Global, exponent: u64, clause: u32) -> Result<Ground, Fail> {
    let mut arena = Arena::new(alloc);
    let three = arena.intern(Node::Const(3))?;
    arena.intern(Node::Pow(three, exponent))?;
    Ok(Ground {
        arena,
        cells: Vec::new(alloc),
        clauses: Vec::from_slice(alloc, &[Term::new(clause)])?,
        objective: None,
    })
}

#[test]
fn a_power_is_bounded_as_far_as_the_stages_compute(rt: HostRuntime) -> Result<(), Fail> {
    for (exponent, wanted) in [(25, true), (26, false)] {
        let ground = power_of_three(rt.alloc(), exponent, 1)?;
        assert_eq!(rt; is_bounded(rt.alloc(), &ground)?, wanted);
    }
    for (clause, wanted) in [(1, true), (2, false)] {
        let ground = power_of_three(rt.alloc(), 2, clause)?;
        assert_eq!(rt; is_well_formed(&ground), wanted);
    }
    Ok(())
}
