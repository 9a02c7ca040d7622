//! The arena of shared nodes.

ghost use Rattle.std.specs.Prelude.{◌≡◌, ◌-◌, ◌<◌, ◌≤◌, ◌^◌, ◌⊎◌, [], length, Some, IfOk, IfErr, OnOk, OnErr, slice_get};
ghost use Rattle.std.specs.List.{All, Contains};
ghost use Rattle.ep_ground.specs.ArenaSteps.{Interned};
ghost use Rattle.ep_ground.specs.Nodes.{parts_of};
ghost use Rattle.ep_ground.specs.NodeViews.{plain_node};
ghost use Rattle.ep_ground.specs.Terms.{IsArena};

use crate::nodes::Node;
use crate::terms::Term;
use indexmap::IndexSet;
use std::alloc::{AllocFailed, Global};
use std::error::Error;
use std::fmt;
use std::marker::Model;

/// The greatest number of nodes in an arena.
const MOST_TERMS: usize = 0xffff_ffff;

/// Why a node wasn't taken into an arena.
#[derive(Clone, Copy, Debug, PartialEq, Eq)]
pub enum InternError {
    /// The node is new, and there are as many nodes as there can be.
    Full,
    /// An allocation was refused.
    Memory,
}

impl fmt::Display for InternError {
    fn fmt<W: fmt::Write>(&self, f: &mut fmt::Formatter<W>) -> fmt::Result {
        match self {
            InternError::Full => write!(f, "too many terms"),
            InternError::Memory => write!(f, "memory"),
        }
    }
}

impl Error for InternError {}

impl From<AllocFailed<Node>> for InternError {
    ghost use Rattle.ep_ground.specs.declared.arena.InternError.{InternError};

    ghost from_gives = { λ _ error. error ≡ InternError.Memory };

    fn from(_refused: AllocFailed<Node>) -> InternError {
        InternError::Memory
    }
}

/// Nodes, of which no two are equal, each behind its parts. Contracts see the list of them.
#[derive(Drop)]
pub struct Arena {
    nodes: IndexSet<Node>,
}

impl Model for Arena {
    ghost use Rattle.std.specs.Prelude.{List};
    ghost use Rattle.ep_ground.specs.Nodes.{GroundNode};

    ghost Value = { List GroundNode };

    ghost use Rattle.ep_ground.specs.ArenaInside.{IsArenaInside, nodes_of};

    ghost view = { nodes_of };

    ghost invariant = { IsArenaInside };
}

impl Arena {
    /// An arena without a node.
    pub fn new(alloc: Global) -> Arena
        ensures { result ≡ [] }
    {
        Arena {
            nodes: IndexSet::new(alloc),
        }
    }

    /// The term of this node: an old one where the node is there, and else a new one. After a refusal
    /// the arena is unchanged.
    pub fn intern(&mut self, node: Node) -> Result<Term, InternError>
        requires { All (λ part. part < length self.old) (parts_of (plain_node node)) }
        ensures term { IfOk result (λ term. slice_get self.new term ≡ Some (plain_node node)) }
        ensures arena { OnOk result (Interned self.old (plain_node node) self.new) }
        ensures room { IfOk result (λ _.
            Contains self.old (plain_node node) ⊎ (length self.old < 2 ^ 32 - 1)) }
        ensures full { IfErr result (λ error. error ≡ InternError.Full
            → (length self.old ≡ 2 ^ 32 - 1) × (Contains self.old (plain_node node) → ⊥)) }
        ensures err { OnErr result (self.new ≡ self.old) }
    {
        if self.nodes.len() >= MOST_TERMS {
            return self.known(&node);
        }
        let (place, _) = self.nodes.insert_full(node)?;
        Ok(Term::new(place as u32))
    }

    /// The term of a node that is there.
    fn known(&self, node: &Node) -> Result<Term, InternError>
        ensures term { IfOk result (λ term. slice_get self.now term ≡ Some (plain_node node.now)) }
        ensures full { IfErr result (λ error. Contains self.now (plain_node node.now) → ⊥) }
        ensures room { length self.now ≤ 2 ^ 32 - 1 }
    {
        match self.nodes.get_index_of(node) {
            Some(place) => Ok(Term::new(place as u32)),
            None => Err(InternError::Full),
        }
    }

    /// The node of a term.
    pub fn node(&self, term: Term) -> &Node
        requires { term < length self.now }
        ensures node { slice_get self.now term ≡ Some (plain_node result.now) }
        ensures parts { All (λ part. part < term) (parts_of (plain_node result.now)) }
    {
        &self.nodes[term.number() as usize]
    }

    /// How many nodes there are.
    pub fn len(&self) -> u64
        ensures value { result ≡ length self.now }
        ensures fits { result < 2 ^ 32 }
        ensures arena { IsArena self.now }
    {
        self.nodes.len() as u64
    }
}
