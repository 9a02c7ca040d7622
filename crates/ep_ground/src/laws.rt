//! What holds of every arena.

ghost use Rattle.std.specs.Prelude.{◌≡◌, ℕ, ℤ, List, Some, slice_get};
ghost use Rattle.ep_ground.specs.Bounds.{node_reach, term_reach};
ghost use Rattle.ep_ground.specs.Nodes.{GroundNode};
ghost use Rattle.ep_ground.specs.SameTrees.{SameTree};
ghost use Rattle.ep_ground.specs.Terms.{IsArena, PartsStandBefore, node_value, term_value};
ghost use Rattle.ep_ground.specs.declared.cells.Cell.{Cell};

/// Terms that unfold to the same tree are one term.
pub fn equal_trees_are_equal_terms()
    ensures { (nodes : List GroundNode) → IsArena nodes
        → (s t : ℕ) → SameTree nodes s t → s ≡ t }
{}

/// Where the parts of each node stand before it, a term has the value that its node has over the
/// values of its parts.
pub fn a_term_has_the_value_of_its_node()
    ensures { (nodes : List GroundNode) (cells : List ℤ) → PartsStandBefore nodes
        → (t : ℕ) (node : GroundNode) → slice_get nodes t ≡ Some node
        → term_value nodes cells t ≡ node_value cells (term_value nodes cells) node }
{}

/// And its reach is the one that its node has over the reaches of its parts.
pub fn a_term_reaches_as_far_as_its_node()
    ensures { (nodes : List GroundNode) (cells : List Cell) → PartsStandBefore nodes
        → (t : ℕ) (node : GroundNode) → slice_get nodes t ≡ Some node
        → term_reach nodes cells t ≡ node_reach cells (term_reach nodes cells) node }
{}
