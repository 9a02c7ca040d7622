//! How numbers of cells are values of decision variables.

ghost use Rattle.std.specs.Prelude.{◌≡◌, ℤ, List};
ghost use Rattle.ep_ground.specs.Grounds.{AreCellValues};
ghost use Rattle.ep_solve.specs.Reading.{GivesNumbers, ReadsAs};
ghost use Rattle.ep_tree.specs.Binding.{Instance};
ghost use Rattle.ep_tree.specs.Closed.{IsClosed};
ghost use Rattle.ep_tree.specs.Solutions.{Assigned, Fits, Found};
ghost use Rattle.ep_unroll.specs.Cells.{found_numbers, instance_cells};

/// An assignment that fits gives each cell one of its values; numbers of the cells, each one of
/// its cell's values, are those of an assignment; and whatever gives the cells the same numbers gives
/// the decision variables the same values.
pub fn cells_stand_for_values()
    ensures gives { (i : Instance) (a : Assigned) (found : Found) → Fits i a found → GivesNumbers i found }
    ensures reads { (i : Instance) (numbers : List ℤ) → IsClosed i → AreCellValues (instance_cells i) numbers
        → ReadsAs i numbers }
    ensures same { (i : Instance) (a b : Assigned) (found other : Found) → Fits i a found → Fits i b other
        → found_numbers found ≡ found_numbers other → found ≡ other }
{}
