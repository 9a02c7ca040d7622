//! Where the cells of each decision variable begin.

ghost use Rattle.std.specs.Prelude.{◌≡◌};
ghost use Rattle.ep_unroll.specs.Firsts.{first_in};

use ep_base::Name;

/// A decision variable, and the number of its first cell.
#[derive(Drop)]
pub struct FirstCell {
    pub name: Name,
    pub cell: u64,
}

/// Where the cells of each decision variable begin, and how many cells there are.
#[derive(Drop)]
pub struct CellTable {
    pub firsts: Vec<FirstCell>,
    pub count: u64,
}

/// The number of a name's first cell. Linear in the decision variables.
pub fn first_cell(firsts: &[FirstCell], name: &Name) -> Option<u64>
    ensures { result ≡ first_in firsts.now name.now }
{
    for first in firsts {
        if *name == first.name {
            return Some(first.cell);
        }
    }
    None
}
