//! Parts of lists.

ghost use Rattle.std.specs.Prelude.{◌≡◌};
ghost use Rattle.cnf_core.specs.Pieces.{part_of};

/// The part of a list from a place up to another one, or nothing where it has none.
pub(crate) fn part<T: Copy>(list: &[T], from: usize, until: usize) -> &[T]
    ensures { result.now ≡ part_of list.now from until }
{
    list.get(from..until).unwrap_or(&[])
}
