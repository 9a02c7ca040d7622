//! What stands for each term of a ground.

ghost use Rattle.std.specs.Prelude.{◌≡◌, ◌≤◌, [], length, IfOk};
ghost use Rattle.ep_defined.specs.Translations.{Translates};
ghost use Rattle.ep_defined.specs.declared.remove.TheConstants.{MOST_NODES};
ghost use Rattle.ep_ground.specs.Grounds.{IsWellFormed};
ghost use Rattle.ep_ground.specs.GroundViews.{plain_ground};

use crate::images::Image;
use crate::steps::node_image;
use ep_base::Memory;
use ep_ground::{Arena, Ground, Term};
use std::alloc::Global;

/// What stands for each term of a ground, in order, in an arena that begins with 0.
pub fn images_of(
    alloc: Global,
    arena: &mut Arena,
    nought: Term,
    g: &Ground,
) -> Result<Vec<Image>, Memory>
    requires nodes { length g.now.arena ≤ MOST_NODES }
    requires well_formed { IsWellFormed (plain_ground g.now) }
    requires start { Translates g.now.cells.items g.now.arena arena.old nought [] }
    ensures stand { IfOk result (λ images.
        Translates g.now.cells.items g.now.arena arena.new nought images.items) }
    ensures many { IfOk result (λ images. length images.items ≡ length g.now.arena) }
{
    let mut images = Vec::new(alloc);
    for t in 0..g.arena.len() {
        let node = g.arena.node(Term::new(t as u32));
        let image = node_image(alloc, arena, nought, &images, node)?;
        images.push(image)?;
    }
    Ok(images)
}
