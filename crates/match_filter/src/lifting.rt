//! Whether a match lifts.
ghost use Rattle.std.specs.Prelude.{◌≡◌, length};
ghost use Rattle.query_shape.specs.Lifting.{DecidesLifting};

use crate::classes::{agree, classes};
use crate::grounding::grounded;
use crate::link::{has_link, links};
use dl_base::Elem;
use query_shape::Shape;

/// Whether a match of completed tables comes from a placing on the short unfolding: terms that have to stand on one
/// element have one image, and no endless chain of parents leads upward from a term. It takes no memory.
pub fn lifts(s: &Shape, images: &[Elem]) -> bool
    requires { length images.now ≡ length s.now.terms }
    ensures { DecidesLifting s.now images.now result }
{
    let links = links(s.atoms(), images);
    if !has_link(&links) {
        return true;
    }
    let classes = classes(&links);
    agree(&classes, images) && grounded(&links, &classes)
}
