//! Parents and children among the terms of a shape.
ghost use Rattle.std.specs.Prelude.{◌≡◌, ◌↔◌, ◌<◌, ◌≤◌, ℕ, length, All, IsTrue, MatchOption};
ghost use Rattle.query_shape.specs.Shape.{IsBelow};
ghost use Rattle.match_filter.specs.Links.{IsLinkOf, AreLinks, HasLink};

use dl_base::Elem;
use query_shape::ShapeAtom;

/// The number of a term that points to a witness, and that of a term on this witness.
#[derive(Clone, Copy, Debug, PartialEq, Eq)]
pub(crate) struct Link {
    pub(crate) parent: u32,
    pub(crate) child: u32,
}

/// The parent and child of each atom, if it has any.
pub(crate) fn links(atoms: &[ShapeAtom], images: &[Elem]) -> [Option<Link>; 24]
    requires few { length atoms.now ≤ 24 }
    requires below { All (IsBelow (length images.now)) atoms.now }
    ensures { AreLinks images.now atoms.now result }
{
    let mut links = [None; 24];
    for (i, atom) in atoms.iter().enumerate() {
        links[i] = link_of(atom, images);
    }
    links
}

/// Whether any atom has a parent and a child.
pub(crate) fn has_link(links: &[Option<Link>]) -> bool
    ensures { IsTrue result ↔ HasLink links.now }
{
    for link in links {
        if let Some(_) = *link {
            return true;
        }
    }
    false
}

/// The parent and child of an atom, if it has any.
fn link_of(atom: &ShapeAtom, images: &[Elem]) -> Option<Link>
    requires { IsBelow (length images.now) atom.now }
    ensures { MatchOption result ((p c : ℕ) → IsLinkOf images.now atom.now p c → ⊥) (λ l. IsLinkOf images.now atom.now l.parent l.child) }
{
    match *atom {
        ShapeAtom::Concept { .. } => None,
        ShapeAtom::Role { role, from, to } => {
            if images[to as usize].is_witness_of(role) {
                return Some(Link {
                    parent: from,
                    child: to,
                });
            }
            if images[from as usize].is_witness_of(role.inverted()) {
                return Some(Link {
                    parent: to,
                    child: from,
                });
            }
            None
        }
    }
}
