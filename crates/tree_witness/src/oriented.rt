//! Role atoms, each read both ways.
ghost use Rattle.std.specs.Prelude.{◌≡◌, ◌++◌, IfOk, OnOk};
ghost use Rattle.tree_witness.specs.Trees.{read_both_ways, oriented_atoms};

use dl_base::{Items, Role};
use query_shape::ShapeAtom;
use std::alloc::{AllocError, Global};

/// A role atom read one way: the role leads from one term to the other.
#[derive(Clone, Copy, Debug, PartialEq, Eq)]
pub struct OrientedAtom {
    /// The atom's role, or its inverse where the atom is read the other way.
    pub role: Role,
    /// The number of the term from which it leads.
    pub from: u32,
    /// The number of the term to which it leads.
    pub to: u32,
}

/// The role atoms, in order, each read as it stands and then the other way.
pub(crate) fn oriented_atoms(
    alloc: Global,
    atoms: &[ShapeAtom],
) -> Result<Items<OrientedAtom>, AllocError>
    ensures { IfOk result (λ oriented. oriented ≡ oriented_atoms atoms.now) }
{
    let mut oriented = Vec::with_capacity(alloc, atoms.len().saturating_mul(2))?;
    for atom in atoms {
        add_both_ways(&mut oriented, *atom)?;
    }
    Ok(Items::from_vec(oriented))
}

/// Adds the atom, if it is a role atom, read both ways.
fn add_both_ways(oriented: &mut Vec<OrientedAtom>, atom: ShapeAtom) -> Result<(), AllocError>
    ensures { OnOk result (oriented.new.items ≡ oriented.old.items ++ read_both_ways atom) }
{
    if let ShapeAtom::Role { role, from, to } = atom {
        oriented.push(OrientedAtom { role, from, to })?;
        oriented.push(OrientedAtom {
            role: role.inverted(),
            from: to,
            to: from,
        })?;
    }
    Ok(())
}
