//! The atoms that are left, with what the tables tell of them.
ghost use Rattle.std.specs.Prelude.{◌≡◌, IfOk};
ghost use Rattle.join_plan.specs.Choice.{AreCandidates, IsSized};

use dl_base::{Basic, Tables};
use query_shape::ShapeAtom;
use std::alloc::{AllocError, Global};

/// An atom that is left, and how many elements each of its terms may have by it alone.
#[derive(Clone, Copy, Debug)]
pub(crate) struct Candidate {
    /// The atom's place.
    pub place: usize,
    /// The atom.
    pub atom: ShapeAtom,
    /// How many elements its first term may have.
    pub first: u64,
    /// How many elements its last term may have.
    pub last: u64,
}

/// Each atom with its place, as the tables count its elements.
pub(crate) fn candidates<T: Tables>(
    alloc: Global,
    atoms: &[ShapeAtom],
    t: &T,
) -> Result<Vec<Candidate>, AllocError>
    ensures { IfOk result (λ left. AreCandidates (T.rows t.now) atoms.now left.items) }
{
    let mut left = Vec::with_capacity(alloc, atoms.len())?;
    for (place, atom) in atoms.iter().enumerate() {
        left.push(sized(place, *atom, t))?;
    }
    Ok(left)
}

fn sized<T: Tables>(place: usize, atom: ShapeAtom, t: &T) -> Candidate
    ensures place { result.place ≡ place }
    ensures atom { result.atom ≡ atom }
    ensures sized { IsSized (T.rows t.now) result }
{
    let (first, last) = match atom {
        ShapeAtom::Concept { concept, .. } => {
            let members = t.count(Basic::Concept(concept));
            (members, members)
        }
        ShapeAtom::Role { role, .. } => {
            let sources = t.count(Basic::Exists(role));
            (sources, t.count(Basic::Exists(role.inverted())))
        }
    };
    Candidate {
        place,
        atom,
        first,
        last,
    }
}
