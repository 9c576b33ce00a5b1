//! Terms that have one element as soon as a third one is on a witness, as tree witnesses tell.
ghost use Rattle.std.specs.Prelude.{◌<◌, All, OnOk, length};
ghost use Rattle.tree_witness.specs.Trees.{IsEntryBelow, IsOrientedBelow};
ghost use Rattle.join_ops.specs.Planned.{AddsTwins, AreTwinsBy, IsTopBy};

use crate::condition::{Condition, Twins};
use std::alloc::AllocError;
use tree_witness::{OrientedAtom, ReachedTerm, TreeEntry};

/// Adds, by the levels of terms, the twins of each oriented atom: the term from which it leads, and each other one that its tree
/// witness places there.
pub(crate) fn add_twins(
    conditions: &mut Vec<Condition>,
    entries: &[TreeEntry],
    levels: &[u32],
) -> Result<(), AllocError>
    requires { All (IsEntryBelow (length levels.now)) entries.now }
    ensures { OnOk result (AddsTwins (AreTwinsBy levels.now entries.now) conditions.old.items conditions.new.items) }
{
    for entry in entries {
        if let Some(tree) = &entry.tree {
            add_tops(conditions, entry.atom, tree.items(), levels)?;
        }
    }
    Ok(())
}

/// Adds the twins of one oriented atom, which are in its tree without roles.
fn add_tops(
    conditions: &mut Vec<Condition>,
    atom: OrientedAtom,
    tree: &[ReachedTerm],
    levels: &[u32],
) -> Result<(), AllocError>
    requires atom { IsOrientedBelow (length levels.now) atom }
    requires tree { All (λ h. h.term < length levels.now) tree.now }
    ensures { OnOk result (AddsTwins (IsTopBy levels.now atom tree.now) conditions.old.items conditions.new.items) }
{
    for reached in tree {
        if reached.roles.items().is_empty() && reached.term != atom.from {
            conditions.push(Condition::Twins(Twins {
                role: atom.role,
                parent: levels[atom.from as usize],
                child: levels[atom.to as usize],
                twin: levels[reached.term as usize],
            }))?;
        }
    }
    Ok(())
}
