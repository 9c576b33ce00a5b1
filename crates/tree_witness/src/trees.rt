//! The tree witnesses of a shape, and the test by them.
ghost use Rattle.std.specs.Prelude.{◌≡◌, ◌↔◌, ◌<◌, ℕ, length, All, IfOk, IsTrue};
ghost use Rattle.query_shape.specs.Shape.{Layout, IsLayout};
ghost use Rattle.query_shape.specs.Lifting.{DecidesLifting};
ghost use Rattle.tree_witness.specs.Trees.{AreTreesOf, AreEntries, IsOrientedBelow, IsEntryBelow, PassesBy, PassesEntry, TopAgrees};

use crate::oriented::{OrientedAtom, oriented_atoms};
use crate::tree::{ReachedTerm, tree};
use dl_base::{Elem, Items};
use query_shape::Shape;
use std::alloc::{AllocError, Global};
use std::marker::Model;

/// An oriented atom with its tree witness.
#[derive(Debug, Drop)]
pub struct TreeEntry {
    /// A role atom read one way.
    pub atom: OrientedAtom,
    /// Each term that the tree witness reaches, with its roles, or `None` where there is no tree witness.
    pub tree: Option<Items<ReachedTerm>>,
}

/// The tree witnesses of a shape. For each role atom, read as it stands and then the other way, it has the terms that are
/// placed below the term from which the atom leads as soon as the atom leads to a witness, with the roles that lead to them.
#[derive(Debug, Drop)]
pub struct TreeWitnesses {
    pub(crate) terms: usize,
    pub(crate) entries: Items<TreeEntry>,
}

impl Model for TreeWitnesses {
    ghost use Rattle.tree_witness.specs.Trees.{Trees, AreBelow};

    ghost Value = { Trees };

    ghost view = { λ t. record { terms = t.terms; entries = t.entries } };

    ghost invariant = { λ t. AreBelow (record { terms = t.terms; entries = t.entries }) };
}

impl TreeWitnesses {
    /// The tree witnesses of the shape.
    pub fn build(alloc: Global, s: &Shape) -> Result<TreeWitnesses, AllocError>
        ensures { IfOk result (AreTreesOf s.now) }
    {
        let terms = s.terms();
        let oriented = oriented_atoms(alloc, s.atoms())?;
        let entries = entries(alloc, terms, oriented.items())?;
        Ok(TreeWitnesses { terms, entries })
    }

    /// Each role atom, read as it stands and then the other way, with its tree witness.
    pub fn entries(&self) -> &[TreeEntry]
        ensures entries { result.now ≡ self.now.entries }
        ensures below { All (IsEntryBelow self.now.terms) result.now }
    {
        self.entries.items()
    }

    /// Whether the images pass: each oriented atom that leads to a term on the witness of its role has a tree witness, and
    /// each term of it without roles has the image of the term from which the atom leads. So a match of completed tables
    /// passes exactly where it lifts. It takes no memory.
    pub fn passes(&self, images: &[Elem]) -> bool
        requires { length images.now ≡ self.now.terms }
        ensures passes { IsTrue result ↔ PassesBy self.now images.now }
        ensures lifts { (s : Layout) → IsLayout s → AreTreesOf s self.now → DecidesLifting s images.now result }
    {
        all_pass(self.entries.items(), images)
    }
}

/// Each oriented atom with its tree witness.
fn entries(
    alloc: Global,
    terms: usize,
    oriented: &[OrientedAtom],
) -> Result<Items<TreeEntry>, AllocError>
    requires { All (IsOrientedBelow terms) oriented.now }
    ensures { IfOk result (AreEntries terms oriented.now) }
{
    let mut entries = Vec::with_capacity(alloc, oriented.len())?;
    for atom in oriented {
        let tree = tree(alloc, terms, oriented, *atom)?;
        entries.push(TreeEntry { atom: *atom, tree })?;
    }
    Ok(Items::from_vec(entries))
}

/// Whether the images pass at each oriented atom.
fn all_pass(entries: &[TreeEntry], images: &[Elem]) -> bool
    requires { All (IsEntryBelow (length images.now)) entries.now }
    ensures { IsTrue result ↔ All (PassesEntry images.now) entries.now }
{
    for entry in entries {
        if !passes_entry(entry, images) {
            return false;
        }
    }
    true
}

/// Whether the images pass at this oriented atom.
fn passes_entry(entry: &TreeEntry, images: &[Elem]) -> bool
    requires { IsEntryBelow (length images.now) entry.now }
    ensures { IsTrue result ↔ PassesEntry images.now entry.now }
{
    if !images[entry.atom.to as usize].is_witness_of(entry.atom.role) {
        return true;
    }
    match &entry.tree {
        None => false,
        Some(tree) => tops_agree(tree.items(), images, entry.atom.from),
    }
}

/// Whether each term without roles has the image of this one.
fn tops_agree(tree: &[ReachedTerm], images: &[Elem], top: u32) -> bool
    requires top { top < length images.now }
    requires tree { All (λ h. h.term < length images.now) tree.now }
    ensures { IsTrue result ↔ All (TopAgrees images.now top) tree.now }
{
    for reached in tree {
        if !top_agrees(reached, images, top) {
            return false;
        }
    }
    true
}

/// Whether the term has roles, or the image of this one.
fn top_agrees(reached: &ReachedTerm, images: &[Elem], top: u32) -> bool
    requires top { top < length images.now }
    requires reached { reached.now.term < length images.now }
    ensures { IsTrue result ↔ TopAgrees images.now top reached.now }
{
    !reached.roles.items().is_empty()
        || is_same(images[reached.term as usize], images[top as usize])
}

/// Whether two elements are one.
fn is_same(e: Elem, f: Elem) -> bool
    ensures { IsTrue result ↔ (e ≡ f) }
{
    e == f
}
