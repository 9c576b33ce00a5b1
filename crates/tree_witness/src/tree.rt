//! The tree witness of an oriented atom.
ghost use Rattle.std.specs.Prelude.{◌≡◌, ◌↔◌, ◌<◌, ℕ, All, Contains, IfOk, IsTrue, MatchOption};
ghost use Rattle.std.specs.Bool.{OnFalse, OnTrue};
ghost use Rattle.tree_witness.specs.Trees.{IsOrientedBelow, IsThere, IsGrown, IsOpen, IsShut, IsNextAtom, IsNext, IsTreeOf, IsTreeBelow, HasTerm, CanExtend, ExtendsTree};
ghost use Rattle.tree_witness.specs.declared.oriented.OrientedAtom.{OrientedAtom as AnyAtom};

use crate::oriented::OrientedAtom;
use crate::step::{can_step, is_step, stepped};
use dl_base::{Items, Role, RolePath};
use std::alloc::{AllocError, Global};

/// A term that a tree witness reaches, with its list of roles.
#[derive(Debug, Drop)]
pub struct ReachedTerm {
    /// The number of the term.
    pub term: u32,
    /// Its roles, the last one first.
    pub roles: RolePath,
}

/// An oriented atom that leads on from the term at a place of a tree.
#[derive(Clone, Copy)]
struct Next {
    place: usize,
    atom: OrientedAtom,
}

/// The tree witness of an oriented atom: each term with its roles, once, in the order in which they are found; or `None`
/// exactly where some term has two lists.
pub(crate) fn tree(
    alloc: Global,
    terms: usize,
    oriented: &[OrientedAtom],
    root: OrientedAtom,
) -> Result<Option<Items<ReachedTerm>>, AllocError>
    requires root { root.from < terms }
    requires oriented { All (IsOrientedBelow terms) oriented.now }
    ensures tree { IfOk result (IsTreeOf oriented.now root) }
    ensures below { IfOk result (IsTreeBelow terms) }
{
    let mut tree = Vec::with_capacity(alloc, terms)?;
    tree.push(ReachedTerm {
        term: root.from,
        roles: Items::new(alloc),
    })?;
    'grows: loop {
        let Some(next) = find_next(oriented, root.role, tree.as_slice()) else {
            return Ok(Some(Items::from_vec(tree)));
        };
        if has_term(tree.as_slice(), next.atom.to) {
            return Ok(None);
        }
        let added = extended(alloc, root.role, tree.as_slice(), next)?;
        tree.push(added)?;
    }
}

/// The term to which the atom leads, with its roles.
fn extended(
    alloc: Global,
    root: Role,
    tree: &[ReachedTerm],
    next: Next,
) -> Result<ReachedTerm, AllocError>
    requires { CanExtend root tree.now next.place next.atom }
    ensures { IfOk result (ExtendsTree root tree.now next.place next.atom) }
{
    let above = &tree[next.place];
    let roles = stepped(alloc, root, above.roles.items(), next.atom.role)?;
    Ok(ReachedTerm {
        term: next.atom.to,
        roles,
    })
}

/// An atom that leads to what isn't there yet, if any does.
fn find_next(oriented: &[OrientedAtom], root: Role, tree: &[ReachedTerm]) -> Option<Next>
    ensures { MatchOption result (IsGrown oriented.now root tree.now) (λ n. IsNext oriented.now root tree.now n.place n.atom) }
{
    for (place, above) in tree.iter().enumerate() {
        if let Some(atom) = next_atom(oriented, root, tree, above) {
            return Some(Next { place, atom });
        }
    }
    None
}

/// An atom that leads from this term to what isn't there yet, if any does.
fn next_atom(
    oriented: &[OrientedAtom],
    root: Role,
    tree: &[ReachedTerm],
    above: &ReachedTerm,
) -> Option<OrientedAtom>
    ensures { MatchOption result ((a : AnyAtom) → Contains oriented.now a → IsShut root tree.now above.now a) (IsNextAtom oriented.now root tree.now above.now) }
{
    for atom in oriented {
        if is_open(root, tree, above, *atom) {
            return Some(*atom);
        }
    }
    None
}

/// Whether the atom leads from this term to what isn't there yet.
fn is_open(root: Role, tree: &[ReachedTerm], above: &ReachedTerm, atom: OrientedAtom) -> bool
    ensures open { OnTrue result (IsOpen root tree.now above.now atom) }
    ensures shut { OnFalse result (IsShut root tree.now above.now atom) }
{
    if atom.from != above.term || !can_step(root, above.roles.items(), atom.role) {
        return false;
    }
    !is_there(root, tree, above.roles.items(), atom)
}

/// Whether what the atom leads to from these roles is there.
fn is_there(root: Role, tree: &[ReachedTerm], roles: &[Role], atom: OrientedAtom) -> bool
    ensures { IsTrue result ↔ IsThere root tree.now roles.now atom }
{
    for other in tree {
        if other.term == atom.to && is_step(root, roles, atom.role, other.roles.items()) {
            return true;
        }
    }
    false
}

/// Whether the term is there.
fn has_term(tree: &[ReachedTerm], term: u32) -> bool
    ensures { IsTrue result ↔ HasTerm tree.now term }
{
    for other in tree {
        if other.term == term {
            return true;
        }
    }
    false
}
