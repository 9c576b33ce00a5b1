//! The syntax trees of axioms.

use dl_base::{Items, Name, NamedBasic, NamedRole};

/// The members of a left side: its one basic concept, or those of its `And` in order.
pub type Members = Items<NamedBasic>;

/// Left sides, in order of the text.
pub type Sides = Items<Members>;

/// A right side.
#[derive(Debug, Drop)]
pub enum RightSide {
    /// The members of a side that might also stand on the left.
    Members(Members),
    /// `nothing`.
    Nothing,
}

/// An axiom as the text writes it. Left sides have one to eight members.
#[derive(Debug, Drop)]
pub enum AxiomTree {
    /// Whatever is in the left side is in the right one.
    SubClassOf(Members, RightSide),
    /// Whatever is in one side is in the other.
    Equivalent(Members, Members),
    /// Nothing is in two of the sides, of which there are two to eight.
    Disjoint(Sides),
    /// Whatever has a successor by the role is in the right side.
    Domain(NamedRole, RightSide),
    /// Whatever is a successor by the role is in the right side.
    Range(NamedRole, RightSide),
    /// There is a concept of this name.
    Class(Name),
    /// There is a role of this name.
    Property(Name),
}
