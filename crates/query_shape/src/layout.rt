//! Shapes and their atoms.
ghost use Rattle.std.specs.Prelude.{◌≡◌, ◌<◌, length, slice_get, Some};
ghost use Rattle.query_shape.specs.Shape.{IsLayout};

use dl_base::{Items, Role, Term};
use std::marker::Model;

/// An atom by numbers.
#[derive(Clone, Copy, Debug, PartialEq, Eq)]
pub enum ShapeAtom {
    /// The term of this number is in the concept at this place of the ontology.
    Concept { concept: u32, term: u32 },
    /// The role leads from one term to the other. It stands for both directions.
    Role { role: Role, from: u32, to: u32 },
}

/// The terms of a query, numbered from 0 in the order in which they first occur, and its atoms by these numbers and by
/// the places of an ontology's names, one for each atom in order. Every term is in some atom.
#[derive(Debug, Drop)]
pub struct Shape {
    pub(crate) terms: Items<Term>,
    pub(crate) atoms: Items<ShapeAtom>,
}

impl Model for Shape {
    ghost use Rattle.query_shape.specs.Shape.{Layout, IsLayout};

    ghost Value = { Layout };

    ghost view = { λ s. record { terms = s.terms; atoms = s.atoms } };

    ghost invariant = { λ s. IsLayout (record { terms = s.terms; atoms = s.atoms }) };
}

impl Shape {
    /// How many distinct terms there are. It takes no memory.
    pub fn terms(&self) -> usize
        ensures count { result ≡ length self.now.terms }
        ensures layout { IsLayout self.now }
    {
        self.terms.items().len()
    }

    /// The term of a number. It takes no memory.
    pub fn term(&self, number: u32) -> &Term
        requires { number < length self.now.terms }
        ensures { slice_get self.now.terms number ≡ Some result.now }
    {
        &self.terms.items()[number as usize]
    }

    /// The atoms, in order. It takes no memory.
    pub fn atoms(&self) -> &[ShapeAtom]
        ensures list { result.now ≡ self.now.atoms }
        ensures layout { IsLayout self.now }
    {
        self.atoms.items()
    }
}
