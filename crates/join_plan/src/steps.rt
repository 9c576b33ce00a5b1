//! Plans and their steps.
ghost use Rattle.std.specs.Prelude.{◌≡◌};

use dl_base::{Items, Role};
use std::marker::Model;

/// How an atom is gone through when its turn comes.
#[derive(Clone, Copy, Debug, PartialEq, Eq)]
pub enum AccessPath {
    /// The term gets each member of the concept.
    ScanConcept { concept: u32, term: u32 },
    /// The element of the term is looked up in the concept.
    ProbeConcept { concept: u32, term: u32 },
    /// The first term gets each element from which the role leads, and the other one what it leads to from there. Where
    /// both are one term, this is what the role leads back to.
    ScanRole { role: Role, from: u32, to: u32 },
    /// The other term gets whatever the role leads to from the element of the first one.
    WalkEdges { role: Role, from: u32, to: u32 },
    /// The elements of both terms are looked up as a pair of the role.
    CheckPair { role: Role, from: u32, to: u32 },
}

/// An atom whose turn it is.
#[derive(Clone, Copy, Debug, PartialEq, Eq)]
pub struct Step {
    /// The place of the atom among the shape's atoms, counted from 0.
    pub atom: usize,
    /// How it is gone through.
    pub path: AccessPath,
}

/// The atoms of a shape in the order in which they have their turns.
#[derive(Debug, Drop)]
pub struct Plan {
    pub(crate) steps: Items<Step>,
}

impl Model for Plan {
    ghost use Rattle.std.specs.Prelude.{List};
    ghost use Rattle.join_plan.specs.declared.steps.Step.{Step};

    ghost Value = { List Step };

    ghost view = { λ p. p.steps };
}

impl Plan {
    /// The steps, in order. It takes no memory.
    pub fn steps(&self) -> &[Step]
        ensures { result.now ≡ self.now }
    {
        self.steps.items()
    }
}
