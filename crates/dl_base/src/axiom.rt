//! Axioms by names, as a text gives them.
ghost use Rattle.std.specs.Prelude.{◌≡◌};
ghost use Rattle.dl_base.specs.Axiom.{IsStatement};

use crate::Name;
use plain_list::Items;
use std::marker::Model;

/// A role by its name.
#[derive(Debug, Drop)]
pub struct NamedRole {
    /// The role name.
    pub name: Name,
    /// Whether it is the inverse of the named role.
    pub inverse: bool,
}

/// A basic concept by its name.
#[derive(Debug, Drop)]
pub enum NamedBasic {
    /// The concept of this name.
    Concept(Name),
    /// Whatever has a successor by the role.
    Exists(NamedRole),
}

/// The head of an inclusion, by its name.
#[derive(Debug, Drop)]
pub enum NamedHead {
    /// A basic concept.
    Basic(NamedBasic),
    /// There is no such thing.
    Nothing,
}

/// An inclusion by names.
#[derive(Debug, Drop)]
pub struct NamedInclusion {
    /// The members of the body, in order of the text.
    pub body: Items<NamedBasic>,
    /// The head.
    pub head: NamedHead,
}

/// A list of names.
pub type Names = Items<Name>;

/// A list of inclusions by names.
pub type NamedInclusions = Items<NamedInclusion>;

/// What an axiom of the text brings: its names, of which some may be known already, and its inclusions, both in
/// order of the text. Each inclusion has a member in its body, and its names are among the axiom's.
#[derive(Debug, Drop)]
pub struct Axiom {
    concepts: Names,
    roles: Names,
    inclusions: NamedInclusions,
}

impl Model for Axiom {
    ghost use Rattle.dl_base.specs.Axiom.{Statement, IsStatement};

    ghost Value = { Statement };

    ghost view = { λ a. record { concepts = a.concepts; roles = a.roles; inclusions = a.inclusions } };

    ghost invariant = { λ a. IsStatement (record { concepts = a.concepts; roles = a.roles; inclusions = a.inclusions }) };
}

impl Axiom {
    /// The axiom of these lists. It takes no memory.
    pub fn new(concepts: Names, roles: Names, inclusions: NamedInclusions) -> Axiom
        requires { IsStatement (record { concepts = concepts; roles = roles; inclusions = inclusions }) }
        ensures { result ≡ record { concepts = concepts; roles = roles; inclusions = inclusions } }
    {
        Axiom {
            concepts,
            roles,
            inclusions,
        }
    }

    /// The concept names, in order of the text.
    pub fn concepts(&self) -> &[Name]
        ensures names { result.now ≡ self.now.concepts }
        ensures statement { IsStatement self.now }
    {
        self.concepts.items()
    }

    /// The role names, in order of the text.
    pub fn roles(&self) -> &[Name]
        ensures { result.now ≡ self.now.roles }
    {
        self.roles.items()
    }

    /// The inclusions, in order of the text.
    pub fn inclusions(&self) -> &[NamedInclusion]
        ensures { result.now ≡ self.now.inclusions }
    {
        self.inclusions.items()
    }
}
