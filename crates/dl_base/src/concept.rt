//! Roles, basic concepts and inclusions, by the places of an ontology's lists.
ghost use Rattle.std.specs.Prelude.{◌≡◌, not, IfOk};

use plain_list::Items;
use std::alloc::{AllocError, Global};

/// A role name, by its place among the ontology's role names, or its inverse.
#[derive(Clone, Copy, Debug, PartialEq, Eq, PartialOrd, Ord)]
pub struct Role {
    /// The place of the name, counted from 0.
    pub name: u32,
    /// Whether it is the inverse of the named role.
    pub inverse: bool,
}

impl Role {
    /// The inverse role; that of an inverse is the named role itself.
    pub fn inverted(self) -> Role
        ensures { result ≡ record { name = self.name; inverse = not self.inverse } }
    {
        Role {
            name: self.name,
            inverse: !self.inverse,
        }
    }
}

/// A concept name, by its place among the ontology's concept names, or what has a successor by a role.
#[derive(Clone, Copy, Debug, PartialEq, Eq)]
pub enum Basic {
    /// The concept name at this place, counted from 0.
    Concept(u32),
    /// Whatever has a successor by the role.
    Exists(Role),
}

/// What an inclusion says of whatever is in each member of its body.
#[derive(Clone, Copy, Debug, PartialEq, Eq)]
pub enum Head {
    /// It is in this basic concept.
    Basic(Basic),
    /// There is no such thing.
    Nothing,
}

/// The members of an inclusion's body, repeated members included.
pub type Body = Items<Basic>;

/// Whatever is in each member of the body is in the head.
#[derive(Debug, Drop)]
pub struct Inclusion {
    /// One to eight basic concepts.
    pub body: Body,
    /// The basic concept that follows from them, or `Nothing`.
    pub head: Head,
}

impl Inclusion {
    /// An inclusion that equals this one.
    pub fn copy(&self, alloc: Global) -> Result<Inclusion, AllocError>
        ensures { IfOk result (λ i. i ≡ self.now) }
    {
        let body = Items::from_slice(alloc, self.body.items())?;
        Ok(Inclusion {
            body,
            head: self.head,
        })
    }
}
