//! Elements of completed tables.
ghost use Rattle.std.specs.Prelude.{◌≡◌, ◌↔◌, IsTrue};
ghost use Rattle.dl_base.specs.Tables.{IsWitnessOf, elem_cmp};

use crate::Role;
use std::cmp::Ordering;

/// The one shared witness of a role, in one of its generations.
#[derive(Clone, Copy, Debug, PartialEq, Eq, PartialOrd, Ord)]
pub struct Witness {
    /// The role by which the witness is reached.
    pub role: Role,
    /// How often the role has become live, this time included.
    pub generation: u64,
}

/// An individual by its number, or a witness. Individuals come first.
#[derive(Clone, Copy, Debug, PartialEq, Eq, PartialOrd, Ord)]
pub enum Elem {
    /// The individual of this number.
    Named(u32),
    /// A witness.
    Shared(Witness),
}

impl Elem {
    /// How the elements stand to each other in the order of elements.
    pub fn compared(&self, other: &Elem) -> Ordering
        ensures { result ≡ elem_cmp self.now other.now }
    {
        self.cmp(other)
    }

    /// Whether this is a witness of the role, of whatever generation.
    pub fn is_witness_of(&self, role: Role) -> bool
        ensures { IsTrue result ↔ IsWitnessOf role self.now }
    {
        match *self {
            Elem::Named(_) => false,
            Elem::Shared(witness) => witness.role == role,
        }
    }
}

/// The witness that a role had when something was computed, or none where it was not live.
#[derive(Clone, Copy, Debug, PartialEq, Eq)]
pub struct Stamp {
    /// The role.
    pub role: Role,
    /// Its witness at that time.
    pub witness: Option<Witness>,
}
