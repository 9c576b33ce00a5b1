//! Clashes: where facts and ontology contradict each other.
use crate::{Name, NamedRole, Role};
use plain_list::Items;

/// A list of roles, by places of the ontology's list.
pub type RolePath = Items<Role>;

/// A list of roles by names.
pub type Path = Items<NamedRole>;

/// An element at which the whole body of an inclusion to nothing is derived.
#[derive(Debug, Drop)]
pub struct Clash {
    /// The number of the inclusion, counted from 1.
    pub inclusion: u32,
    /// The individual.
    pub name: Name,
    /// The roles that lead from the individual to the element; none where it is the individual itself.
    pub path: Path,
}
