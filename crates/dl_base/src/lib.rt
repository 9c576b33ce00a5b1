//! What every other crate speaks of: names, ontologies, rows and queries, and in `specs/` the definitions of the logic.
#![tactic(auto)]

mod axiom;
mod book;
mod clash;
mod concept;
mod element;
pub mod laws;
mod name;
mod name_readers;
mod ontology;
mod query;
mod row;
mod sets;
mod tables;

pub use axiom::{Axiom, NamedBasic, NamedHead, NamedInclusion, NamedInclusions, NamedRole, Names};
pub use book::NameBook;
pub use clash::{Clash, Path, RolePath};
pub use concept::{Basic, Body, Head, Inclusion, Role};
pub use element::{Elem, Stamp, Witness};
pub use name::{Name, NameError};
pub use name_readers::{is_reserved, read_angled, read_name, read_variable, read_word};
pub use ontology::{ExtendError, Ontology, Which};
pub use plain_list::Items;
pub use query::{Atom, Atoms, Key, Keys, Query, Term, Vars};
pub use row::{Change, Changes, NamedChange, NamedRow, NamedRows, Row, RowList};
pub use sets::{BasicSet, PLACES, RoleSet, place};
pub use tables::{Hint, Tables};

#[cfg(test)]
mod copy_tests;
#[cfg(test)]
mod name_tests;
