//! Rows: what a base asserts of its individuals.
ghost use Rattle.std.specs.Prelude.{◌≡◌, IfOk};
ghost use Rattle.dl_base.specs.Rows.{numbered_row_cmp, row_cmp};

use crate::Name;
use plain_list::Items;
use std::alloc::{AllocError, Global};
use std::cmp::Ordering;

/// A row by the numbers of its names: concepts and roles by their places in an ontology, individuals by those in a
/// book of names.
#[derive(Clone, Copy, Debug, PartialEq, Eq, PartialOrd, Ord)]
pub enum Row {
    /// The individual is in the concept.
    Concept { concept: u32, individual: u32 },
    /// The role leads from one individual to another.
    Role { role: u32, from: u32, to: u32 },
}

impl Row {
    /// How the rows stand to each other in the order of rows by numbers.
    pub fn compared(&self, other: &Row) -> Ordering
        ensures { result ≡ numbered_row_cmp self.now other.now }
    {
        self.cmp(other)
    }
}

/// A row by its names. Rows are ordered with concept rows before role rows, then by their names from left to right.
#[derive(Debug, Drop, PartialEq, Eq, PartialOrd, Ord)]
pub enum NamedRow {
    /// The individual is in the concept.
    Concept { concept: Name, individual: Name },
    /// The role leads from one individual to another.
    Role { role: Name, from: Name, to: Name },
}

impl NamedRow {
    /// A row that equals this one.
    pub fn copy(&self, alloc: Global) -> Result<NamedRow, AllocError>
        ensures { IfOk result (λ row. row ≡ self.now) }
    {
        match self {
            NamedRow::Concept {
                concept,
                individual,
            } => Ok(NamedRow::Concept {
                concept: concept.copy(alloc)?,
                individual: individual.copy(alloc)?,
            }),
            NamedRow::Role { role, from, to } => Ok(NamedRow::Role {
                role: role.copy(alloc)?,
                from: from.copy(alloc)?,
                to: to.copy(alloc)?,
            }),
        }
    }

    /// How the rows stand to each other in the order of rows.
    pub fn compared(&self, other: &NamedRow) -> Ordering
        ensures { result ≡ row_cmp self.now other.now }
    {
        self.cmp(other)
    }
}

/// A row that comes or goes, by numbers.
#[derive(Clone, Copy, Debug, PartialEq, Eq)]
pub struct Change {
    /// Whether the row is added; else it is removed.
    pub add: bool,
    /// The row.
    pub row: Row,
}

/// A row that comes or goes, by names.
#[derive(Debug, Drop)]
pub struct NamedChange {
    /// Whether the row is added; else it is removed.
    pub add: bool,
    /// The row.
    pub row: NamedRow,
}

/// A list of rows by numbers.
pub type RowList = Items<Row>;

/// A list of rows by names.
pub type NamedRows = Items<NamedRow>;

/// A list of changes by names, in the order in which they are made.
pub type Changes = Items<NamedChange>;
