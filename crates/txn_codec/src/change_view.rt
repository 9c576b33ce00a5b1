//! Changes whose names stand in bytes.

ghost use Rattle.std.specs.Prelude.{◌≡◌, IfOk};
ghost use Rattle.txn_codec.specs.ChangeView.{row_viewed, change_viewed};

use crate::NameSlice;
use dl_base::{NamedChange, NamedRow};
use std::alloc::{AllocError, Global};

/// A row by its names, which stand in a payload.
#[derive(Drop)]
pub enum RowView<'a> {
    /// The individual is in the concept.
    Concept {
        concept: NameSlice<'a>,
        individual: NameSlice<'a>,
    },
    /// The role leads from one individual to another.
    Role {
        role: NameSlice<'a>,
        from: NameSlice<'a>,
        to: NameSlice<'a>,
    },
}

/// A row that comes or goes, by its names, which stand in a payload.
#[derive(Drop)]
pub struct ChangeView<'a> {
    /// Whether the row is added; else it is removed.
    pub add: bool,
    /// The row.
    pub row: RowView<'a>,
}

impl<'a> RowView<'a> {
    /// The same row, with memory of its own.
    pub fn to_row(&self, alloc: Global) -> Result<NamedRow, AllocError>
        ensures { IfOk result (λ row. row ≡ row_viewed self.now) }
    {
        match self {
            RowView::Concept {
                concept,
                individual,
            } => Ok(NamedRow::Concept {
                concept: concept.to_name(alloc)?,
                individual: individual.to_name(alloc)?,
            }),
            RowView::Role { role, from, to } => Ok(NamedRow::Role {
                role: role.to_name(alloc)?,
                from: from.to_name(alloc)?,
                to: to.to_name(alloc)?,
            }),
        }
    }
}

impl<'a> ChangeView<'a> {
    /// The same change, with memory of its own.
    pub fn to_change(&self, alloc: Global) -> Result<NamedChange, AllocError>
        ensures { IfOk result (λ change. change ≡ change_viewed self.now) }
    {
        Ok(NamedChange {
            add: self.add,
            row: self.row.to_row(alloc)?,
        })
    }
}
