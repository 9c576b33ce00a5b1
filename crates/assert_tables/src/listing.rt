// The rows as a list.
ghost use Rattle.std.specs.Prelude.{IfOk, OnOk};
ghost use Rattle.assert_tables.specs.Listing.{IsListOf, ListsFrom, ListsRow};

use crate::assertions::Assertions;
use dl_base::{Row, RowList};
use std::alloc::{AllocError, Global};

/// The rows as a list, each once.
pub fn listed(alloc: Global, rows: &Assertions) -> Result<RowList, AllocError>
    ensures { IfOk result (IsListOf rows.now) }
{
    let mut list = RowList::new(alloc);
    let mut after = None;
    while let Some(individual) = rows.next_individual(after) {
        list_from(individual, rows, &mut list)?;
        after = Some(individual);
    }
    Ok(list)
}

/// Appends the rows whose first individual this is.
fn list_from(individual: u32, rows: &Assertions, list: &mut RowList) -> Result<(), AllocError>
    ensures { OnOk result (ListsFrom individual rows.now list.old list.new) }
{
    for row in rows.rows_naming(individual) {
        list_row(individual, row, list)?;
    }
    Ok(())
}

/// Appends the row where its first individual is this one.
fn list_row(individual: u32, row: Row, list: &mut RowList) -> Result<(), AllocError>
    ensures { OnOk result (ListsRow individual row list.old list.new) }
{
    let first = match row {
        Row::Concept { individual, .. } => individual,
        Row::Role { from, .. } => from,
    };
    if first == individual {
        list.push(row)?;
    }
    Ok(())
}
