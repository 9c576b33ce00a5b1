//! The rows that come and those that go.
ghost use Rattle.std.specs.Prelude.{◌≡◌, List, IfOk, OnOk};
ghost use Rattle.assert_tables.specs.Rows.{AreRisingRows, Gains, Loses};
ghost use Rattle.dl_base.specs.declared.row.Row.{Row as AnyRow};
ghost use Rattle.row_changes.specs.Difference.{AddsEach, IsDifference, RemovesEach};

use assert_tables::{Assertions, listed};
use dl_base::Row;
use std::alloc::{AllocError, Global};

/// The rows that are there now and weren't before, and those that were there and aren't now.
#[derive(Drop)]
pub struct Difference {
    /// The rows that came.
    pub come: Assertions,
    /// The rows that went.
    pub gone: Assertions,
}

impl Difference {
    /// That of rows which didn't change. It takes no memory.
    pub fn new(alloc: Global) -> Difference
        ensures { (rows : List AnyRow) → IsDifference rows rows result }
    {
        Difference {
            come: Assertions::new(alloc),
            gone: Assertions::new(alloc),
        }
    }

    /// Adds the row to the rows.
    pub fn add(&mut self, rows: &mut Assertions, row: Row) -> Result<(), AllocError>
        ensures rows { OnOk result (Gains row rows.old rows.new) }
        ensures differ { (first : List AnyRow) → IsDifference first rows.old self.old → OnOk result (IsDifference first rows.new self.new) }
    {
        if !rows.add(row)? {
            return Ok(());
        }
        if !self.gone.del(row) {
            self.come.add(row)?;
        }
        Ok(())
    }

    /// Removes the row from the rows.
    pub fn del(&mut self, rows: &mut Assertions, row: Row) -> Result<(), AllocError>
        ensures rows { OnOk result (Loses row rows.old rows.new) }
        ensures differ { (first : List AnyRow) → IsDifference first rows.old self.old → OnOk result (IsDifference first rows.new self.new) }
    {
        if !rows.del(row) {
            return Ok(());
        }
        if !self.come.del(row) {
            self.gone.add(row)?;
        }
        Ok(())
    }

    /// Makes the rows what they were.
    pub fn undo(&self, alloc: Global, rows: &mut Assertions) -> Result<(), AllocError>
        ensures { (first : List AnyRow) → AreRisingRows first → IsDifference first rows.old self.now → OnOk result (rows.new ≡ first) }
    {
        let come = listed(alloc, &self.come)?;
        let gone = listed(alloc, &self.gone)?;
        remove_each(come.items(), rows);
        add_each(gone.items(), rows)?;
        let _ = rows.rows();
        Ok(())
    }
}

/// Removes each row of the list.
fn remove_each(list: &[Row], rows: &mut Assertions)
    ensures { RemovesEach list.now rows.old rows.new }
{
    for row in list {
        rows.del(*row);
    }
}

/// Adds each row of the list.
fn add_each(list: &[Row], rows: &mut Assertions) -> Result<(), AllocError>
    ensures { OnOk result (AddsEach list.now rows.old rows.new) }
{
    for row in list {
        rows.add(*row)?;
    }
    Ok(())
}
