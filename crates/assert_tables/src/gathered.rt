//! Rows that are gathered one by one, and put in order together.
ghost use Rattle.std.specs.Prelude.{◌≡◌, ◌≤◌, ◌<◌, ◌+◌, ◌⊎◌, ◌↔◌, [], ℕ, Contains, IsTrue, IfOk, OnOk, length};
ghost use Rattle.assert_tables.specs.Gathered.{AreAdded, AreGathered, Settles};
ghost use Rattle.dl_base.specs.declared.row.Row.{Row as AnyRow};
ghost use Rattle.assert_tables.specs.Listing.{IsListOf};
ghost use Rattle.assert_tables.specs.Rows.{AreRisingRows, Gains, Loses, first_of, individuals_of, last_of};

use crate::assertions::Assertions;
use crate::listing::listed;
use crate::order::in_order;
use dl_base::{Row, RowList};
use std::alloc::{AllocError, Global};
use std::marker::Model;
use std::mem;

/// Rows that are gathered one by one: they wait, and are put in order together as soon as that is needed, which costs much less
/// than to put each in its place. Contracts see it as the rising list of the rows. After `AllocError` they are of no use.
#[derive(Drop)]
pub struct GatheredRows {
    settled: Assertions,
    waiting: Vec<Row>,
    /// Above the number of each individual.
    above: u64,
}

impl Model for GatheredRows {
    ghost use Rattle.std.specs.Prelude.{List};
    ghost use Rattle.dl_base.specs.declared.row.Row.{Row as AnyRow};
    ghost use Rattle.assert_tables.specs.Gathered.{AreGathered, with_rows};

    ghost Value = { List AnyRow };

    ghost view = { λ g. with_rows g.settled g.waiting.items };

    ghost invariant = { λ g. AreGathered g.settled g.waiting.items g.above };
}

impl GatheredRows {
    /// No rows. It takes no memory.
    pub fn new(alloc: Global) -> GatheredRows
        ensures { result ≡ [] }
    {
        GatheredRows {
            settled: Assertions::new(alloc),
            waiting: Vec::new(alloc),
            above: 0,
        }
    }

    /// Whether there is no row.
    pub fn is_empty(&self) -> bool
        ensures { IsTrue result ↔ (length self.now ≡ 0) }
    {
        self.waiting.is_empty() && self.settled.rows() == 0
    }

    /// Adds the row, which may be there already.
    pub fn add(&mut self, row: Row) -> Result<(), AllocError>
        ensures { OnOk result (Gains row self.old self.new) }
    {
        self.waiting.push(row)?;
        self.above = self.above.max(above(row));
        Ok(())
    }

    /// Removes the row, which needn't be there.
    pub fn del(&mut self, row: Row) -> Result<(), AllocError>
        ensures { OnOk result (Loses row self.old self.new) }
    {
        settle(&mut self.settled, &mut self.waiting)?;
        self.settled.del(row);
        Ok(())
    }

    /// Whether there are at most so many rows. They are put in order only where more are waiting.
    pub fn has_at_most(&mut self, rows: u64) -> Result<bool, AllocError>
        ensures few { IfOk result (λ few. IsTrue few ↔ (length self.old ≤ rows)) }
        ensures rows { OnOk result (self.new ≡ self.old) }
        ensures rising { OnOk result (AreRisingRows self.new) }
    {
        if are_at_most(self.settled.rows(), self.waiting.len() as u64, rows) {
            return Ok(true);
        }
        settle(&mut self.settled, &mut self.waiting)?;
        Ok(self.settled.rows() <= rows)
    }

    /// Whether the rows name at most so many individuals. They are put in order only where a greater number was ever named.
    pub fn name_at_most(&mut self, individuals: u64) -> Result<bool, AllocError>
        ensures few { IfOk result (λ few. IsTrue few ↔ (length (individuals_of self.old) ≤ individuals)) }
        ensures rows { OnOk result (self.new ≡ self.old) }
        ensures rising { OnOk result (AreRisingRows self.new) }
    {
        if self.above <= individuals {
            return Ok(true);
        }
        settle(&mut self.settled, &mut self.waiting)?;
        Ok(self.settled.individuals() <= individuals)
    }

    /// The rows in order.
    pub fn into_rows(self) -> Result<Assertions, AllocError>
        ensures { IfOk result (λ rows. rows ≡ self) }
    {
        let GatheredRows {
            mut settled,
            mut waiting,
            ..
        } = self;
        settle(&mut settled, &mut waiting)?;
        Ok(settled)
    }

    /// The rows as a list, each once. Rows that only ever waited are sorted, and no tree is made of them.
    pub fn into_list(self) -> Result<RowList, AllocError>
        ensures { IfOk result (IsListOf self) }
    {
        let GatheredRows {
            mut settled,
            mut waiting,
            ..
        } = self;
        if settled.rows() == 0 {
            return Ok(RowList::from_vec(in_order(waiting)));
        }
        settle(&mut settled, &mut waiting)?;
        listed(*waiting.allocator(), &settled)
    }
}

/// The least number above those of the individuals that the row names.
fn above(row: Row) -> u64
    ensures { (first_of row < result) × (last_of row < result) }
{
    let greatest = match row {
        Row::Concept { individual, .. } => individual,
        Row::Role { from, to, .. } => from.max(to),
    };
    greatest as u64 + 1
}

/// Whether both together are at most so many.
fn are_at_most(one: u64, other: u64, most: u64) -> bool
    ensures { IsTrue result ↔ (one + other ≤ most) }
{
    one <= most && other <= most - one
}

/// Puts the waiting rows in order.
fn settle(settled: &mut Assertions, waiting: &mut Vec<Row>) -> Result<(), AllocError>
    requires { AreRisingRows settled.old }
    ensures settles { OnOk result (Settles settled.old waiting.old.items settled.new waiting.new.items) }
    ensures kept { (above : ℕ) → AreGathered settled.old waiting.old.items above → AreGathered settled.new waiting.new.items above }
{
    let alloc = *waiting.allocator();
    let rows = mem::replace(waiting, Vec::new(alloc));
    if settled.rows() == 0 {
        *settled = Assertions::of_rows(alloc, rows)?;
    } else {
        // The least first, so that neighbours are put in together.
        add_each(settled, in_order(rows).as_slice())?;
    }
    Ok(())
}

fn add_each(settled: &mut Assertions, rows: &[Row]) -> Result<(), AllocError>
    requires { AreRisingRows settled.old }
    ensures added { OnOk result (AreAdded rows.now settled.old settled.new) }
    ensures rising { AreRisingRows settled.new }
    ensures only { (r : AnyRow) → Contains settled.new r → Contains rows.now r ⊎ Contains settled.old r }
{
    for row in rows {
        settled.add(*row)?;
    }
    Ok(())
}
