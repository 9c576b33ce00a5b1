//! Asserted rows and how many there are.
ghost use Rattle.std.specs.Prelude.{◌≡◌, ◌↔◌, [], IsTrue, IfOk, OnOk, OnErr, MatchBool, Contains, length};
ghost use Rattle.assert_tables.specs.Naming.{AreRowsNaming};
ghost use Rattle.dl_base.specs.declared.row.Row.{Row as AnyRow};
ghost use Rattle.assert_tables.specs.Rows.{AreRisingRows, Gains, IsCountOfNew, IsNewcomer, IsNextIndividual, IsNextOf, Loses, individuals_of};

use crate::naming::RowsNaming;
use crate::order::in_order;
use crate::row_set::RowSet;
use dl_base::Row;
use std::alloc::{AllocError, Global};
use std::marker::Model;

/// The rows of a base by number, each once. A row is found by itself and by each individual that it names. Contracts
/// see it as the rising list of its rows. Memory and time follow the rows, however great their numbers are.
#[derive(Drop)]
pub struct Assertions {
    set: RowSet,
    rows: u64,
    individuals: u64,
}

impl Model for Assertions {
    ghost use Rattle.std.specs.Prelude.{List};
    ghost use Rattle.dl_base.specs.declared.row.Row.{Row as AnyRow};
    ghost use Rattle.assert_tables.specs.Rows.{AreCounts};

    ghost Value = { List AnyRow };

    ghost view = { λ a. a.set };

    ghost invariant = { λ a. AreCounts a.set a.rows a.individuals };
}

impl Assertions {
    /// No rows. It takes no memory.
    pub fn new(alloc: Global) -> Assertions
        ensures { result ≡ [] }
    {
        Assertions {
            set: RowSet::new(alloc),
            rows: 0,
            individuals: 0,
        }
    }

    /// These rows, which may come in any order and repeatedly. It costs no more than to sort them.
    pub fn of_rows(alloc: Global, rows: Vec<Row>) -> Result<Assertions, AllocError>
        ensures rising { IfOk result AreRisingRows }
        ensures rows { IfOk result (λ a. (r : AnyRow) → Contains a r ↔ Contains rows.items r) }
    {
        let rows = in_order(rows);
        let (set, individuals) = RowSet::of_rows(alloc, rows.as_slice())?;
        Ok(Assertions {
            set,
            rows: rows.len() as u64,
            individuals: individuals as u64,
        })
    }

    /// Adds the row, and answers whether it is new. After `AllocError` the rows are as before.
    pub fn add(&mut self, row: Row) -> Result<bool, AllocError>
        ensures added { IfOk result (λ added. MatchBool added (Contains self.old row → ⊥) (Contains self.old row)) }
        ensures ok { OnOk result (Gains row self.old self.new) }
        ensures err { OnErr result (self.new ≡ self.old) }
    {
        let newcomers = newcomers(&self.set, row);
        let added = self.set.put(row)?;
        if added {
            self.rows += 1;
            self.individuals += newcomers;
        }
        Ok(added)
    }

    /// Removes the row, and answers whether it was there.
    pub fn del(&mut self, row: Row) -> bool
        ensures removed { MatchBool result (Contains self.old row) (Contains self.old row → ⊥) }
        ensures rows { Loses row self.old self.new }
    {
        let removed = self.set.take(row);
        if removed {
            self.rows -= 1;
            self.individuals -= newcomers(&self.set, row);
        }
        removed
    }

    /// Whether the row is there.
    pub fn has(&self, row: Row) -> bool
        ensures { IsTrue result ↔ Contains self.now row }
    {
        self.set.has(row)
    }

    /// The least row above `after`, or of all, that names the individual; none where there is none.
    pub fn next_of(&self, individual: u32, after: Option<Row>) -> Option<Row>
        ensures { IsNextOf self.now individual after result }
    {
        self.set.next_of(individual, after)
    }

    /// The rows that name the individual, from the least on.
    pub fn rows_naming(&self, individual: u32) -> RowsNaming<'_>
        ensures { AreRowsNaming self.now individual result }
    {
        self.set.rows_naming(individual)
    }

    /// The least individual above `after`, or of all, that a row names; none where there is none.
    pub fn next_individual(&self, after: Option<u32>) -> Option<u32>
        ensures { IsNextIndividual self.now after result }
    {
        self.set.next_individual(after)
    }

    /// How many rows there are.
    pub fn rows(&self) -> u64
        ensures count { result ≡ length self.now }
        ensures rising { AreRisingRows self.now }
    {
        self.rows
    }

    /// How many individuals the rows name.
    pub fn individuals(&self) -> u64
        ensures { result ≡ length (individuals_of self.now) }
    {
        self.individuals
    }
}

/// How many of the individuals that the row names are named by no row of the set.
fn newcomers(set: &RowSet, row: Row) -> u64
    ensures { IsCountOfNew row (individuals_of set.now) result }
{
    match row {
        Row::Concept { individual, .. } => newcomer(set, individual),
        Row::Role { from, to, .. } => {
            if from == to {
                newcomer(set, from)
            } else {
                newcomer(set, from) + newcomer(set, to)
            }
        }
    }
}

/// 1 where no row of the set names the individual, else 0.
fn newcomer(set: &RowSet, individual: u32) -> u64
    ensures { IsNewcomer individual (individuals_of set.now) result }
{
    match set.next_of(individual, None) {
        Some(_) => 0,
        None => 1,
    }
}
