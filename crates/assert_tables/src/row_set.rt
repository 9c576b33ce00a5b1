//! A set of rows that is searched by row and by individual.
ghost use Rattle.std.specs.Prelude.{◌≡◌, ◌^◌, ◌<◌, ◌≤◌, ◌↔◌, [], length, IsTrue, IsSomeAnd, IfSome, IfNone, IfOk, OnOk, OnErr, MatchBool, Contains, map};
ghost use Rattle.std.specs.Bool.{OnTrue};
ghost use Rattle.std.specs.BTreeSet.{IsFromIterResult};
ghost use Rattle.assert_tables.specs.Rows.{AreRisingRows, Gains, IsNextIndividual, IsNextOf, Loses, first_of, individuals_of, last_of};
ghost use Rattle.assert_tables.specs.Gathered.{AreBeside};
ghost use Rattle.assert_tables.specs.Mentions.{IsLeastFrom, IsLow, start_at};
ghost use Rattle.assert_tables.specs.Naming.{AreRowsNaming};
ghost use Rattle.dl_base.specs.declared.row.Row.{Row as AnyRow};

use crate::naming::RowsNaming;
use crate::order::in_order;
use dl_base::Row;
use std::alloc::{AllocError, Global};
use std::collections::BTreeSet;
use std::marker::Model;
use std::ops::Bound;

/// A row beside an individual that it names.
#[derive(Clone, Copy, Debug, PartialEq, Eq, PartialOrd, Ord)]
pub(crate) struct Mention {
    pub(crate) individual: u32,
    pub(crate) row: Row,
}

/// The row that comes before all others.
const LEAST: Row = Row::Concept {
    concept: 0,
    individual: 0,
};

/// Rows, each kept once beside every individual that it names, so that a role row is found from both of its ends.
/// Contracts see it as the rising list of its rows.
#[derive(Drop)]
pub struct RowSet {
    mentions: BTreeSet<Mention>,
}

impl Model for RowSet {
    ghost use Rattle.std.specs.Prelude.{List};
    ghost use Rattle.dl_base.specs.declared.row.Row.{Row as AnyRow};

    ghost Value = { List AnyRow };

    ghost use Rattle.assert_tables.specs.Mentions.{AreMentions, rows_of};

    ghost view = { λ s. rows_of s.mentions.keys };

    ghost invariant = { λ s. AreMentions s.mentions.keys };
}

impl RowSet {
    /// No rows. It takes no memory.
    pub fn new(alloc: Global) -> RowSet
        ensures { result ≡ [] }
    {
        RowSet {
            mentions: BTreeSet::new(alloc),
        }
    }

    /// These rows, and how many individuals they name.
    pub fn of_rows(alloc: Global, rows: &[Row]) -> Result<(RowSet, usize), AllocError>
        ensures rising { IfOk result (λ made. AreRisingRows made.0) }
        ensures rows { IfOk result (λ made. (r : AnyRow) → Contains made.0 r ↔ Contains rows.now r) }
        ensures individuals { IfOk result (λ made. made.1 ≡ length (individuals_of made.0)) }
    {
        let mentions = in_order(mentions_of(alloc, rows)?);
        let individuals = in_order(individuals(alloc, mentions.as_slice())?).len();
        let mentions = set_of(alloc, mentions)?;
        Ok((RowSet { mentions }, individuals))
    }

    /// Whether the row is there.
    pub fn has(&self, row: Row) -> bool
        ensures { IsTrue result ↔ Contains self.now row }
    {
        self.mentions.contains(&first_mention(row))
    }

    /// Puts the row in, and answers whether it is new. After `AllocError` the rows are as before.
    pub fn put(&mut self, row: Row) -> Result<bool, AllocError>
        ensures added { IfOk result (λ added. MatchBool added (Contains self.old row → ⊥) (Contains self.old row)) }
        ensures ok { OnOk result (Gains row self.old self.new) }
        ensures err { OnErr result (self.new ≡ self.old) }
        ensures few { IfOk result (λ added. OnTrue added (length self.new < 2 ^ 63)) }
    {
        let first = first_mention(row);
        let last = last_mention(row);
        if !self.mentions.insert(first)? {
            return Ok(false);
        }
        match self.mentions.insert(last) {
            Ok(_) => {
                // A set says of its length that it is below 2 ^ 63.
                let _ = self.mentions.len();
                Ok(true)
            }
            Err(_) => {
                self.mentions.remove(&first);
                Err(AllocError)
            }
        }
    }

    /// Takes the row out, and answers whether it was there.
    pub fn take(&mut self, row: Row) -> bool
        ensures removed { MatchBool result (Contains self.old row) (Contains self.old row → ⊥) }
        ensures rows { Loses row self.old self.new }
    {
        let first = first_mention(row);
        let last = last_mention(row);
        let removed = self.mentions.remove(&first);
        self.mentions.remove(&last);
        removed
    }

    /// The least row above `after`, or of all, that names the individual.
    pub fn next_of(&self, individual: u32, after: Option<Row>) -> Option<Row>
        ensures { IsNextOf self.now individual after result }
    {
        let next = next_from(&self.mentions, start_of(individual, after))?;
        if next.individual == individual {
            Some(next.row)
        } else {
            None
        }
    }

    /// The rows that name the individual, from the least on.
    pub fn rows_naming(&self, individual: u32) -> RowsNaming<'_>
        ensures { AreRowsNaming self.now individual result }
    {
        let start = start_of(individual, None);
        RowsNaming::new(self.mentions.range((start, Bound::Unbounded)), individual)
    }

    /// The least individual above `after`, or of all, that a row names.
    pub fn next_individual(&self, after: Option<u32>) -> Option<u32>
        ensures { IsNextIndividual self.now after result }
    {
        let greatest = self.mentions.last()?.individual;
        let least = number_above(after, greatest)?;
        let next = next_from(&self.mentions, start_of(least, None))?;
        Some(next.individual)
    }
}

/// The set of these keys.
fn set_of<K: Ord + Drop>(alloc: Global, keys: Vec<K>) -> Result<BTreeSet<K>, AllocError>
    ensures { IfOk result (IsFromIterResult K.cmp keys.items) }
{
    keys.into_iter().collect(alloc)
}

/// Each row beside each individual that it names.
fn mentions_of(alloc: Global, rows: &[Row]) -> Result<Vec<Mention>, AllocError>
    ensures { IfOk result (λ mentions. AreBeside rows.now mentions.items) }
{
    let mut mentions = Vec::with_capacity(alloc, rows.len().saturating_mul(2))?;
    for row in rows {
        mentions.push(first_mention(*row))?;
        mentions.push(last_mention(*row))?;
    }
    Ok(mentions)
}

/// The individuals of the mentions, in their order.
fn individuals(alloc: Global, mentions: &[Mention]) -> Result<Vec<u32>, AllocError>
    ensures { IfOk result (λ names. names.items ≡ map (λ m. m.individual) mentions.now) }
{
    mentions
        .iter()
        .map(|mention| mention.individual)
        .collect(alloc)
}

/// The least number above `after`, or of all; none where the greatest isn't above it.
fn number_above(after: Option<u32>, greatest: u32) -> Option<u32>
    ensures found { IfSome result (IsLow after) }
    ensures none { IfNone result (IsSomeAnd after (λ a. greatest ≤ a)) }
{
    let Some(individual) = after else {
        return Some(0);
    };
    if individual < greatest {
        Some(individual + 1)
    } else {
        None
    }
}

/// Where the rows that name the individual begin behind `after`, or of all.
fn start_of(individual: u32, after: Option<Row>) -> Bound<Mention>
    ensures { result ≡ start_at individual after }
{
    match after {
        Some(row) => Bound::Excluded(Mention { individual, row }),
        None => Bound::Included(Mention {
            individual,
            row: LEAST,
        }),
    }
}

/// The least mention from the start on.
fn next_from(mentions: &BTreeSet<Mention>, start: Bound<Mention>) -> Option<Mention>
    ensures { IsLeastFrom mentions.now.keys start result }
{
    mentions.range((start, Bound::Unbounded)).next().copied()
}

/// The row beside the first individual that it names.
fn first_mention(row: Row) -> Mention
    ensures { result ≡ record { individual = first_of row; row = row } }
{
    let individual = match row {
        Row::Concept { individual, .. } => individual,
        Row::Role { from, .. } => from,
    };
    Mention { individual, row }
}

/// The row beside the last individual that it names, which may be the first one too.
fn last_mention(row: Row) -> Mention
    ensures { result ≡ record { individual = last_of row; row = row } }
{
    let individual = match row {
        Row::Concept { individual, .. } => individual,
        Row::Role { to, .. } => to,
    };
    Mention { individual, row }
}
