//! The rows that name an individual, one after another.
ghost use Rattle.std.specs.Prelude.{◌≡◌};
ghost use Rattle.std.specs.Iterator.{YieldsFirst, item_count};
ghost use Rattle.assert_tables.specs.Naming.{front_of};

use crate::row_set::Mention;
use dl_base::Row;
use std::collections::btree_set::Range;
use std::marker::Model;

/// The rows that name an individual, from the least on. Contracts see it as the list of those that are left. It takes no
/// memory, and a step costs the same however many rows there are.
#[derive(Drop)]
pub struct RowsNaming<'a> {
    mentions: Range<'a, Mention>,
    individual: u32,
    ended: bool,
}

impl<'a> Model for RowsNaming<'a> {
    ghost use Rattle.std.specs.Prelude.{List};
    ghost use Rattle.dl_base.specs.declared.row.Row.{Row as AnyRow};
    ghost use Rattle.assert_tables.specs.Naming.{left_of};

    ghost Value = { List AnyRow };

    ghost view = { λ s. left_of s.ended s.individual s.mentions };
}

impl<'a> RowsNaming<'a> {
    /// The rows of the first mentions that are of the individual.
    pub(crate) fn new(mentions: Range<'a, Mention>, individual: u32) -> RowsNaming<'a>
        ensures { result ≡ front_of individual mentions.entry }
    {
        RowsNaming {
            mentions,
            individual,
            ended: false,
        }
    }
}

impl<'a> Iterator for RowsNaming<'a> {
    type Item = Row;

    ghost next_gives = { YieldsFirst (λ rows. rows) };

    ghost remaining = { item_count (λ rows. rows) };

    fn next(&mut self) -> Option<Row> {
        if self.ended {
            return None;
        }
        match self.mentions.next() {
            Some(mention) if mention.individual == self.individual => Some(mention.row),
            _ => {
                self.ended = true;
                None
            }
        }
    }
}
