//! The tables.
ghost use Rattle.std.specs.Prelude.{◌≡◌, map};
ghost use Rattle.listed_tables.specs.Listed.{table_row};

use crate::sought::Sought;
use dl_base::{Basic, Elem, Role, Tables};
use std::marker::Model;

/// A row of completed tables.
#[derive(Clone, Copy)]
pub enum ListedRow {
    /// The element is in the concept at this place.
    Concept { concept: u32, element: Elem },
    /// The role name at this place leads from one element to the other.
    Role { role: u32, from: Elem, to: Elem },
}

/// Tables of the rows in a list, in any order and with repetitions. Each call goes through all of them, so they serve small
/// tests alone. No call takes memory.
#[derive(Drop)]
pub struct ListedTables {
    rows: Vec<ListedRow>,
}

impl Model for ListedTables {
    ghost use Rattle.std.specs.Prelude.{List, map};
    ghost use Rattle.dl_base.specs.Tables.{TableRow};
    ghost use Rattle.listed_tables.specs.Listed.{table_row};

    ghost Value = { List TableRow };

    ghost view = { λ t. map table_row t.rows.items };
}

impl ListedTables {
    /// The tables of these rows.
    pub fn new(rows: Vec<ListedRow>) -> ListedTables
        ensures { result ≡ map table_row rows.items }
    {
        ListedTables { rows }
    }
}

impl Tables for ListedTables {
    ghost rows = { λ t. t };

    fn has_concept(&self, concept: u32, e: Elem) -> bool {
        Sought::Members(concept).is_given_in(self.rows.as_slice(), e)
    }

    fn has_role(&self, role: u32, from: Elem, to: Elem) -> bool {
        let direct = Role {
            name: role,
            inverse: false,
        };
        Sought::Targets(direct, from).is_given_in(self.rows.as_slice(), to)
    }

    fn next_concept(&self, concept: u32, after: Option<Elem>) -> Option<Elem> {
        Sought::Members(concept).least_above(self.rows.as_slice(), after)
    }

    fn next_source(&self, role: Role, after: Option<Elem>) -> Option<Elem> {
        Sought::Sources(role).least_above(self.rows.as_slice(), after)
    }

    fn next_edge(&self, role: Role, from: Elem, after: Option<Elem>) -> Option<Elem> {
        Sought::Targets(role, from).least_above(self.rows.as_slice(), after)
    }

    fn count(&self, basic: Basic) -> u64 {
        let rows = self.rows.as_slice();
        match basic {
            Basic::Concept(concept) => Sought::Members(concept).count(rows),
            Basic::Exists(role) => Sought::Sources(role).count(rows),
        }
    }
}
