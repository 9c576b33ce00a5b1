//! Elements that are sought in a list of rows.
ghost use Rattle.std.specs.Prelude.{◌≡◌, ◌↔◌, ◌++◌, ◌∷◌, [], Contains, IsTrue, List, Some};
ghost use Rattle.std.specs.Bool.{OnFalse, OnTrue};
ghost use Rattle.dl_base.specs.Tables.{AreCounted, IsAbove, IsLeastAbove};
ghost use Rattle.dl_base.specs.declared.element.Elem.{Elem as AnyElem};
ghost use Rattle.listed_tables.specs.Listed.{GivesElem, IsGivenBy, IsLower};
ghost use Rattle.listed_tables.specs.declared.tables.ListedRow.{ListedRow as AnyRow};

use crate::tables::ListedRow;
use dl_base::{Elem, Role};
use std::cmp::Ordering;

/// Which elements are sought.
#[derive(Clone, Copy)]
pub enum Sought {
    /// Those in the concept at this place.
    Members(u32),
    /// Those from which the role leads.
    Sources(Role),
    /// Those to which the role leads from this one.
    Targets(Role, Elem),
}

impl Sought {
    /// The element that the row gives.
    pub fn given_by(self, row: &ListedRow) -> Option<Elem>
        ensures { (e : AnyElem) → (result ≡ Some e) ↔ GivesElem self e row.now }
    {
        match (self, *row) {
            (Sought::Members(sought), ListedRow::Concept { concept, element })
                if concept == sought => { Some(element) }
            (Sought::Sources(sought), ListedRow::Role { role, from, to }) if role == sought.name =>
                { Some(if sought.inverse { to } else { from }) }
            (Sought::Targets(sought, start), ListedRow::Role { role, from, to })
                if role == sought.name => {
                let (first, last) = if sought.inverse {
                    (to, from)
                } else {
                    (from, to)
                };
                if first == start { Some(last) } else { None }
            }
            _ => None,
        }
    }

    /// Whether the row gives the element.
    pub fn is_given(self, row: &ListedRow, e: Elem) -> bool
        ensures { IsTrue result ↔ GivesElem self e row.now }
    {
        self.given_by(row) == Some(e)
    }

    /// Whether some row gives the element.
    pub fn is_given_in(self, rows: &[ListedRow], e: Elem) -> bool
        ensures { IsTrue result ↔ IsGivenBy self rows.now e }
    {
        rows.iter().any(|row| self.is_given(row, e))
    }

    /// The least element above `after` that the rows give.
    pub fn least_above(self, rows: &[ListedRow], after: Option<Elem>) -> Option<Elem>
        ensures { IsLeastAbove (IsGivenBy self rows.now) after result }
    {
        let mut least = None;
        for row in rows {
            least = self.lesser(least, row, after);
        }
        least
    }

    /// The least element so far, or the row's, where that is less.
    fn lesser(self, least: Option<Elem>, row: &ListedRow, after: Option<Elem>) -> Option<Elem>
        ensures { (rows : List AnyRow) → IsLeastAbove (IsGivenBy self rows) after least → IsLeastAbove (IsGivenBy self (rows ++ row.now ∷ [])) after result }
    {
        match self.given_by(row) {
            Some(e) if is_above(after, e) => Some(lower(least, e)),
            _ => least,
        }
    }

    /// How many elements the rows give.
    pub fn count(self, rows: &[ListedRow]) -> u64
        ensures { AreCounted (IsGivenBy self rows.now) result }
    {
        let mut count = 0;
        for i in 0..rows.len() {
            count += u64::from(self.is_new(&rows[..i], &rows[i]));
        }
        count
    }

    /// Whether the row gives an element that those before it don't give.
    fn is_new(self, before: &[ListedRow], row: &ListedRow) -> bool
        ensures new { OnTrue result ((x : AnyElem) × GivesElem self x row.now × ((e : AnyElem) → GivesElem self e row.now → e ≡ x) × (IsGivenBy self before.now x → ⊥)) }
        ensures old { OnFalse result ((e : AnyElem) → GivesElem self e row.now → IsGivenBy self before.now e) }
    {
        match self.given_by(row) {
            Some(e) => !self.is_given_in(before, e),
            None => false,
        }
    }
}

/// Whether the element is above that one, or there is none that it has to be above.
fn is_above(after: Option<Elem>, e: Elem) -> bool
    ensures { IsTrue result ↔ IsAbove after e }
{
    match after {
        Some(after) => after.compared(&e) == Ordering::Less,
        None => true,
    }
}

/// The lower one of the two.
fn lower(least: Option<Elem>, e: Elem) -> Elem
    ensures { IsLower least e result }
{
    match least {
        Some(least) if least.compared(&e) == Ordering::Less => least,
        _ => e,
    }
}
