//! The facts of a document, by numbers.
ghost use Rattle.std.specs.Prelude.{◌≡◌, ◌≢◌, ◌≤◌, ◌↔◌, ◌++◌, ◌∷◌, [], IsTrue, IfOk, OnOk, MatchBool, List, AllPairs, length};
ghost use Rattle.assert_tables.specs.Rows.{AreRisingRows};
ghost use Rattle.dl_base.specs.Axiom.{with_names};
ghost use Rattle.dl_base.specs.Numbers.{IsPlaceOf, NumbersRow, names_in};
ghost use Rattle.dl_base.specs.Ontology.{Terminology, IsTerminology};
ghost use Rattle.dl_base.specs.declared.row.NamedRow.{NamedRow as AnyRow};
ghost use Rattle.document_run.specs.Document.{TooManyFacts};
ghost use Rattle.document_run.specs.Facts.{KeepsFacts};

use assert_tables::GatheredRows;
use dl_base::{NameBook, NamedRow, Row};
use std::alloc::{AllocError, Global};

/// The most rows of a document.
const MOST_ROWS: u64 = 1_000_000;

/// The most individuals of a document.
const MOST_INDIVIDUALS: usize = 65_536;

/// The individuals in the order in which they were first named, and the rows by their numbers, which are put in order together.
#[derive(Drop)]
pub struct Facts {
    pub individuals: NameBook,
    pub rows: GatheredRows,
}

impl Facts {
    /// No facts. It takes no memory.
    pub fn new(alloc: Global) -> Facts
        ensures individuals { result.individuals ≡ [] }
        ensures rows { result.rows ≡ [] }
    {
        Facts {
            individuals: NameBook::new(alloc),
            rows: GatheredRows::new(alloc),
        }
    }

    /// Whether there is no fact.
    pub fn is_empty(&self) -> bool
        ensures { IsTrue result ↔ (length self.now.rows ≡ 0) }
    {
        self.rows.is_empty()
    }

    /// Adds a row, whose concept or role has this place, and answers whether the facts are within the limits. Else they
    /// are of no use, and neither are they after `AllocError`. A row counts once however often it is added.
    pub fn add(&mut self, place: u32, row: &NamedRow) -> Result<bool, AllocError>
        ensures { (o : Terminology) (asserted : List AnyRow) → IsTerminology o → KeepsFacts o asserted self.old → IsPlaceOf o row.now place
            → IfOk result (λ fits. MatchBool fits (KeepsFacts o (asserted ++ row.now ∷ []) self.new) (TooManyFacts (asserted ++ row.now ∷ []))) }
    {
        if !self.are_within()? {
            return Ok(false);
        }
        let row = self.numbered(place, row)?;
        self.rows.add(row)?;
        self.are_within()
    }

    /// Whether the facts are within the limits.
    fn are_within(&mut self) -> Result<bool, AllocError>
        ensures within { IfOk result (λ within. IsTrue within ↔ ((length self.new.rows ≤ 1000000) × (length self.new.individuals ≤ 65536))) }
        ensures individuals { self.new.individuals ≡ self.old.individuals }
        ensures rows { OnOk result (self.new.rows ≡ self.old.rows) }
        ensures distinct { AllPairs (λ x y. x ≢ y) self.new.individuals }
        ensures rising { OnOk result (AreRisingRows self.new.rows) }
    {
        let individuals = self.individuals.len();
        let few = self.rows.has_at_most(MOST_ROWS)?;
        Ok(few && individuals <= MOST_INDIVIDUALS)
    }

    /// The row by numbers, of which new individuals get the next ones.
    fn numbered(&mut self, place: u32, row: &NamedRow) -> Result<Row, AllocError>
        requires { length self.old.individuals ≤ 65536 }
        ensures rows { self.new.rows ≡ self.old.rows }
        ensures names { OnOk result (self.new.individuals ≡ with_names self.old.individuals (names_in row.now)) }
        ensures numbers { (o : Terminology) → IsPlaceOf o row.now place → IfOk result (NumbersRow o self.new.individuals row.now) }
    {
        match row {
            NamedRow::Concept { individual, .. } => Ok(Row::Concept {
                concept: place,
                individual: self.individuals.intern(individual)?,
            }),
            NamedRow::Role { from, to, .. } => Ok(Row::Role {
                role: place,
                from: self.individuals.intern(from)?,
                to: self.individuals.intern(to)?,
            }),
        }
    }
}
