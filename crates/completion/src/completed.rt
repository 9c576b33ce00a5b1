//! What is completed of asserted rows.
ghost use Rattle.std.specs.Prelude.{◌≡◌, ◌≤◌, ◌<◌, ◌+◌, ℕ, List, All, IfOk, MatchOption, None, Some, length};
ghost use Rattle.assert_tables.specs.Rows.{individuals_of};
ghost use Rattle.completion.specs.Completed.{IsCompletionOf, IsFirstBook};
ghost use Rattle.completion.specs.Individuals.{IsKept, IsLeastNumber, found_at};
ghost use Rattle.completion.specs.Named.{IsNamedCompletion};
ghost use Rattle.dl_base.specs.Numbers.{StandFor};
ghost use Rattle.completion.specs.Numbered.{IsRowOf};
ghost use Rattle.completion.specs.TableRows.{table_of};
ghost use Rattle.dl_base.specs.declared.row.NamedRow.{NamedRow};
ghost use Rattle.completion.specs.declared.individuals.AtIndividual.{AtIndividual as AnyAt};
ghost use Rattle.horn_closure.specs.Closure.{IsScratchOf};
ghost use Rattle.role_graph.specs.Graph.{IsGraphOf};
ghost use Rattle.witness_book.specs.Witnesses.{SetsLive};

use crate::fill::table_rows;
use crate::individuals::{AtIndividual, at_individuals, next_in};
use crate::rows::TableRows;
use assert_tables::Assertions;
use dl_base::RoleSet;
use horn_closure::{Closed, Rules, Scratch, Steps};
use role_graph::RoleGraph;
use std::alloc::{AllocError, Global};
use std::collections::BTreeMap;
use std::marker::Model;
use std::sync::ledger::Ledger;
use witness_book::WitnessBook;

/// What an ontology derives from asserted rows: the closure of each individual that they name, the book of the witnesses
/// that are needed, and the rows of the completed tables. Memory and time follow the rows and their individuals, however great the numbers are.
#[derive(Drop)]
pub struct Completed {
    individuals: BTreeMap<u32, AtIndividual>,
    book: WitnessBook,
    table: TableRows,
}

impl Model for Completed {
    ghost use Rattle.completion.specs.Completed.{Completion};
    ghost use Rattle.completion.specs.TableRows.{table_of};

    ghost Value = { Completion };

    ghost view = { λ c. record { individuals = c.individuals.entries; book = c.book; rows = table_of c.table } };
}

impl Completed {
    /// What the ontology derives from the rows. It takes at most one step for each individual that they name.
    pub fn afresh<L: Ledger>(
        alloc: Global,
        rules: &Rules,
        graph: &RoleGraph,
        rows: &Assertions,
        scratch: &mut Scratch,
        steps: &mut Steps<L>,
    ) -> Result<Completed, AllocError>
        requires graph { IsGraphOf rules.now graph.now }
        requires scratch { IsScratchOf rules.now scratch.old }
        requires within { All (IsRowOf rules.now) rows.now }
        ensures completion { IfOk result (IsCompletionOf rules.now rows.now) }
        ensures first { IfOk result (λ c. IsFirstBook rules.now rows.now c.book) }
        ensures named { (names : List (List ℕ)) (these : List NamedRow) → StandFor rules.now names rows.now these → IfOk result (IsNamedCompletion rules.now names these) }
        ensures scratch { scratch.new ≡ scratch.old }
        ensures most { steps.new ≤ steps.old + length (individuals_of rows.now) }
        ensures least { steps.old ≤ steps.new }
    {
        let unused = WitnessBook::new(alloc, rules.roles().len() as u32)?;
        renewed(alloc, rules, graph, rows, unused, scratch, steps)
    }

    /// What the ontology derives from other rows. A role that stays live keeps its generation, and one that becomes live
    /// gets the next. This stays as it is, so that it can be used on, whatever becomes of the other. It takes at most one
    /// step for each individual that the rows name.
    pub fn renew<L: Ledger>(
        &self,
        alloc: Global,
        rules: &Rules,
        graph: &RoleGraph,
        rows: &Assertions,
        scratch: &mut Scratch,
        steps: &mut Steps<L>,
    ) -> Result<Completed, AllocError>
        requires graph { IsGraphOf rules.now graph.now }
        requires scratch { IsScratchOf rules.now scratch.old }
        requires within { All (IsRowOf rules.now) rows.now }
        requires roles { self.now.book.roles ≡ length rules.now.roles }
        requires calls { self.now.book.calls < 4000000000 }
        ensures completion { IfOk result (IsCompletionOf rules.now rows.now) }
        ensures book { IfOk result (λ c. SetsLive self.now.book c.book.live c.book) }
        ensures named { (names : List (List ℕ)) (these : List NamedRow) → StandFor rules.now names rows.now these → IfOk result (IsNamedCompletion rules.now names these) }
        ensures scratch { scratch.new ≡ scratch.old }
        ensures most { steps.new ≤ steps.old + length (individuals_of rows.now) }
        ensures least { steps.old ≤ steps.new }
    {
        let before = self.book.copy(alloc)?;
        renewed(alloc, rules, graph, rows, before, scratch, steps)
    }

    /// The book of the witnesses. It takes no memory, nor do the calls below.
    pub fn book(&self) -> &WitnessBook
        ensures { result.now ≡ self.now.book }
    {
        &self.book
    }

    /// The least individual above `after`, or of all; none where there is none.
    pub fn next_individual(&self, after: Option<u32>) -> Option<u32>
        ensures { IsLeastNumber (IsKept self.now.individuals) after result }
    {
        next_in(&self.individuals, after)
    }

    /// What is derived at the individual of this number, or `None` exactly where it is none of the rows' individuals.
    pub fn closed_of(&self, individual: u32) -> Option<&Closed>
        ensures { MatchOption result
            (found_at self.now.individuals individual ≡ None)
            (λ c. (x : AnyAt) × (found_at self.now.individuals individual ≡ Some x) × (c.now ≡ x.closed)) }
    {
        match self.individuals.get(&individual) {
            Some(at) => Some(&at.closed),
            None => None,
        }
    }

    /// The rows of the tables.
    pub(crate) fn rows(&self) -> &TableRows
        ensures { self.now.rows ≡ table_of result.now }
    {
        &self.table
    }
}

/// What the ontology derives from the rows, where the book is the one of before.
fn renewed<L: Ledger>(
    alloc: Global,
    rules: &Rules,
    graph: &RoleGraph,
    rows: &Assertions,
    before: WitnessBook,
    scratch: &mut Scratch,
    steps: &mut Steps<L>,
) -> Result<Completed, AllocError>
    requires graph { IsGraphOf rules.now graph.now }
    requires scratch { IsScratchOf rules.now scratch.old }
    requires within { All (IsRowOf rules.now) rows.now }
    requires roles { before.roles ≡ length rules.now.roles }
    requires calls { before.calls < 4000000000 }
    ensures completion { IfOk result (IsCompletionOf rules.now rows.now) }
    ensures book { IfOk result (λ c. SetsLive before c.book.live c.book) }
    ensures named { (names : List (List ℕ)) (these : List NamedRow) → StandFor rules.now names rows.now these → IfOk result (IsNamedCompletion rules.now names these) }
    ensures scratch { scratch.new ≡ scratch.old }
    ensures most { steps.new ≤ steps.old + length (individuals_of rows.now) }
    ensures least { steps.old ≤ steps.new }
{
    let mut pointed = RoleSet::new();
    let individuals = at_individuals(alloc, rules, rows, &mut pointed, scratch, steps)?;
    let live = graph.live(&pointed);
    let mut book = before;
    book.set_live(&live);
    let table = table_rows(alloc, rules, graph, rows, &individuals, &book)?;
    Ok(Completed {
        individuals,
        book,
        table,
    })
}
