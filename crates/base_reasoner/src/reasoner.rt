//! What a base derives by its ontology.
ghost use Rattle.std.specs.Prelude.{◌≡◌, ◌<◌, ◌≤◌, ℕ, List, All, IfOk, MatchOption, OnErr, OnOk, length};
ghost use Rattle.assert_tables.specs.Rows.{individuals_of};
ghost use Rattle.answer_core.specs.Binding.{IsBoundTo};
ghost use Rattle.clash_report.specs.Report.{AreWithinNames, IsReported};
ghost use Rattle.completion.specs.Completed.{IsCompletionOf, IsFirstBook};
ghost use Rattle.completion.specs.Named.{IsNamedCompletion};
ghost use Rattle.completion.specs.Numbered.{IsRowOf};
ghost use Rattle.dl_base.specs.Answers.{AreAnswers};
ghost use Rattle.dl_base.specs.Numbers.{StandFor};
ghost use Rattle.dl_base.specs.Ontology.{Terminology as AnyTerminology};
ghost use Rattle.dl_base.specs.Query.{Question};
ghost use Rattle.dl_base.specs.declared.row.NamedRow.{NamedRow};
ghost use Rattle.query_shape.specs.ShapeFault.{IsKnown, IsShapeFault};
ghost use Rattle.query_shape.specs.declared.numbering.ShapeError.TheVariants as errors;
ghost use Rattle.base_reasoner.specs.Questions.{IsReplyToCheck, IsReplyToQuery};
ghost use Rattle.base_reasoner.specs.Renewal.{IsRenewed};
ghost use Rattle.base_engine.specs.Refusals.{LacksNameIn};
ghost use Rattle.table_report.specs.TableLines.{AreTableLines};
ghost use Rattle.witness_book.specs.Witnesses.{generation_of};

use answer_core::{Bound, answers, bind};
use assert_tables::Assertions;
use clash_report::first_clash;
use completion::Completed;
use dl_base::{Clash, NameBook, Ontology, Query};
use horn_closure::{Rules, Scratch, Steps};
use query_shape::{ShapeError, shape};
use reply_text::{Refusal, Reply, TableLines};
use role_graph::RoleGraph;
use std::alloc::{AllocError, Global};
use std::marker::Model;
use std::sync::ledger::Ledger;
use table_report::table_lines;

/// An ontology with its rules, their scratch and the graph of its roles, and the tables that are completed by it. Contracts see the
/// ontology and the tables.
#[derive(Drop)]
pub struct Reasoner {
    ontology: Ontology,
    rules: Rules,
    scratch: Scratch,
    graph: RoleGraph,
    tables: Completed,
}

impl Model for Reasoner {
    ghost use Rattle.base_reasoner.specs.Reasoned.{IsReasoner, Reasoned};

    ghost Value = { Reasoned };

    ghost view = { λ r. record { ontology = r.ontology; tables = r.tables } };

    ghost invariant = { λ r. IsReasoner r.ontology r.rules r.scratch r.graph };
}

impl Reasoner {
    /// The ontology, with the tables that are completed of the rows.
    pub fn new<L: Ledger>(
        alloc: Global,
        ontology: Ontology,
        rows: &Assertions,
        steps: &mut Steps<L>,
    ) -> Result<Reasoner, AllocError>
        requires within { All (IsRowOf ontology) rows.now }
        ensures ontology { IfOk result (λ r. r.ontology ≡ ontology) }
        ensures tables { IfOk result (λ r. IsCompletionOf ontology rows.now r.tables) }
        ensures first { IfOk result (λ r. IsFirstBook ontology rows.now r.tables.book) }
        ensures named { (names : List (List ℕ)) (these : List NamedRow) → StandFor ontology names rows.now these → IfOk result (λ r. IsNamedCompletion ontology names these r.tables) }
    {
        let rules = Rules::new(alloc, &ontology)?;
        let mut scratch = rules.scratch(alloc)?;
        let graph = RoleGraph::new(alloc, &rules, &mut scratch, steps)?;
        let tables = Completed::afresh(alloc, &rules, &graph, rows, &mut scratch, steps)?;
        Ok(Reasoner {
            ontology,
            rules,
            scratch,
            graph,
            tables,
        })
    }

    /// Completes the tables of other rows. Generations go on from those of before. At `AllocError` all is as it was.
    pub fn renew<L: Ledger>(
        &mut self,
        alloc: Global,
        rows: &Assertions,
        steps: &mut Steps<L>,
    ) -> Result<(), AllocError>
        requires within { All (IsRowOf self.old.ontology) rows.now }
        requires roles { self.old.tables.book.roles ≡ length self.old.ontology.roles }
        requires calls { self.old.tables.book.calls < 4000000000 }
        ensures renewed { OnOk result (IsRenewed rows.now self.old self.new) }
        ensures err { OnErr result (self.new ≡ self.old) }
        ensures counted { steps.old ≤ steps.new }
    {
        self.tables = self.tables.renew(
            alloc,
            &self.rules,
            &self.graph,
            rows,
            &mut self.scratch,
            steps,
        )?;
        Ok(())
    }

    /// The ontology. It takes no memory.
    pub fn ontology(&self) -> &Ontology
        ensures { result.now ≡ self.now.ontology }
    {
        &self.ontology
    }

    /// The first clash, or none exactly where there is none.
    fn clash(&self, alloc: Global, individuals: &NameBook) -> Result<Option<Clash>, AllocError>
        requires { AreWithinNames self.now.tables individuals.now }
        ensures { (rows : List NamedRow) → IsNamedCompletion self.now.ontology individuals.now rows self.now.tables → IfOk result (IsReported self.now.ontology rows) }
    {
        first_clash(
            alloc,
            &self.tables,
            &self.graph,
            &self.ontology,
            individuals,
        )
    }

    /// The reply to `check`.
    pub fn check(&self, alloc: Global, individuals: &NameBook) -> Result<Reply, AllocError>
        requires { AreWithinNames self.now.tables individuals.now }
        ensures { (rows : List NamedRow) → IsNamedCompletion self.now.ontology individuals.now rows self.now.tables → IfOk result (IsReplyToCheck self.now.ontology rows) }
    {
        match self.clash(alloc, individuals)? {
            Some(clash) => Ok(Reply::Inconsistent(clash)),
            None => Ok(Reply::Consistent),
        }
    }

    /// The reply to a query.
    pub fn ask(&self, alloc: Global, individuals: &NameBook, q: &Query) -> Result<Reply, AllocError>
        requires { AreWithinNames self.now.tables individuals.now }
        ensures { (rows : List NamedRow) → IsNamedCompletion self.now.ontology individuals.now rows self.now.tables → IfOk result (IsReplyToQuery self.now.ontology rows q.now) }
    {
        match bind(alloc, q, &self.ontology, &self.tables) {
            Ok(bound) => self.reply(alloc, individuals, q, &bound),
            Err(error) => Ok(Reply::Error(unknown(error)?)),
        }
    }

    /// The refusal of a query that has a name which the ontology lacks, and none exactly where it has all of them.
    pub fn unknown_name(&self, alloc: Global, q: &Query) -> Result<Option<Refusal>, AllocError>
        ensures { IfOk result (λ found. MatchOption found (All (IsKnown self.now.ontology) q.now.atoms) (LacksNameIn self.now.ontology q.now)) }
    {
        match shape(alloc, q, &self.ontology) {
            Ok(_) => Ok(None),
            Err(error) => Ok(Some(unknown(error)?)),
        }
    }

    /// The lines of the completed tables, each witness with its generation.
    pub fn lines(&self, alloc: Global, individuals: &NameBook) -> Result<TableLines, AllocError>
        ensures { (rows : List NamedRow) → IsNamedCompletion self.now.ontology individuals.now rows self.now.tables → IfOk result (AreTableLines self.now.ontology rows (generation_of self.now.tables.book)) }
    {
        table_lines(alloc, &self.tables, &self.ontology, individuals)
    }

    /// The reply to a query whose names the ontology has.
    fn reply(
        &self,
        alloc: Global,
        individuals: &NameBook,
        q: &Query,
        bound: &Bound,
    ) -> Result<Reply, AllocError>
        requires numbered { AreWithinNames self.now.tables individuals.now }
        requires bound { IsBoundTo self.now.ontology q.now bound.now }
        ensures { (rows : List NamedRow) → IsNamedCompletion self.now.ontology individuals.now rows self.now.tables → IfOk result (IsReplyToQuery self.now.ontology rows q.now) }
    {
        match self.clash(alloc, individuals)? {
            Some(clash) => Ok(Reply::Inconsistent(clash)),
            None => {
                let _ = q.atoms();
                Ok(Reply::Answers(answers(alloc, &self.tables, individuals, bound)?))
            }
        }
    }
}

/// The refusal of a query that the ontology has no shape for.
fn unknown(error: ShapeError) -> Result<Refusal, AllocError>
    ensures { (o : AnyTerminology) (q : Question) → IsShapeFault o q error → IfOk result (LacksNameIn o q) }
{
    match error {
        ShapeError::UnknownConcept(name) => Ok(Refusal::UnknownConcept(name)),
        ShapeError::UnknownRole(name) => Ok(Refusal::UnknownRole(name)),
        ShapeError::NoMemory => Err(AllocError),
    }
}
