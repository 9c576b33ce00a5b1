//! The reply to a document.
ghost use Rattle.std.specs.Prelude.{◌≡◌, ◌<◌, IfOk, All, List, ℕ};
ghost use Rattle.completion.specs.Individuals.{IsKept};
ghost use Rattle.completion.specs.Named.{IsNamedCompletion};
ghost use Rattle.dl_base.specs.Numbers.{StandFor};
ghost use Rattle.completion.specs.Numbered.{IsRowNamed, IsRowOf};
ghost use Rattle.dl_base.specs.Answers.{AreAnswers};
ghost use Rattle.dl_base.specs.Ontology.{IsTerminology};
ghost use Rattle.dl_base.specs.Query.{IsQuery};
ghost use Rattle.dl_base.specs.declared.row.NamedRow.{NamedRow};
ghost use Rattle.reply_text.specs.declared.reply.Reply.TheVariants as replies;
ghost use Rattle.role_graph.specs.Graph.{IsGraphOf};
ghost use Rattle.query_shape.specs.ShapeFault.{IsKnown};
ghost use Rattle.query_shape.specs.declared.numbering.ShapeError.TheVariants as errors;
ghost use Rattle.answer_core.specs.Binding.{IsBoundTo};
ghost use Rattle.document_run.specs.Drafting.{HasReply, IsWhole};
ghost use Rattle.document_run.specs.Sound.{IsSoundDocument, document_of};

use crate::document::Document;
use crate::facts::Facts;
use answer_core::{Bound, answers, bind};
use assert_tables::Assertions;
use clash_report::first_clash;
use completion::Completed;
use dl_base::{NameBook, Ontology, Query};
use horn_closure::{Rules, Steps};
use query_shape::ShapeError;
use reply_text::Reply;
use role_graph::RoleGraph;
use std::alloc::{AllocError, Global};
use std::sync::ledger::{Blank, Ledger};

/// The reply to the document: the first clash where there is one, else the certain answers to its query, in order.
pub fn document_reply<L: Ledger>(
    alloc: Global,
    document: Document,
    blank: Blank,
) -> Result<Reply, AllocError>
    requires name { blank.name ≡ L.name }
    requires parts { blank.parts ≡ L.parts }
    requires some { 0 < L.parts }
    requires sound { IsSoundDocument document }
    ensures { (lines : List (List ℕ)) → IsWhole lines document → IfOk result (HasReply lines document.ontology) }
{
    let Document {
        ontology,
        facts,
        asked,
    } = document;
    let Facts { individuals, rows } = facts;
    let rows = rows.into_rows()?;
    reply_by::<L>(alloc, &ontology, &individuals, &rows, &asked, blank)
}

/// The reply to the document of this ontology, these individuals, their rows and this query.
fn reply_by<L: Ledger>(
    alloc: Global,
    ontology: &Ontology,
    individuals: &NameBook,
    rows: &Assertions,
    asked: &Query,
    blank: Blank,
) -> Result<Reply, AllocError>
    requires name { blank.name ≡ L.name }
    requires parts { blank.parts ≡ L.parts }
    requires some { 0 < L.parts }
    requires sound { IsSoundDocument (document_of ontology.now individuals.now rows.now asked.now) }
    ensures { (lines : List (List ℕ)) → IsWhole lines (document_of ontology.now individuals.now rows.now asked.now) → IfOk result (HasReply lines ontology.now) }
{
    let mut steps: Steps<L> = Steps::new(blank);
    let (graph, tables) = completed(alloc, ontology, rows, &mut steps)?;
    let first = first_clash(alloc, &tables, &graph, ontology, individuals)?;
    match first {
        Some(clash) => Ok(Reply::Inconsistent(clash)),
        None => certain_answers(alloc, ontology, individuals, asked, &tables),
    }
}

/// What the ontology derives from the rows, and the graph of its roles.
fn completed<L: Ledger>(
    alloc: Global,
    ontology: &Ontology,
    rows: &Assertions,
    steps: &mut Steps<L>,
) -> Result<(RoleGraph, Completed), AllocError>
    requires { All (IsRowOf ontology.now) rows.now }
    ensures graph { IfOk result (λ made. IsGraphOf ontology.now made.0) }
    ensures kept { IfOk result (λ made. (n : ℕ) → IsKept made.1.individuals n → IsRowNamed rows.now n) }
    ensures named { (names : List (List ℕ)) (these : List NamedRow) → StandFor ontology.now names rows.now these
        → IfOk result (λ made. IsNamedCompletion ontology.now names these made.1) }
{
    let rules = Rules::new(alloc, ontology)?;
    let mut scratch = rules.scratch(alloc)?;
    let graph = RoleGraph::new(alloc, &rules, &mut scratch, steps)?;
    let tables = Completed::afresh(alloc, &rules, &graph, rows, &mut scratch, steps)?;
    Ok((graph, tables))
}

/// The certain answers to the query.
fn certain_answers(
    alloc: Global,
    ontology: &Ontology,
    individuals: &NameBook,
    asked: &Query,
    tables: &Completed,
) -> Result<Reply, AllocError>
    requires { All (IsKnown ontology.now) asked.now.atoms }
    ensures { (rows : List NamedRow) → IsTerminology ontology.now → IsQuery asked.now → IsNamedCompletion ontology.now individuals.now rows tables.now
        → IfOk result (λ shown. (keys : List (List (List ℕ))) × AreAnswers ontology.now rows asked.now keys × (shown ≡ replies.Answers keys)) }
{
    let bound = bound_query(alloc, ontology, asked, tables)?;
    let keys = answers(alloc, tables, individuals, &bound)?;
    Ok(Reply::Answers(keys))
}

/// The query, whose names the ontology has.
fn bound_query(
    alloc: Global,
    ontology: &Ontology,
    asked: &Query,
    tables: &Completed,
) -> Result<Bound, AllocError>
    requires { All (IsKnown ontology.now) asked.now.atoms }
    ensures { IfOk result (IsBoundTo ontology.now asked.now) }
{
    match bind(alloc, asked, ontology, tables) {
        Ok(bound) => Ok(bound),
        Err(error) => Err(want_of_memory(error)),
    }
}

/// The error of a query whose names the ontology has, which is want of memory alone.
fn want_of_memory(error: ShapeError) -> AllocError
    requires { error ≡ errors.NoMemory }
{
    match error {
        ShapeError::NoMemory => AllocError,
        ShapeError::UnknownConcept(_) => unreachable!(),
        ShapeError::UnknownRole(_) => unreachable!(),
    }
}
