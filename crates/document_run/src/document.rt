//! A document, as far as its lines are read.
ghost use Rattle.std.specs.Prelude.{◌≡◌, ◌<◌, ◌≤◌, ◌^◌, ◌++◌, ◌∷◌, [], ◌↔◌, IsTrue, IfOk, IfErr, None, List, ℕ, length};
ghost use Rattle.host_io.specs.Causes.{raised};
ghost use Rattle.document_run.specs.Drafting.{Finishes, IsAskFault, KeepsDraft, KeepsPartial, NextLine, NextText, unknown_of};
ghost use Rattle.document_run.specs.Run.{IsFinal};

use crate::ending::DocumentEnding;
use crate::facts::Facts;
use crate::reason::Reason;
use dl_base::{Axiom, ExtendError, NamedRow, Ontology, Query};
use query_shape::{ShapeError, shape};
use script_reader::{CommandError, DocLine, read_doc_line};
use std::alloc::{AllocError, Global};

/// The lines so far, none of which is refused.
#[derive(Drop)]
pub struct Partial {
    pub ontology: Ontology,
    pub facts: Facts,
    /// The query, whose names the ontology has.
    pub asked: Option<Query>,
    /// How many lines there are so far.
    pub lines: u64,
}

/// The lines so far.
#[derive(Drop)]
pub enum Draft {
    /// None of them is refused.
    Reading(Partial),
    /// The first one that is refused, counted from 1.
    Refused { reason: Reason, line: u64 },
}

/// A whole document: what holds, and what is asked.
#[derive(Drop)]
pub struct Document {
    pub ontology: Ontology,
    pub facts: Facts,
    /// The query, whose names the ontology has.
    pub asked: Query,
}

impl Draft {
    /// The draft of no lines.
    pub fn new(alloc: Global) -> Result<Draft, AllocError>
        ensures { IfOk result (KeepsDraft []) }
    {
        let ontology = Ontology::new(alloc)?;
        Ok(Draft::Reading(Partial {
            ontology,
            facts: Facts::new(alloc),
            asked: None,
            lines: 0,
        }))
    }

    /// The draft with one more line that is not too long. Lines behind a refused one change nothing.
    pub fn take_line(self, alloc: Global, text: &[u8]) -> Result<Draft, AllocError>
        ensures { (lines : List (List ℕ)) → length lines < 2 ^ 63 → length text.now ≤ 4096 → KeepsDraft lines self
            → IfOk result (KeepsDraft (lines ++ text.now ∷ [])) }
    {
        match self {
            Draft::Refused { reason, line } => Ok(Draft::Refused { reason, line }),
            Draft::Reading(partial) => partial.take_text(alloc, text),
        }
    }

    /// The draft with one more line that is too long. Behind a refused one it changes nothing.
    pub fn take_long_line(self) -> Draft
        ensures { (lines : List (List ℕ)) (text : List ℕ) → length lines < 2 ^ 63 → 4096 < length text → KeepsDraft lines self
            → KeepsDraft (lines ++ text ∷ []) result }
    {
        match self {
            Draft::Refused { reason, line } => Draft::Refused { reason, line },
            Draft::Reading(partial) => partial.refused(Reason::TooLong),
        }
    }

    /// The document, where the lines are all of its lines.
    pub fn finish(self) -> Result<Document, DocumentEnding>
        ensures ending { IfErr result IsFinal }
        ensures whole { (lines : List (List ℕ)) → length lines < 2 ^ 63 → KeepsDraft lines self → Finishes lines result }
    {
        match self {
            Draft::Refused { reason, line } => Err(DocumentEnding::Refused {
                code: reason.code(),
                line,
            }),
            Draft::Reading(partial) => partial.finish(),
        }
    }
}

impl Partial {
    /// The document, where the lines are all of its lines. One without a query is refused at the line behind its last.
    fn finish(self) -> Result<Document, DocumentEnding>
        ensures ending { IfErr result IsFinal }
        ensures whole { (lines : List (List ℕ)) → length lines < 2 ^ 63 → KeepsPartial lines self → Finishes lines result }
    {
        let Partial {
            ontology,
            facts,
            asked,
            lines,
        } = self;
        match asked {
            Some(asked) => Ok(Document {
                ontology,
                facts,
                asked,
            }),
            None => Err(DocumentEnding::Refused {
                code: Reason::Misplaced.code(),
                line: lines.saturating_add(1),
            }),
        }
    }

    /// The draft whose next line is refused.
    fn refused(self, reason: Reason) -> Draft
        ensures { result ≡ Draft.Refused reason (raised self.lines) }
    {
        Draft::Refused {
            reason,
            line: self.lines.saturating_add(1),
        }
    }

    /// The draft with one more line that is not too long.
    fn take_text(self, alloc: Global, text: &[u8]) -> Result<Draft, AllocError>
        ensures { (lines : List (List ℕ)) → NextText lines text.now self → IfOk result (KeepsDraft (lines ++ text.now ∷ [])) }
    {
        match read_doc_line(alloc, text) {
            Ok(said) => self.take(alloc, said),
            Err(CommandError::Syntax) => Ok(self.refused(Reason::Misplaced)),
            Err(CommandError::TooLarge) => Ok(self.refuse_query(Reason::TooLarge)),
            Err(CommandError::Unsafe(_)) => Ok(self.refuse_query(Reason::Unsafe)),
            Err(CommandError::NoMemory) => Err(AllocError),
        }
    }

    /// The draft with one more line that says this.
    fn take(self, alloc: Global, said: DocLine) -> Result<Draft, AllocError>
        ensures { (lines : List (List ℕ)) (text : List ℕ) → NextLine lines text said self → IfOk result (KeepsDraft (lines ++ text ∷ [])) }
    {
        match said {
            DocLine::Blank => Ok(self.goes_on()),
            DocLine::Axiom(added) => self.take_axiom(alloc, &added),
            DocLine::Fact(row) => self.take_fact(&row),
            DocLine::Ask(query) => self.take_query(alloc, query),
        }
    }

    /// The draft with one more line that changes nothing else.
    fn goes_on(self) -> Draft
        ensures { result ≡ Draft.Reading (record self { lines = raised self.lines }) }
    {
        let Partial {
            ontology,
            facts,
            asked,
            lines,
        } = self;
        Draft::Reading(Partial {
            ontology,
            facts,
            asked,
            lines: lines.saturating_add(1),
        })
    }

    /// Whether an axiom may stand here: no fact and no query stands before it.
    fn takes_axioms(&self) -> bool
        ensures { IsTrue result ↔ ((length self.now.facts.rows ≡ 0) × (self.now.asked ≡ None)) }
    {
        self.facts.is_empty() && self.asked.is_none()
    }

    /// The draft with one more axiom.
    fn take_axiom(self, alloc: Global, added: &Axiom) -> Result<Draft, AllocError>
        ensures { (lines : List (List ℕ)) (text : List ℕ) → NextLine lines text (DocLine.Axiom added.now) self → IfOk result (KeepsDraft (lines ++ text ∷ [])) }
    {
        if !self.takes_axioms() {
            return Ok(self.refused(Reason::Misplaced));
        }
        let Partial {
            ontology,
            facts,
            asked,
            lines,
        } = self;
        match ontology.extend(alloc, added) {
            Ok(ontology) => {
                let partial = Partial {
                    ontology,
                    facts,
                    asked,
                    lines,
                };
                Ok(partial.goes_on())
            }
            Err(ExtendError::TooMany(_)) => Ok(Draft::Refused {
                reason: Reason::PassesLimit,
                line: lines.saturating_add(1),
            }),
            Err(ExtendError::NoMemory) => Err(AllocError),
        }
    }

    /// The draft with one more fact.
    fn take_fact(mut self, row: &NamedRow) -> Result<Draft, AllocError>
        ensures { (lines : List (List ℕ)) (text : List ℕ) → NextLine lines text (DocLine.Fact row.now) self → IfOk result (KeepsDraft (lines ++ text ∷ [])) }
    {
        if self.asked.is_some() {
            return Ok(self.refused(Reason::Misplaced));
        }
        match self.ontology.place_of(row) {
            None => Ok(self.refused(unknown_in(row))),
            Some(place) => {
                if self.facts.add(place, row)? {
                    Ok(self.goes_on())
                } else {
                    Ok(self.refused(Reason::TooManyFacts))
                }
            }
        }
    }

    /// The draft with the query.
    fn take_query(mut self, alloc: Global, query: Query) -> Result<Draft, AllocError>
        ensures { (lines : List (List ℕ)) (text : List ℕ) → NextLine lines text (DocLine.Ask query) self → IfOk result (KeepsDraft (lines ++ text ∷ [])) }
    {
        if self.asked.is_some() {
            return Ok(self.refused(Reason::Misplaced));
        }
        match shape(alloc, &query, &self.ontology) {
            Ok(_) => {
                self.asked = Some(query);
                Ok(self.goes_on())
            }
            Err(ShapeError::UnknownConcept(_)) => Ok(self.refused(Reason::UnknownConcept)),
            Err(ShapeError::UnknownRole(_)) => Ok(self.refused(Reason::UnknownRole)),
            Err(ShapeError::NoMemory) => Err(AllocError),
        }
    }

    /// The draft whose next line is a query that is refused for this reason, where it doesn't stand out of order.
    fn refuse_query(self, reason: Reason) -> Draft
        ensures { (lines : List (List ℕ)) (text : List ℕ) → NextText lines text self → IsAskFault text reason → KeepsDraft (lines ++ text ∷ []) result }
    {
        if self.asked.is_some() {
            self.refused(Reason::Misplaced)
        } else {
            self.refused(reason)
        }
    }
}

/// Why a row is refused whose concept or role no axiom names.
fn unknown_in(row: &NamedRow) -> Reason
    ensures { result ≡ unknown_of row.now }
{
    match row {
        NamedRow::Concept { .. } => Reason::UnknownConcept,
        NamedRow::Role { .. } => Reason::UnknownRole,
    }
}
