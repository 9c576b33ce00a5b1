//! The reader of queries.

ghost use Rattle.std.specs.Prelude.{◌≡◌, ◌≤◌, IfOk, IfErr, length};
ghost use Rattle.grammar.specs.Reading.{Gives};
ghost use Rattle.dl_base.specs.Query.{HasBareVariables, IsQuery};
ghost use Rattle.cq_reader.specs.QueryReading.{question_at, query_and_blanks_at};
ghost use Rattle.cq_reader.specs.QueryFault.{MeansQuery, IsRefused, IsUnfit};
ghost use Rattle.cq_reader.specs.declared.query.QueryError.TheVariants.{NoMemory};

use crate::atoms::{AtomList, AtomListAndBlanks, read_answers, read_atom};
use crate::limits::{distinct_terms, first_unbound};
use dl_base::{Atom, Atoms, Name, Query, Vars};
use grammar::{ListTail, ReadError, expect, read_list, skip_blanks, whole};
use std::alloc::{AllocError, Global};
use std::marker::Model;
use thiserror::Error;

/// The most atoms, distinct terms and answer places of a query.
const LIMIT: usize = 24;

/// Why a text is refused, in the order in which the reasons are tried.
#[derive(Debug, Drop, Error)]
pub enum QueryError {
    /// The text is no query. The place of the fault, counted from 1: no query begins with the bytes up to this one,
    /// or the text ends too early.
    #[error("syntax at byte {0}")]
    Syntax(u64),
    /// The query has more than 24 atoms, 24 distinct terms or 24 answer places.
    #[error("more than 24 atoms, terms or answer places")]
    TooLarge,
    /// This is the first answer variable that is in no atom.
    #[error("an answer variable is in no atom")]
    Unsafe(Name),
    /// Memory ran out. This may come at any text.
    #[error("no memory")]
    NoMemory,
}

impl From<AllocError> for QueryError {
    ghost from_gives = { λ _ e. e ≡ NoMemory };

    fn from(_e: AllocError) -> QueryError {
        QueryError::NoMemory
    }
}

/// What the text of a query says. It may be too large or unsafe.
#[derive(Debug, Drop)]
pub struct Draft {
    answers: Vars,
    atoms: Atoms,
}

impl Model for Draft {
    ghost use Rattle.dl_base.specs.Query.{Question};

    ghost Value = { Question };

    ghost view = { λ draft. record { answers = draft.answers; atoms = draft.atoms } };
}

/// The query whose atoms are listed in this way, and the text behind it.
#[tactic(auto, unfolding(crate::specs::QueryReading::question_at))]
fn read_listed<L: ListTail<Item = Atom>>(
    alloc: Global,
    text: &[u8],
) -> Result<(Draft, &[u8]), ReadError>
    ensures { Gives (λ x. (x.0, x.1.now)) result (question_at L.another_at text.now) }
{
    let rest = expect(b"q(", text)?;
    let (_, rest) = skip_blanks(rest);
    let (answers, rest) = read_answers(alloc, rest)?;
    let (_, rest) = skip_blanks(rest);
    let rest = expect(b":-", rest)?;
    let (_, rest) = skip_blanks(rest);
    let (first, rest) = read_atom(alloc, rest)?;
    let (atoms, rest) = read_list::<L>(alloc, first, rest)?;
    Ok((Draft { answers, atoms }, rest))
}

/// The query at the front of a text, which it and any blanks behind it end.
pub fn read_draft(alloc: Global, text: &[u8]) -> Result<(Draft, &[u8]), ReadError>
    ensures { Gives (λ x. (x.0, x.1.now)) result (query_and_blanks_at text.now) }
{
    read_listed::<AtomListAndBlanks>(alloc, text)
}

/// The query, where it is within the limits and each answer variable is in an atom.
pub fn fitting(alloc: Global, draft: Draft) -> Result<Query, QueryError>
    requires some { 1 ≤ length draft.atoms }
    requires variables { HasBareVariables draft }
    ensures found { IfOk result (λ q. (q ≡ draft) × IsQuery q) }
    ensures refused { IfErr result (λ e. IsUnfit draft e) }
{
    if draft.answers.items().len() > LIMIT || draft.atoms.items().len() > LIMIT {
        return Err(QueryError::TooLarge);
    }
    let terms = distinct_terms(alloc, draft.atoms.items())?;
    if terms.items().len() > LIMIT {
        return Err(QueryError::TooLarge);
    }
    match first_unbound(draft.answers.items(), terms.items()) {
        Some(place) => {
            let var = draft.answers.items()[place].copy(alloc)?;
            Err(QueryError::Unsafe(var))
        }
        None => Ok(Query::new(draft.answers, draft.atoms)),
    }
}

/// The query that the text means.
pub fn read_query(alloc: Global, text: &[u8]) -> Result<Query, QueryError>
    // The text is this query's and no other's, and it is within the limits.
    ensures found { IfOk result (λ q. MeansQuery text.now q × IsQuery q) }

    // Each error comes exactly where it says, in the order of `QueryError`.
    ensures refused { IfErr result (λ e. IsRefused text.now e) }
{
    match whole(read_listed::<AtomList>(alloc, text)) {
        Ok(draft) => fitting(alloc, draft),
        Err(ReadError::Fault(left)) => Err(QueryError::Syntax((text.len() - left + 1) as u64)),
        Err(ReadError::Memory) => Err(QueryError::NoMemory),
    }
}
