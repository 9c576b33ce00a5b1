//! Reading one line of a document.
ghost use Rattle.std.specs.Prelude.{◌≡◌, [], MatchOption, IfOk, IfErr, List, ℕ};
ghost use Rattle.grammar.specs.Reading.{Gives};
ghost use Rattle.script_reader.specs.RowReading.{row_text_at, third_at};
ghost use Rattle.script_reader.specs.DocLines.{Follows, IsDocLine, IsFaultOf, IsFit, IsLineFault, IsTextFault, IsTrimmed, IsWithoutBlanksBehind, ask_behind, axiom_behind, fact_behind, line_text};
ghost use Rattle.script_reader.specs.declared.doc_line.CommandError.TheVariants.{NoMemory};

use axiom_reader::{AxiomError, read_axiom};
use cq_reader::{QueryError, read_query};
use dl_base::{Axiom, Name, NamedRow, Query, read_name};
use grammar::{Kind, ReadError, next_is_byte, next_is_kind, skip_blanks, some_blanks, whole};
use std::alloc::{AllocError, Global};
use thiserror::Error;

/// What a line of a document says.
#[derive(Debug, Drop)]
pub enum DocLine {
    /// Nothing: it is a blank line or a comment.
    Blank,
    /// An axiom of the ontology.
    Axiom(Axiom),
    /// A row of the base.
    Fact(NamedRow),
    /// The query.
    Ask(Query),
}

/// Why a line isn't read, in the order in which the reasons are tried.
#[derive(Debug, Drop, Error)]
pub enum CommandError {
    /// It is no line of a document.
    #[error("no line of a document")]
    Syntax,
    /// Its query has more than 24 atoms, distinct terms or answer places.
    #[error("more than 24 atoms, terms or answer places")]
    TooLarge,
    /// This is its query's first answer variable that is in no atom.
    #[error("an answer variable is in no atom")]
    Unsafe(Name),
    /// Memory ran out. This may come at any line.
    #[error("no memory")]
    NoMemory,
}

impl From<AllocError> for CommandError {
    ghost from_gives = { λ _ e. e ≡ NoMemory };

    fn from(_error: AllocError) -> CommandError {
        CommandError::NoMemory
    }
}

/// What the line says, whatever blanks stand before and behind it.
pub fn read_doc_line(alloc: Global, text: &[u8]) -> Result<DocLine, CommandError>
    ensures found { IfOk result (IsDocLine text.now) }
    ensures fit { IfOk result IsFit }
    ensures fault { IfErr result (IsLineFault text.now) }
{
    read_text(alloc, trimmed(text))
}

/// The text without the blanks before and behind it.
pub(crate) fn trimmed(text: &[u8]) -> &[u8]
    ensures { IsTrimmed text.now result.now }
{
    let (_, rest) = skip_blanks(text);
    without_blanks_behind(rest)
}

/// The text without the blanks behind it.
fn without_blanks_behind(text: &[u8]) -> &[u8]
    ensures { IsWithoutBlanksBehind text.now result.now }
{
    let mut end = text.len();
    while end > 0 {
        if !next_is_kind(Kind::Blank, &text[end - 1..]) {
            return &text[..end];
        }
        end -= 1;
    }
    &text[..0]
}

/// What a line says that has no blanks before and behind it.
fn read_text(alloc: Global, text: &[u8]) -> Result<DocLine, CommandError>
    ensures found { IfOk result (line_text text.now) }
    ensures fit { IfOk result IsFit }
    ensures fault { IfErr result (IsTextFault text.now) }
{
    if text.is_empty() || next_is_byte(b'#', text) {
        return Ok(DocLine::Blank);
    }
    if let Some(rest) = behind(b"axiom", text) {
        return read_axiom_text(alloc, rest);
    }
    if let Some(rest) = behind(b"fact", text) {
        return read_fact(alloc, rest);
    }
    match behind(b"ask", text) {
        Some(rest) => read_ask(alloc, rest),
        None => Err(CommandError::Syntax),
    }
}

/// What stands behind the keyword and the blanks that follow it, or `None` where the text doesn't begin with both.
fn behind<'a>(keyword: &[u8], text: &'a [u8]) -> Option<&'a [u8]>
    ensures { MatchOption result ((rest : List ℕ) → Follows keyword.now text.now rest → ⊥) (λ rest. Follows keyword.now text.now rest.now) }
{
    match text.strip_prefix(keyword) {
        Some(rest) => behind_blanks(rest),
        None => None,
    }
}

/// What stands behind the blanks in front, or `None` where there are none.
fn behind_blanks(text: &[u8]) -> Option<&[u8]>
    ensures { MatchOption result ((rest : List ℕ) → Follows [] text.now rest → ⊥) (λ rest. Follows [] text.now rest.now) }
{
    let (gap, rest) = skip_blanks(text);
    if gap.is_empty() { None } else { Some(rest) }
}

/// The line of an axiom, from the text behind its keyword.
fn read_axiom_text(alloc: Global, text: &[u8]) -> Result<DocLine, CommandError>
    ensures found { IfOk result (axiom_behind text.now) }
    ensures fit { IfOk result IsFit }
    ensures fault { IfErr result (IsFaultOf (axiom_behind text.now)) }
{
    match read_axiom(alloc, text) {
        Ok(found) => Ok(DocLine::Axiom(found)),
        Err(AxiomError::Syntax(_)) => Err(CommandError::Syntax),
        Err(AxiomError::NoMemory) => Err(CommandError::NoMemory),
    }
}

/// The line of a query, from the text behind its keyword.
fn read_ask(alloc: Global, text: &[u8]) -> Result<DocLine, CommandError>
    ensures found { IfOk result (ask_behind text.now) }
    ensures fit { IfOk result IsFit }
    ensures fault { IfErr result (IsFaultOf (ask_behind text.now)) }
{
    match read_query(alloc, text) {
        Ok(query) => Ok(DocLine::Ask(query)),
        Err(QueryError::Syntax(_)) => Err(CommandError::Syntax),
        Err(QueryError::TooLarge) => Err(CommandError::TooLarge),
        Err(QueryError::Unsafe(variable)) => Err(CommandError::Unsafe(variable)),
        Err(QueryError::NoMemory) => Err(CommandError::NoMemory),
    }
}

/// The line of a fact, from the text behind its keyword.
fn read_fact(alloc: Global, text: &[u8]) -> Result<DocLine, CommandError>
    ensures found { IfOk result (fact_behind text.now) }
    ensures fit { IfOk result IsFit }
    ensures fault { IfErr result (IsFaultOf (fact_behind text.now)) }
{
    match whole(read_row(alloc, text)) {
        Ok(row) => Ok(DocLine::Fact(row)),
        Err(ReadError::Fault(_)) => Err(CommandError::Syntax),
        Err(ReadError::Memory) => Err(CommandError::NoMemory),
    }
}

/// A row: a concept and an individual, or a role and two.
#[tactic(auto, unfolding(crate::specs::RowReading::row_text_at))]
fn read_row(alloc: Global, text: &[u8]) -> Result<(NamedRow, &[u8]), ReadError>
    ensures { Gives (λ x. (x.0, x.1.now)) result (row_text_at text.now) }
{
    let (first, rest) = read_name(alloc, text)?;
    let (_, rest) = some_blanks(rest)?;
    let (second, rest) = read_name(alloc, rest)?;
    read_row_on(alloc, first, second, rest)
}

/// A row behind its first two names.
#[tactic(auto, unfolding(crate::specs::RowReading::third_at))]
fn read_row_on(
    alloc: Global,
    first: Name,
    second: Name,
    text: &[u8],
) -> Result<(NamedRow, &[u8]), ReadError>
    ensures { Gives (λ x. (x.0, x.1.now)) result (third_at first second text.now) }
{
    if text.is_empty() {
        let row = NamedRow::Concept {
            concept: first,
            individual: second,
        };
        return Ok((row, text));
    }
    let (_, rest) = some_blanks(text)?;
    let (third, rest) = read_name(alloc, rest)?;
    let row = NamedRow::Role {
        role: first,
        from: second,
        to: third,
    };
    Ok((row, rest))
}
