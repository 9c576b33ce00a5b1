//! Blocks of lines, each of which holds an axiom, is blank or is a comment.

ghost use Rattle.std.specs.Prelude.{◌≡◌, ◌+◌, ◌^◌, ◌<◌, ◌++◌, ◌∷◌, ◌↔◌, [], IfOk, OnOk, IsTrue, List, length};
ghost use Rattle.std.specs.Option.{option_copied};
ghost use Rattle.grammar.specs.Reading.{Gives};
ghost use Rattle.axiom_reader.specs.Block.{Line, IsSkipped, HoldsAxiom, TakesAxiom, Steps, ComesTo, IsProgressOf, BlockGives};
ghost use Rattle.axiom_reader.specs.BlockReading.{line_at};

use crate::axiom::axiom_of;
use crate::forms::read_tree;
use crate::tree::AxiomTree;
use dl_base::{Axiom, ExtendError, Ontology};
use grammar::{ReadError, next_is_byte, skip_blanks, whole};
use std::alloc::{AllocError, Global};
use std::marker::Model;
use std::mem;
use thiserror::Error;

/// Why a line offends.
#[derive(Clone, Copy, Debug, PartialEq, Eq)]
pub enum BlockCause {
    /// It holds no axiom, and is neither blank nor a comment. Also: the block was cut off before it.
    Syntax,
    /// Its axiom passes a limit of the ontology.
    Limit,
    /// It is too long.
    Length,
}

/// The first line of a block that offends.
#[derive(Clone, Copy, Debug, PartialEq, Eq, Error)]
#[error("line {line}: {cause:?}")]
pub struct BlockError {
    /// The line, counted from 1. Blank lines and comments are counted too.
    pub line: u64,
    /// Why it offends.
    pub cause: BlockCause,
}

/// What a block comes to.
pub type BlockResult = Result<Ontology, BlockError>;

/// Whether the line is blank or a comment.
fn is_skipped(text: &[u8]) -> bool
    ensures { IsTrue result ↔ IsSkipped text.now }
{
    let (_, rest) = skip_blanks(text);
    rest.is_empty() || next_is_byte(b'#', rest)
}

/// The syntax tree of the axiom of a line, with blanks before and behind it.
#[tactic(auto, unfolding(crate::specs::BlockReading::line_at))]
fn read_line_tree(alloc: Global, text: &[u8]) -> Result<(AxiomTree, &[u8]), ReadError>
    ensures { Gives (λ x. (x.0, x.1.now)) result (line_at text.now) }
{
    let (_, rest) = skip_blanks(text);
    let (tree, rest) = read_tree(alloc, rest)?;
    let (_, rest) = skip_blanks(rest);
    Ok((tree, rest))
}

/// The axiom of a line, or nothing where it holds none.
fn read_line(alloc: Global, text: &[u8]) -> Result<Option<Axiom>, AllocError>
    ensures { IfOk result (HoldsAxiom text.now) }
{
    match whole(read_line_tree(alloc, text)) {
        Ok(tree) => Ok(Some(axiom_of(alloc, &tree)?)),
        Err(ReadError::Fault(_)) => Ok(None),
        Err(ReadError::Memory) => Err(AllocError),
    }
}

/// The ontology with the axiom, or `Limit` where the axiom passes a limit.
fn extended(
    alloc: Global,
    ontology: Ontology,
    added: &Axiom,
) -> Result<Result<Ontology, BlockCause>, AllocError>
    ensures { IfOk result (TakesAxiom ontology added.now) }
{
    match ontology.extend(alloc, added) {
        Ok(new) => Ok(Ok(new)),
        Err(ExtendError::TooMany(_)) => Ok(Err(BlockCause::Limit)),
        Err(ExtendError::NoMemory) => Err(AllocError),
    }
}

/// Where a line that is not too long leads from the ontology, or why it offends.
fn step(
    alloc: Global,
    ontology: Ontology,
    text: &[u8],
) -> Result<Result<Ontology, BlockCause>, AllocError>
    ensures { IfOk result (Steps ontology (Some text.now)) }
{
    if is_skipped(text) {
        return Ok(Ok(ontology));
    }
    match read_line(alloc, text)? {
        Some(found) => extended(alloc, ontology, &found),
        None => Ok(Err(BlockCause::Syntax)),
    }
}

/// Where a line leads from the ontology, or why it offends.
fn step_line(
    alloc: Global,
    ontology: Ontology,
    line: Option<&[u8]>,
) -> Result<Result<Ontology, BlockCause>, AllocError>
    ensures { IfOk result (Steps ontology (option_copied line.entry)) }
{
    match line {
        Some(text) => step(alloc, ontology, text),
        None => Ok(Err(BlockCause::Length)),
    }
}

/// What the lines come to with one more behind them, of which the number is given.
fn outcome_after(
    alloc: Global,
    outcome: BlockResult,
    number: u64,
    line: Option<&[u8]>,
) -> Result<BlockResult, AllocError>
    ensures { (lines : List Line) → ComesTo lines outcome → number ≡ length lines + 1
        → IfOk result (ComesTo (lines ++ option_copied line.entry ∷ [])) }
{
    match outcome {
        Ok(ontology) => match step_line(alloc, ontology, line)? {
            Ok(new) => Ok(Ok(new)),
            Err(cause) => Ok(Err(BlockError {
                line: number,
                cause,
            })),
        },
        Err(error) => Ok(Err(error)),
    }
}

/// A block as far as its lines were given. Contracts see it as the number of its lines and what they come to.
#[derive(Drop)]
pub struct Block {
    alloc: Global,
    lines: u64,
    outcome: BlockResult,
}

impl Model for Block {
    ghost use Rattle.axiom_reader.specs.Block.{Progress};

    ghost Value = { Progress };

    ghost view = { λ b. record { lines = b.lines; outcome = b.outcome } };
}

impl Block {
    /// The block without lines.
    pub fn new(alloc: Global) -> Result<Block, AllocError>
        ensures { IfOk result (IsProgressOf []) }
    {
        Ok(Block {
            alloc,
            lines: 0,
            outcome: Ok(Ontology::new(alloc)?),
        })
    }

    /// Takes one line more; none stands for a line that is too long. After `AllocError` the block is given up.
    pub fn line(&mut self, text: Option<&[u8]>) -> Result<(), AllocError>
        ensures { (lines : List Line) → IsProgressOf lines self.old → length lines < 2 ^ 63
            → OnOk result (IsProgressOf (lines ++ option_copied text.entry ∷ []) self.new) }
    {
        self.lines = self.lines.saturating_add(1);
        let given_up = BlockError {
            line: self.lines,
            cause: BlockCause::Syntax,
        };
        let outcome = mem::replace(&mut self.outcome, Err(given_up));
        self.outcome = outcome_after(self.alloc, outcome, self.lines, text)?;
        Ok(())
    }

    /// The ontology of all axioms, or the first line that offends. Where none does and the block was not ended, it is
    /// the line after the last, with the cause `Syntax`. It takes no memory.
    pub fn finish(self, ended: bool) -> BlockResult
        ensures { (lines : List Line) → IsProgressOf lines self → length lines < 2 ^ 63 → BlockGives lines ended result }
    {
        let Block {
            alloc: _,
            lines,
            outcome,
        } = self;
        let ontology = outcome?;
        if ended {
            return Ok(ontology);
        }
        Err(BlockError {
            line: lines.saturating_add(1),
            cause: BlockCause::Syntax,
        })
    }
}
