//! The lines of an input that comes in pieces.
ghost use Rattle.std.specs.Prelude.{◌≡◌, ◌==◌, ◌++◌, [], true, false, IfOk};
ghost use Rattle.std.specs.List.{position};
ghost use Rattle.script_reader.specs.Lines.{given, line_of};

use std::alloc::{AllocError, Global};
use std::marker::Model;

/// The most bytes of a line, without its end.
const LONGEST_LINE: usize = 4096;

/// How many bytes are kept of a line that hasn't ended: one more than those of the longest line and the byte 0x0D
/// behind it, so that a line which is too long shows.
const KEPT: usize = LONGEST_LINE + 2;

/// What came of the bytes that were fed.
#[derive(Clone, Copy, Debug, PartialEq, Eq)]
pub enum Fed {
    /// The line hasn't ended.
    More,
    /// A line ended.
    Line,
    /// A line ended that is too long.
    TooLong,
}

/// The lines of an input, one at a time. No more of a line is kept than tells whether it is too long.
#[derive(Drop)]
pub struct Lines {
    bytes: Vec<u8>,
    ended: bool,
}

impl Model for Lines {
    ghost use Rattle.std.specs.Prelude.{◌≤◌, vec_len, vec_capacity};
    ghost use Rattle.script_reader.specs.Feeding.{LineSoFar};

    ghost Value = { LineSoFar };

    ghost view = { λ l. record { bytes = l.bytes.items; ended = l.ended } };

    ghost invariant = { λ l. (vec_len l.bytes ≤ 4098) × (4098 ≤ vec_capacity l.bytes) };
}

impl Lines {
    ghost use Rattle.script_reader.specs.Feeding.{FeedsLine, IsBehind, TellsLast, begun, kept, told};

    /// No line yet, with room for all that is ever kept.
    pub fn new(alloc: Global) -> Result<Lines, AllocError>
        ensures value { IfOk result (λ l. l ≡ record { bytes = []; ended = false }) }
        ensures so_far { IfOk result (IsBehind []) }
    {
        let bytes = Vec::with_capacity(alloc, KEPT)?;
        let ended = false;
        Ok(Lines { bytes, ended })
    }

    /// Takes bytes through the first line end, or all, and answers how many. It takes no memory.
    pub fn feed(&mut self, piece: &[u8]) -> (usize, Fed)
        ensures { FeedsLine self.old piece.now result.0 result.1 self.new }
    {
        self.begin();
        match line_end(piece) {
            Some(at) => {
                self.keep(&piece[..at]);
                (at + 1, self.end())
            }
            None => {
                self.keep(piece);
                (piece.len(), Fed::More)
            }
        }
    }

    /// Tells the last line of an input that has ended, or `More` where there is none. It takes no memory.
    pub fn finish(&mut self) -> Fed
        ensures { TellsLast self.old result self.new }
    {
        self.begin();
        if self.bytes.is_empty() {
            return Fed::More;
        }
        self.end()
    }

    /// The line that ended, where it isn't too long.
    pub fn line(&self) -> &[u8]
        ensures { result.now ≡ line_of self.now.bytes }
    {
        without_return(self.bytes.as_slice())
    }

    /// Begins the next line where the last one ended.
    fn begin(&mut self)
        ensures { self.new ≡ record { bytes = begun self.old; ended = false } }
    {
        if self.ended {
            self.bytes.clear();
            self.ended = false;
        }
    }

    /// Keeps as many of these bytes as there is room for.
    fn keep(&mut self, input: &[u8])
        ensures { self.new ≡ record { bytes = kept (self.old.bytes ++ input.now); ended = self.old.ended } }
    {
        let room = KEPT - self.bytes.as_slice().len();
        let some = input.len().min(room);
        let _ = self.bytes.extend_from_slice(&input[..some]);
    }

    /// The line has ended.
    fn end(&mut self) -> Fed
        ensures value { self.new ≡ record { bytes = self.old.bytes; ended = true } }
        ensures told { result ≡ told (given self.old.bytes) }
    {
        self.ended = true;
        if self.line().len() > LONGEST_LINE {
            Fed::TooLong
        } else {
            Fed::Line
        }
    }
}

/// A byte 0x0D at the end isn't part of the line.
fn without_return(piece: &[u8]) -> &[u8]
    ensures { result.now ≡ line_of piece.now }
{
    let length = piece.len();
    if length > 0 && piece[length - 1] == b'\r' {
        &piece[..length - 1]
    } else {
        piece
    }
}

/// The place of the first line end, if there is one.
fn line_end(input: &[u8]) -> Option<usize>
    ensures { result ≡ position (λ b. b == 10) input.now }
{
    input.iter().position(|byte| *byte == b'\n')
}
