//! What an engine is asked.

ghost use Rattle.std.specs.Prelude.{◌↔◌, Some, IsTrue};
ghost use Rattle.script_reader.specs.Requests.{EndsBlock};

use crate::command::Command;
use crate::doc_line::trimmed;
use axiom_reader::BlockResult;
use reply_text::Refusal;

/// What a script asks next.
#[derive(Drop)]
pub enum Request {
    /// A command that stands in a line alone.
    Plain(Command),
    /// To take what a block of an ontology comes to.
    Block(BlockResult),
    /// A line that is refused.
    Bad(Refusal),
}

/// Whether the line, which isn't too long, ends a block: it is `end` with any blanks before and behind it.
pub fn ends_block(line: &[u8]) -> bool
    ensures { IsTrue result ↔ EndsBlock (Some line.now) }
{
    trimmed(line) == b"end".as_slice()
}
