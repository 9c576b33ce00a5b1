//! What a line of a script is.
ghost use Rattle.std.specs.Prelude.{◌≡◌, ◌↔◌, ℕ, List, Some, IfOk, IsTrue};
ghost use Rattle.std.specs.Option.{option_copied};
ghost use Rattle.script_reader.specs.Commands.{AsksCommand, IsRefusedLine};
ghost use Rattle.script_reader.specs.Requests.{EndsBlock};
ghost use Rattle.base_engine.specs.Requests.{IsGiven};
ghost use Rattle.run_loop.specs.Taking.{ReadsLine, Says};

use axiom_reader::BlockResult;
use cq_reader::QueryError;
use reply_text::Refusal;
use script_reader::{Command, Request, ends_block, read_command};
use std::alloc::{AllocError, Global};

/// What a line of a script is, where no block is begun.
#[derive(Drop)]
pub enum Said {
    /// It is blank or a comment.
    Nothing,
    /// It opens a block.
    Opens,
    /// It is a request.
    Asks(Request),
}

/// Whether the line ends a block. None stands for a line that is too long.
pub fn is_end(line: Option<&[u8]>) -> bool
    ensures { IsTrue result ↔ EndsBlock (option_copied line.entry) }
{
    match line {
        Some(text) => ends_block(text),
        None => false,
    }
}

/// What the line is, where no block is begun. None stands for a line that is too long.
pub fn read_line(alloc: Global, line: Option<&[u8]>) -> Result<Said, AllocError>
    ensures { IfOk result (Says (option_copied line.entry)) }
{
    match line {
        Some(text) => read_text(alloc, text),
        None => Ok(Said::Asks(Request::Bad(Refusal::LineTooLong))),
    }
}

/// What the line is, which isn't too long.
fn read_text(alloc: Global, text: &[u8]) -> Result<Said, AllocError>
    ensures { IfOk result (Says (Some text.now)) }
{
    match read_command(alloc, text) {
        Ok(command) => Ok(said_by(command)),
        Err(error) => refused(error),
    }
}

/// What a line is that asks the command.
fn said_by(command: Command) -> Said
    ensures { ReadsLine command result }
{
    match command {
        Command::Blank => Said::Nothing,
        Command::Ontology => Said::Opens,
        alone => Said::Asks(Request::Plain(alone)),
    }
}

/// What a line is that is refused.
fn refused(error: QueryError) -> Result<Said, AllocError>
    ensures { (text : List ℕ) → IsRefusedLine text error → IfOk result (Says (Some text)) }
{
    match error {
        QueryError::Syntax(place) => Ok(Said::Asks(Request::Bad(Refusal::Syntax(place)))),
        QueryError::TooLarge => Ok(Said::Asks(Request::Bad(Refusal::QueryTooLarge))),
        QueryError::Unsafe(v) => Ok(Said::Asks(Request::Bad(Refusal::UnsafeVariable(v)))),
        QueryError::NoMemory => Err(AllocError),
    }
}

/// The request of a block.
pub fn block_request(came_to: BlockResult) -> Request
    ensures is { result ≡ Request.Block came_to }
    ensures given { IsGiven result }
{
    match came_to {
        Ok(ontology) => {
            let _ = ontology.concepts();
            Request::Block(Ok(ontology))
        }
        Err(error) => Request::Block(Err(error)),
    }
}
