//! The commands of a script.

ghost use Rattle.std.specs.Prelude.{◌≡◌, ◌≤◌, Some, IfOk, IfErr, length};
ghost use Rattle.dl_base.specs.Query.{Question, HasBareVariables, IsQuery};
ghost use Rattle.script_reader.specs.Commands.{AsksCommand, IsRefusedLine, IsUnfitTree, command_of, query_of};

use crate::command_tree::{CommandTree, read_script_line};
use cq_reader::{QueryError, fitting};
use dl_base::{NamedRow, Query};
use gen_arena::Handle;
use grammar::{ReadError, whole};
use std::alloc::Global;

/// What a line of a script asks.
#[derive(Debug, Drop)]
pub enum Command {
    /// Nothing: it is a blank line or a comment.
    Blank,
    /// To take the ontology of the block that it begins.
    Ontology,
    /// To open the session.
    Begin(u8),
    /// To add the row in the session.
    Add(u8, NamedRow),
    /// To delete the row in the session.
    Del(u8, NamedRow),
    /// To make the session's changes a transaction.
    Commit(u8),
    /// To give the session up.
    Abort(u8),
    /// To answer the query.
    Ask(Query),
    /// To keep the query under a handle.
    Prepare(Query),
    /// To answer the query that is kept under the handle.
    Run(Handle),
    /// To forget the query that is kept under the handle.
    Drop(Handle),
    /// To tell the first clash.
    Check,
    /// To tell the completed tables.
    Tables,
    /// To tidy up.
    Tidy,
    /// To give the base up and load it again.
    Reopen,
}

/// What the line asks, whatever blanks stand before and behind it.
pub fn read_command(alloc: Global, line: &[u8]) -> Result<Command, QueryError>
    ensures found { IfOk result (AsksCommand line.now) }

    // Each error comes exactly where it says, in the order of `QueryError`.
    ensures refused { IfErr result (IsRefusedLine line.now) }
{
    match whole(read_script_line(alloc, line)) {
        Ok(said) => command_of(alloc, said),
        Err(ReadError::Fault(left)) => Err(QueryError::Syntax((line.len() - left + 1) as u64)),
        Err(ReadError::Memory) => Err(QueryError::NoMemory),
    }
}

/// The command, where its query is within the limits.
fn command_of(alloc: Global, said: CommandTree) -> Result<Command, QueryError>
    requires { (q : Question) → query_of said ≡ Some q → (1 ≤ length q.atoms) × HasBareVariables q }
    ensures found { IfOk result (λ c. (c ≡ command_of said) × ((q : Question) → query_of said ≡ Some q → IsQuery q)) }
    ensures refused { IfErr result (IsUnfitTree said) }
{
    match said {
        CommandTree::Blank => Ok(Command::Blank),
        CommandTree::Ontology => Ok(Command::Ontology),
        CommandTree::Begin(session) => Ok(Command::Begin(session)),
        CommandTree::Add(session, row) => Ok(Command::Add(session, row)),
        CommandTree::Del(session, row) => Ok(Command::Del(session, row)),
        CommandTree::Commit(session) => Ok(Command::Commit(session)),
        CommandTree::Abort(session) => Ok(Command::Abort(session)),
        CommandTree::Ask(query) => Ok(Command::Ask(fitting(alloc, query)?)),
        CommandTree::Prepare(query) => Ok(Command::Prepare(fitting(alloc, query)?)),
        CommandTree::Run(handle) => Ok(Command::Run(handle)),
        CommandTree::Drop(handle) => Ok(Command::Drop(handle)),
        CommandTree::Check => Ok(Command::Check),
        CommandTree::Tables => Ok(Command::Tables),
        CommandTree::Tidy => Ok(Command::Tidy),
        CommandTree::Reopen => Ok(Command::Reopen),
    }
}
