//! Reading the lines of documents and of scripts.
#![tactic(auto)]

mod command;
mod command_tree;
mod doc_line;
mod input;
pub mod laws;
mod lines;
mod request;

pub use command::{Command, read_command};
pub use command_tree::CommandTree;
pub use doc_line::{CommandError, DocLine, read_doc_line};
pub use input::{MAX_INPUT, READ_BUFFER, room_after};
pub use lines::{Fed, Lines};
pub use request::{Request, ends_block};

#[cfg(test)]
mod command_tests;
#[cfg(test)]
mod lines_tests;
#[cfg(test)]
mod script_tests;
#[cfg(test)]
mod tests;
