//! The log of an area: entries behind gates. An entry counts once its gate is open, and its gate is opened once the entry
//! is on the disk, so a stop at any moment leaves the entries from before, or these and the new one.
//!
//! `specs/Entries.antt` has the grammar of an area and where one offends. Over a host that tells no bytes the calls are
//! safe, and raise the host's count of faults wherever they answer one. No call takes memory.
#![tactic(auto)]

mod front;
mod initial;
pub mod laws;
mod log;
mod reader;
mod writing;

pub use log::{AppendFault, Log};
pub use reader::{LogFault, Next, Reader};

#[cfg(test)]
mod tests;
