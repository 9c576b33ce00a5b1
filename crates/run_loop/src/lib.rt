//! The loop of a run: a script is read in pieces, and each of its requests is answered before the next one is taken.
//!
//! It is generic over the engine that answers. `specs/Serving.antt` says what was replied so far and what a stop may leave;
//! `specs/Run.antt` says how a run ends.
#![tactic(auto)]

mod answering;
mod ending;
mod fault;
pub mod laws;
mod line;
mod pieces;
mod printing;
mod reading;
mod running;
mod taking;

pub use ending::Ending;
pub use fault::Fault;
pub use line::{Said, block_request, is_end, read_line};
pub use running::run;

#[cfg(test)]
mod tests;
