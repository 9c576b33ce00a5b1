//! One document, from its bytes to the printed reply: the whole of the command `answer`.
#![tactic(auto)]

mod answering;
mod document;
#[cfg(test)]
mod documents;
mod ending;
mod facts;
mod input;
pub mod laws;
mod reason;
mod reply;
#[cfg(test)]
mod tests;

pub use answering::answer;
pub use ending::DocumentEnding;
