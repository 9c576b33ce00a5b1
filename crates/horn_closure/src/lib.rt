//! What is derived from a set of basic concepts under the inclusions of an ontology, and which inclusion to nothing
//! is violated.
#![tactic(auto)]

mod closed;
mod queue;
mod rules;
mod run;
mod seeds;
mod steps;
#[cfg(test)]
mod tests;
mod uses;

pub use closed::Closed;
pub use rules::{Rules, Scratch};
pub use steps::Steps;
