//! The sample script: an ontology of five axioms, one transaction of as many changes as its size, three queries and a check.
//!
//! `specs/SampleScript.antt` has its lines.
#![tactic(auto)]

pub mod laws;
mod script;

pub use script::sample;

#[cfg(test)]
mod tests;
