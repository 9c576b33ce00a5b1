//! Axioms and blocks of them, as the ontology's text gives them.
//!
//! The grammar stands in `specs/AxiomGrammar.antt` as the format writes it. Its value is a syntax tree, and what a tree
//! brings to an ontology is a function of the tree (`specs/AxiomMeaning.antt`). What a block of lines comes to is a
//! relation over its lines (`specs/Block.antt`).
#![tactic(auto)]

mod axiom;
mod block;
mod copies;
mod forms;
mod inclusions;
pub mod laws;
mod parts;
mod tree;
mod vocabulary;

pub use axiom::{AxiomError, read_axiom};
pub use block::{Block, BlockCause, BlockError, BlockResult};
pub use tree::{AxiomTree, Members, RightSide, Sides};

#[cfg(test)]
mod axiom_tests;
#[cfg(test)]
mod block_tests;
