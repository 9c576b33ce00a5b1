//! What a base derives by its ontology: completed tables, the first clash, the replies to questions, and the lines of the tables.
#![tactic(auto)]

mod reasoner;

pub use reasoner::Reasoner;
