//! A query by numbers: its distinct terms in the order in which they occur, and its names by their places in an ontology.
#![tactic(auto)]

pub mod laws;
mod layout;
mod numbering;

pub use layout::{Shape, ShapeAtom};
pub use numbering::{ShapeError, shape};

#[cfg(test)]
mod tests;
