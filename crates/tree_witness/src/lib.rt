//! Tree witnesses: which terms of a query stand on one element as soon as an atom leads to a witness.
#![tactic(auto)]

pub mod laws;
mod oriented;
mod step;
mod tree;
mod trees;

pub use oriented::OrientedAtom;
pub use tree::ReachedTerm;
pub use trees::{TreeEntry, TreeWitnesses};

#[cfg(test)]
mod tests;
