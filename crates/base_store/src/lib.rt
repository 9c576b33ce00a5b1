//! A base's history in the log: an ontology, and the transactions behind it.
//!
//! `specs/History.antt` says what a history is and which rows it has, `specs/Area.antt` which areas keep one and where an
//! area that keeps none offends.
#![tactic(auto)]

pub mod laws;
mod load;
mod loading;
mod store;
#[cfg(test)]
mod untold;

pub use load::{LoadFault, Loaded};
pub use store::{KeepFault, Store};

#[cfg(test)]
mod load_tests;
#[cfg(test)]
mod tests;
