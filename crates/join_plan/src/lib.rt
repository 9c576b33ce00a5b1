//! An order of a shape's atoms in which few elements are gone through, and how each atom is gone through in it.
#![tactic(auto)]

mod candidates;
mod known;
pub mod laws;
mod offers;
mod planner;
mod steps;

pub use planner::plan;
pub use steps::{AccessPath, Plan, Step};

#[cfg(test)]
mod tests;
