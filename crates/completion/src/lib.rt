//! Completed tables: what is derived at the individuals of asserted rows and at the witnesses that roles need for them.
#![tactic(auto)]

mod asserted;
mod completed;
mod edges;
mod fill;
mod gather;
mod held;
mod individuals;
mod members;
mod numbers;
mod points;
mod properties;
mod rows;
mod search;
mod tables;
#[cfg(test)]
mod tests;

pub use completed::Completed;
