//! Tables over any list of rows, witnesses included, for the tests of what reads tables.
#![tactic(auto)]

mod sought;
mod tables;
#[cfg(test)]
mod tests;

pub use tables::{ListedRow, ListedTables};
